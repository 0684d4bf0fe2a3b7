ghost use Rattle.std.specs.Prelude.{◌≡◌, true, IfOk, OnOk};
ghost use Rattle.typed_json.specs.Row.{row_of};
ghost use Rattle.typed_json.specs.Typed.{has_types};

use crate::adding::add_field;
use crate::plain_json::plain_fields;
use crate::schemas::schema;
use bson_values::{Document, NoMemory};
use jsonb_contain::{Fields, Json};
use std::alloc::Global;

/// The row of a document: an object of the plain JSON of its fields, and beside them `$s`, its schema.
#[tactic(auto, using(crate::proofs::Puts::put_last))]
pub fn to_row(alloc: Global, doc: &Document) -> Result<Json, NoMemory>
    ensures row { IfOk result (λ it. it ≡ row_of doc.now) }
    ensures typed { OnOk result (has_types doc.now ≡ true) }
{
    let schema = schema(alloc, doc)?;
    let mut fields = plain_fields(alloc, doc, doc.len().saturating_add(1))?;
    add_field(&mut fields, alloc, "$s", schema)?;
    Ok(Json::Object(Fields::of(alloc, fields)?))
}
