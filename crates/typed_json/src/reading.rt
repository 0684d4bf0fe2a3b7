ghost use Rattle.std.specs.Prelude.{◌≡◌, true, None, Some, Ok, IfOk, IfErr, List as Seq};
ghost use Rattle.bson_values.specs.declared.pairs.Pair.{Pair};
ghost use Rattle.bson_values.specs.declared.value.Value.{Value};
ghost use Rattle.bson_values.specs.Storable.{storable};
ghost use Rattle.typed_json.specs.Laws.{IsRowOf};
ghost use Rattle.typed_json.specs.Reading.{row_read};
ghost use Rattle.typed_json.specs.Row.{row_of};
ghost use Rattle.typed_json.specs.Typed.{has_types};

use crate::levels::doc_at;
use crate::refused::RowRefused;
use crate::tags::fields_of;
use bson_values::{Document, storable};
use jsonb_contain::Json;
use std::alloc::Global;

/// The document that a row is read as, storable or not.
fn row_read(alloc: Global, json: &Json) -> Result<Document, RowRefused>
    ensures ok { IfOk result (λ it. row_read json.now ≡ Some it) }
    ensures err { IfErr result (λ e. e ≡ RowRefused.NotRow → row_read json.now ≡ None) }
{
    let Some(fields) = fields_of(json) else {
        return Err(RowRefused::NotRow);
    };
    let Some(schema) = fields.get("$s") else {
        return Err(RowRefused::NotRow);
    };
    doc_at(alloc, schema, fields, 1, 32)
}

/// The document of which the JSON is the row.
#[tactic(auto, using(crate::proofs::Rows::row_is, crate::proofs::Rows::typed, crate::proofs::Rows::no_row, crate::proofs::Rows::no_stored))]
pub fn from_row(alloc: Global, json: &Json) -> Result<Document, RowRefused>
    ensures read { IfOk result (λ it. row_of it ≡ json.now) }
    ensures storable { IfOk result (λ it. storable it ≡ Ok tt) }
    ensures typed { IfOk result (λ it. has_types it ≡ true) }
    ensures not_row { IfErr result (λ e. e ≡ RowRefused.NotRow → (doc : Seq (Pair Value)) → IsRowOf json.now doc → ⊥) }
{
    let doc = row_read(alloc, json)?;
    match storable(&doc) {
        Ok(()) => Ok(doc),
        Err(_) => Err(RowRefused::NotRow),
    }
}
