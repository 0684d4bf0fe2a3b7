ghost use Rattle.std.specs.Prelude.{◌≡◌, codes, map, true, IfOk};
ghost use Rattle.bson_values.specs.Names.{names};
ghost use Rattle.jsonb_contain.specs.Rising.{is_below};
ghost use Rattle.typed_json.specs.Plain.{each};
ghost use Rattle.typed_json.specs.Row.{alone, kind_of, parted, schema_of};

use crate::adding::{add_field, room};
use bson_values::{Document, List, NoMemory, Pair, Text, Value};
use jsonb_contain::{Fields, Json};
use std::alloc::Global;

/// What a value is, of a type that has nothing beside its name.
fn alone(alloc: Global, name: &str) -> Result<Json, NoMemory>
    ensures { IfOk result (λ it. it ≡ Json.Object (alone name.now)) }
{
    let mut tag = room(alloc, 1)?;
    let name = Text::of(alloc, name)?;
    add_field(&mut tag, alloc, "t", Json::Text(name))?;
    Ok(Json::Object(Fields::from_list(tag)))
}

/// What a value is, of a type that has a part beside its name.
fn parted(alloc: Global, name: &str, part: &str, more: Json) -> Result<Json, NoMemory>
    requires { is_below part.now (codes "t") ≡ true }
    ensures { IfOk result (λ it. it ≡ Json.Object (parted name.now part.now more)) }
{
    let mut tag = room(alloc, 2)?;
    let name = Text::of(alloc, name)?;
    add_field(&mut tag, alloc, part, more)?;
    add_field(&mut tag, alloc, "t", Json::Text(name))?;
    Ok(Json::Object(Fields::from_list(tag)))
}

/// What a value is.
#[cycle(kind)]
fn kind(alloc: Global, value: &Value) -> Result<Json, NoMemory>
    ensures { IfOk result (λ it. it ≡ kind_of value.now) }
{
    match value {
        Value::Str(_) => alone(alloc, "string"),
        Value::Doc(document) => document_kind(alloc, document),
        Value::Arr(items) => array_kind(alloc, items),
        Value::Bin(binary) => parted(alloc, "binData", "s", Json::Whole(binary.subtype as i128)),
        Value::Id(_) => alone(alloc, "objectId"),
        Value::Bool(_) => alone(alloc, "bool"),
        Value::Date(_) => alone(alloc, "date"),
        Value::Null => alone(alloc, "null"),
        Value::Regex(regex) => parted(alloc, "regex", "o", Json::Text(regex.options.copy(alloc)?)),
        Value::Int(_) => alone(alloc, "int"),
        Value::Stamp(_) => alone(alloc, "timestamp"),
        Value::Long(_) => alone(alloc, "long"),
    }
}

#[tactic(auto, using(crate::proofs::Shows::kind_Arr))]
#[cycle(kind)]
fn array_kind(alloc: Global, items: &List<Value>) -> Result<Json, NoMemory>
    ensures { IfOk result (λ it. it ≡ kind_of (Value.Arr items.now)) }
{
    let mut kinds = room(alloc, items.len())?;
    for item in items.as_slice() {
        let kind = kind(alloc, item)?;
        kinds.add(kind)?;
    }
    parted(alloc, "array", "i", Json::Array(kinds))
}

#[tactic(auto, using(crate::proofs::Shows::kind_Doc))]
#[cycle(kind)]
fn document_kind(alloc: Global, doc: &Document) -> Result<Json, NoMemory>
    ensures { IfOk result (λ it. it ≡ kind_of (Value.Doc doc.now)) }
{
    let schema = schema(alloc, doc)?;
    parted(alloc, "object", "$s", schema)
}

/// The schema of a document.
#[cycle(kind)]
pub(crate) fn schema(alloc: Global, doc: &Document) -> Result<Json, NoMemory>
    ensures { IfOk result (λ it. it ≡ schema_of doc.now) }
{
    let kinds = kind_fields(alloc, doc)?;
    let names = listed(alloc, &kinds)?;
    let mut parts = room(alloc, 2)?;
    add_field(&mut parts, alloc, "$k", Json::Array(names))?;
    add_field(
        &mut parts,
        alloc,
        "p",
        Json::Object(Fields::of(alloc, kinds)?),
    )?;
    Ok(Json::Object(Fields::from_list(parts)))
}

/// The fields in order, each with what it is.
#[cycle(kind)]
fn kind_fields(alloc: Global, doc: &Document) -> Result<List<Pair<Json>>, NoMemory>
    ensures { IfOk result (λ it. it ≡ each kind_of doc.now) }
{
    let mut fields = room(alloc, doc.len())?;
    for pair in doc.as_slice() {
        let name = pair.name.copy(alloc)?;
        let value = kind(alloc, &pair.value)?;
        fields.add(Pair { name, value })?;
    }
    Ok(fields)
}

/// The names of fields, in order.
fn listed(alloc: Global, fields: &List<Pair<Json>>) -> Result<List<Json>, NoMemory>
    ensures { IfOk result (λ it. it ≡ map Json.Text (names fields.now)) }
{
    let mut listed = room(alloc, fields.len())?;
    for pair in fields.as_slice() {
        let name = pair.name.copy(alloc)?;
        listed.add(Json::Text(name))?;
    }
    Ok(listed)
}
