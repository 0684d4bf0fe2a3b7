ghost use Rattle.std.specs.Prelude.{◌≡◌, true, pos, length, IfOk, OnOk};
ghost use Rattle.typed_json.specs.Plain.{base64_text, each, hex_text, plain_of};
ghost use Rattle.typed_json.specs.Typed.{are_bytes, has_types, is_typed, is_u8};

use crate::adding::room;
use base64::engine::general_purpose::STANDARD;
use bson_values::{Binary, Document, List, NoMemory, Pair, Text, Value};
use jsonb_contain::{Fields, Json};
use std::alloc::Global;

/// Bytes are below 256 by their type.
fn bytes_fit(_bytes: &[u8])
    ensures { are_bytes _bytes.now ≡ true }
{}

/// A subtype is a byte, which is known where it is read.
fn subtype_fits(subtype: &u8)
    ensures { is_u8 (pos subtype.now) ≡ true }
{
    let _subtype = *subtype;
}

/// An ObjectId has twelve bytes by its type.
fn id_is_whole(_id: &[u8; 12])
    ensures { length _id.now ≡ 12 }
{}

#[tactic(auto, unfolding(crate::specs::Plain::base64_text))]
fn base64_text(alloc: Global, bytes: &[u8]) -> Result<Text, NoMemory>
    ensures { IfOk result (λ it. it ≡ base64_text bytes.now) }
{
    let text = STANDARD.encode(alloc, bytes)?;
    Text::from_string(alloc, text)
}

#[tactic(auto, unfolding(crate::specs::Plain::hex_text))]
fn hex_text(alloc: Global, id: &[u8]) -> Result<Text, NoMemory>
    ensures { IfOk result (λ it. it ≡ hex_text id.now) }
{
    let text = hex::encode(alloc, id)?;
    Text::from_string(alloc, text)
}

fn plain_binary(alloc: Global, binary: &Binary) -> Result<Json, NoMemory>
    ensures value { IfOk result (λ it. it ≡ plain_of (Value.Bin binary.now)) }
    ensures typed { OnOk result (is_typed (Value.Bin binary.now) ≡ true) }
{
    let bytes = binary.bytes.as_slice();
    subtype_fits(&binary.subtype);
    bytes_fit(bytes);
    Ok(Json::Text(base64_text(alloc, bytes)?))
}

fn plain_id(alloc: Global, id: &[u8; 12]) -> Result<Json, NoMemory>
    ensures value { IfOk result (λ it. it ≡ plain_of (Value.Id id.now)) }
    ensures typed { OnOk result (is_typed (Value.Id id.now) ≡ true) }
{
    let bytes = id.as_slice();
    id_is_whole(id);
    bytes_fit(bytes);
    Ok(Json::Text(hex_text(alloc, bytes)?))
}

/// The plain JSON of a value: what it holds, without the types. A document is an object of its fields, an array an array,
/// binary data a text in base64 with padding, an ObjectId a text of 24 hex digits, a regular expression its pattern;
/// a date, a timestamp and whole numbers are numbers.
#[cycle(plain)]
pub fn plain(alloc: Global, value: &Value) -> Result<Json, NoMemory>
    ensures value { IfOk result (λ it. it ≡ plain_of value.now) }
    // Each number is read, so that it is known to fit its type.
    ensures typed { OnOk result (is_typed value.now ≡ true) }
{
    match value {
        Value::Str(text) => Ok(Json::Text(text.copy(alloc)?)),
        Value::Doc(document) => plain_document(alloc, document),
        Value::Arr(items) => plain_array(alloc, items),
        Value::Bin(binary) => plain_binary(alloc, binary),
        Value::Id(id) => plain_id(alloc, id),
        Value::Bool(truth) => Ok(Json::Bool(*truth)),
        Value::Date(moment) => Ok(Json::Whole(*moment as i128)),
        Value::Null => Ok(Json::Null),
        Value::Regex(regex) => Ok(Json::Text(regex.pattern.copy(alloc)?)),
        Value::Int(number) => Ok(Json::Whole(*number as i128)),
        Value::Stamp(stamp) => Ok(Json::Whole(*stamp as i128)),
        Value::Long(number) => Ok(Json::Whole(*number as i128)),
    }
}

#[tactic(auto, using(crate::proofs::Shows::plain_Arr))]
#[cycle(plain)]
fn plain_array(alloc: Global, items: &List<Value>) -> Result<Json, NoMemory>
    ensures value { IfOk result (λ it. it ≡ plain_of (Value.Arr items.now)) }
    ensures typed { OnOk result (is_typed (Value.Arr items.now) ≡ true) }
{
    let mut plains = room(alloc, items.len())?;
    for item in items.as_slice() {
        let plain = plain(alloc, item)?;
        plains.add(plain)?;
    }
    Ok(Json::Array(plains))
}

#[tactic(auto, using(crate::proofs::Shows::plain_Doc))]
#[cycle(plain)]
fn plain_document(alloc: Global, doc: &Document) -> Result<Json, NoMemory>
    ensures value { IfOk result (λ it. it ≡ plain_of (Value.Doc doc.now)) }
    ensures typed { OnOk result (has_types doc.now ≡ true) }
{
    let fields = plain_fields(alloc, doc, doc.len())?;
    let fields = Fields::of(alloc, fields)?;
    Ok(Json::Object(fields))
}

/// The fields in order, each with its plain JSON, in a list that has room for so many.
#[cycle(plain)]
pub(crate) fn plain_fields(
    alloc: Global,
    doc: &Document,
    many: usize,
) -> Result<List<Pair<Json>>, NoMemory>
    ensures value { IfOk result (λ it. it ≡ each plain_of doc.now) }
    ensures typed { OnOk result (has_types doc.now ≡ true) }
{
    let mut fields = room(alloc, many)?;
    for pair in doc.as_slice() {
        let name = pair.name.copy(alloc)?;
        let value = plain(alloc, &pair.value)?;
        fields.add(Pair { name, value })?;
    }
    Ok(fields)
}
