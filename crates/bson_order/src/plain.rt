ghost use Rattle.std.specs.Prelude.{◌≡◌, ◌↔◌, All, IsTrue, length};
ghost use Rattle.bson_order.specs.Plain.{HasNoNul, IsPlain, IsPlainPair};

use bson_values::{Document, List, Regex, Value};

fn has_no_nul(text: &str) -> bool
    ensures { IsTrue result ↔ HasNoNul text.now }
{
    text.as_bytes().iter().all(|byte| *byte != 0)
}

/// An ObjectId has twelve bytes by its type.
fn id_is_whole(_id: &[u8; 12])
    ensures { length _id.now ≡ 12 }
{}

fn is_plain_regex(regex: &Regex) -> bool
    ensures { IsTrue result ↔ HasNoNul regex.now.pattern × HasNoNul regex.now.options }
{
    has_no_nul(regex.pattern.as_str()) && has_no_nul(regex.options.as_str())
}

/// Whether a key tells the value apart: no name at any depth and no text of a regex has U+0000.
#[cycle(plain)]
pub fn is_plain(value: &Value) -> bool
    ensures { IsTrue result ↔ IsPlain value.now }
{
    // A number is read, so that it is known to fit its type.
    match value {
        Value::Str(_) => true,
        Value::Doc(document) => is_plain_document(document),
        Value::Arr(items) => is_plain_array(items),
        Value::Bin(_) => true,
        Value::Id(id) => {
            id_is_whole(id);
            true
        }
        Value::Bool(_) => true,
        Value::Date(moment) => {
            let _moment = *moment;
            true
        }
        Value::Null => true,
        Value::Regex(regex) => is_plain_regex(regex),
        Value::Int(number) => {
            let _number = *number;
            true
        }
        Value::Stamp(stamp) => {
            let _stamp = *stamp;
            true
        }
        Value::Long(number) => {
            let _number = *number;
            true
        }
    }
}

#[cycle(plain)]
fn is_plain_document(document: &Document) -> bool
    ensures { IsTrue result ↔ All IsPlainPair document.now }
{
    for pair in document.as_slice() {
        if !has_no_nul(pair.name.as_str()) {
            return false;
        }
        if !is_plain(&pair.value) {
            return false;
        }
    }
    true
}

#[cycle(plain)]
fn is_plain_array(items: &List<Value>) -> bool
    ensures { IsTrue result ↔ All IsPlain items.now }
{
    for item in items.as_slice() {
        if !is_plain(item) {
            return false;
        }
    }
    true
}
