ghost use Rattle.std.specs.Prelude.{◌≡◌, ◌-◌, ◌^◌, length, map, min};
ghost use Rattle.std.specs.List.{flat_map};
ghost use Rattle.bson_spelling.specs.Spelling.{int, width, held, items_from, element, enclosed};

use crate::form::Form;
use bson_values::{Document, List, Value};
use itoa::Buffer;

/// How many bytes a length takes.
fn length_len(form: Form) -> u64
    ensures { result ≡ width form }
{
    match form {
        Form::Bson => 4,
        Form::Key => 8,
    }
}

/// The bytes of a value behind its name, or `u64::MAX` where they are more. It takes no memory.
#[tactic(auto, using(crate::proofs::Helds::held_is, crate::proofs::Sizes::lengths))]
#[cycle(counting)]
pub fn content_len(form: Form, value: &Value) -> u64
    ensures { result ≡ min (length (held form value.now).1) (2 ^ 64 - 1) }
{
    match value {
        Value::Str(text) => (text.len() as u64).saturating_add(length_len(form) + 1),
        Value::Doc(document) => document_len(form, document),
        Value::Arr(items) => array_len(form, items),
        Value::Bin(binary) => (binary.bytes.len() as u64).saturating_add(length_len(form) + 1),
        Value::Id(id) => id.as_slice().len() as u64,
        Value::Bool(_) => 1,
        Value::Date(_) => 8,
        Value::Null => 0,
        Value::Regex(regex) => (regex.pattern.len() as u64)
            .saturating_add(regex.options.len() as u64)
            .saturating_add(2),
        Value::Int(_) => match form {
            Form::Bson => 4,
            Form::Key => 8,
        },
        Value::Stamp(_) => 8,
        Value::Long(_) => 8,
    }
}

#[tactic(auto, using(crate::proofs::Sizes::lengths))]
#[cycle(counting)]
fn document_len(form: Form, document: &Document) -> u64
    ensures { result ≡ min (length (enclosed form (flat_map (element form) document.now))) (2 ^ 64 - 1) }
{
    let mut total = length_len(form) + 1;
    for pair in document.as_slice() {
        let named = content_len(form, &pair.value).saturating_add(pair.name.len() as u64);
        total = total.saturating_add(named).saturating_add(2);
    }
    total
}

#[tactic(auto, using(crate::proofs::Sizes::lengths))]
#[cycle(counting)]
fn array_len(form: Form, items: &List<Value>) -> u64
    ensures { result ≡ min (length (enclosed form (items_from 0 (map (held form) items.now)))) (2 ^ 64 - 1) }
{
    let mut total = length_len(form) + 1;
    let mut place = 0u64;
    for item in items.as_slice() {
        let mut buffer = Buffer::new();
        let named = content_len(form, item).saturating_add(buffer.format(place).len() as u64);
        total = total.saturating_add(named).saturating_add(2);
        place += 1;
    }
    total
}
