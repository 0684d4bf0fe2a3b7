ghost use Rattle.std.specs.Prelude.{◌≡◌, ◌++◌, ◌∷◌, [], OnOk};
ghost use Rattle.reply_words.specs.Replies.{number};

use bson_values::{Document, NoMemory, Text, Value};
use std::alloc::Global;

/// Adds a field last.
pub(crate) fn add(
    alloc: Global,
    doc: &mut Document,
    name: &str,
    value: Value,
) -> Result<(), NoMemory>
    ensures { OnOk result (doc.new ≡ doc.old ++ (record { name = name.now; value = value }) ∷ []) }
{
    let name = Text::of(alloc, name)?;
    match doc.push(name, value) {
        Ok(()) => Ok(()),
        Err(_) => Err(NoMemory),
    }
}

/// Adds a field with a text last.
pub(crate) fn add_text(
    alloc: Global,
    doc: &mut Document,
    name: &str,
    text: &str,
) -> Result<(), NoMemory>
    ensures { OnOk result (doc.new ≡ doc.old ++ (record { name = name.now; value = Value.Str text.now }) ∷ []) }
{
    let text = Text::of(alloc, text)?;
    add(alloc, doc, name, Value::Str(text))
}

/// A count as a value.
pub(crate) fn number(n: u64) -> Value
    ensures { result ≡ number n }
{
    if n < 1 << 31 {
        Value::Int(n as i32)
    } else {
        Value::Long(n.min(i64::MAX as u64) as i64)
    }
}
