ghost use Rattle.std.specs.Prelude.{◌≡◌};
ghost use Rattle.std.specs.Option.{option_copied};
ghost use Rattle.doc_paths.specs.Changes.{peeked, behind};
ghost use Rattle.bson_values.specs.declared.value.Value.TheVariants as value;

use crate::items::item_at;
use crate::path::Path;
use bson_values::{Document, Text, Value};

fn peek_in<'a>(value: Option<&'a Value>, parts: &[Text]) -> Option<&'a Value>
    ensures { option_copied result ≡ behind (peeked parts.now) (option_copied value.entry) }
{
    let mut found = value;
    for part in parts {
        found = match found {
            Some(Value::Doc(document)) => document.get(part.as_str()),
            Some(Value::Arr(items)) => item_at(items, part.as_str()),
            _ => return None,
        };
    }
    found
}

/// What stands at a path, which goes through fields, and through arrays by places, and takes no memory.
pub fn peek<'a>(doc: &'a Document, path: &Path) -> Option<&'a Value>
    ensures { option_copied result ≡ peeked path.now (value.Doc doc.now) }
{
    match path.parts() {
        [first, rest @ ..] => peek_in(doc.get(first.as_str()), rest),
        [] => None,
    }
}
