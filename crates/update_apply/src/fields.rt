ghost use Rattle.std.specs.Prelude.{◌≡◌};
ghost use Rattle.std.specs.Option.{option_copied};
ghost use Rattle.update_apply.specs.Answers.{Changes};
ghost use Rattle.update_syntax.specs.After.{crossed, crosses, rename};

use crate::putting::set;
use crate::refused::ApplyRefused;
use bson_values::{Document, NoMemory, Text, Value};
use case_tables::WRONG_OPERAND_TYPE;
use doc_paths::{Path, peek, take};
use std::alloc::Global;

fn is_crossed(value: Option<&Value>, parts: &[Text]) -> bool
    ensures { result ≡ crossed parts.now (option_copied value.entry) }
{
    let mut found = value;
    for part in parts {
        found = match found {
            Some(Value::Doc(document)) => document.get(part.as_str()),
            Some(Value::Arr(_)) => return true,
            _ => return false,
        };
    }
    false
}

/// Whether an array stands on the way.
fn crosses(path: &Path, doc: &Document) -> bool
    ensures { result ≡ crosses path.now doc.now }
{
    match path.parts() {
        [first, rest @ ..] => is_crossed(doc.get(first.as_str()), rest),
        [] => false,
    }
}

/// `$rename`.
#[tactic(auto, unfolding(update_syntax::specs::After::rename))]
pub(crate) fn rename(
    alloc: Global,
    doc: &mut Document,
    from: &Path,
    to: &Path,
) -> Result<(), ApplyRefused>
    ensures { Changes result (rename from.now to.now doc.old) doc.new }
{
    if peek(doc, from).is_none() {
        return Ok(());
    }
    if crosses(from, doc) {
        return Err(ApplyRefused::Refused(WRONG_OPERAND_TYPE));
    }
    if crosses(to, doc) {
        return Err(ApplyRefused::Refused(WRONG_OPERAND_TYPE));
    }
    match take(doc, from) {
        Ok(Some(it)) => set(alloc, doc, to, it),
        Ok(None) => Ok(()),
        Err(NoMemory) => Err(ApplyRefused::NoMemory),
    }
}
