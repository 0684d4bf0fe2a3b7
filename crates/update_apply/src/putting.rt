ghost use Rattle.std.specs.Prelude.{◌≡◌};
ghost use Rattle.std.specs.Option.{option_copied};
ghost use Rattle.update_apply.specs.Answers.{Changes};
ghost use Rattle.update_syntax.specs.After.{greatest, is_higher, is_lower, least, set};

use crate::refused::ApplyRefused;
use bson_order::compare;
use bson_values::{Document, NoMemory, Value};
use case_tables::{BAD_OPERAND, PATH_NOT_VIABLE};
use doc_paths::{Path, PutRefused, peek, put};
use std::alloc::Global;
use std::cmp::Ordering;

/// `$set`.
#[tactic(auto, unfolding(update_syntax::specs::After::set))]
pub(crate) fn set(
    alloc: Global,
    doc: &mut Document,
    path: &Path,
    it: Value,
) -> Result<(), ApplyRefused>
    ensures { Changes result (set path.now it doc.old) doc.new }
{
    match put(alloc, doc, path, it) {
        Ok(()) => Ok(()),
        Err(PutRefused::NotViable) => Err(ApplyRefused::Refused(PATH_NOT_VIABLE)),
        Err(PutRefused::TooFar) => Err(ApplyRefused::Refused(BAD_OPERAND)),
        Err(PutRefused::NoMemory) => Err(ApplyRefused::NoMemory),
    }
}

/// The same of a value that stays.
pub(crate) fn set_copy(
    alloc: Global,
    doc: &mut Document,
    path: &Path,
    it: &Value,
) -> Result<(), ApplyRefused>
    ensures { Changes result (set path.now it.now doc.old) doc.new }
{
    match it.copy(alloc) {
        Ok(it) => set(alloc, doc, path, it),
        Err(NoMemory) => Err(ApplyRefused::NoMemory),
    }
}

fn is_lower(it: &Value, there: Option<&Value>) -> bool
    ensures { result ≡ is_lower it.now (option_copied there.entry) }
{
    match there {
        None => true,
        Some(there) => compare(it, there) == Ordering::Less,
    }
}

fn is_higher(it: &Value, there: Option<&Value>) -> bool
    ensures { result ≡ is_higher it.now (option_copied there.entry) }
{
    match there {
        None => true,
        Some(there) => compare(it, there) == Ordering::Greater,
    }
}

/// `$min`.
#[tactic(auto, unfolding(update_syntax::specs::After::least))]
pub(crate) fn set_least(
    alloc: Global,
    doc: &mut Document,
    path: &Path,
    it: &Value,
) -> Result<(), ApplyRefused>
    ensures { Changes result (least path.now it.now doc.old) doc.new }
{
    if is_lower(it, peek(doc, path)) {
        set_copy(alloc, doc, path, it)
    } else {
        Ok(())
    }
}

/// `$max`.
#[tactic(auto, unfolding(update_syntax::specs::After::greatest))]
pub(crate) fn set_greatest(
    alloc: Global,
    doc: &mut Document,
    path: &Path,
    it: &Value,
) -> Result<(), ApplyRefused>
    ensures { Changes result (greatest path.now it.now doc.old) doc.new }
{
    if is_higher(it, peek(doc, path)) {
        set_copy(alloc, doc, path, it)
    } else {
        Ok(())
    }
}
