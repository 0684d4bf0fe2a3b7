ghost use Rattle.std.specs.Prelude.{◌≡◌, Ok, IfErr, IfOk};
ghost use Rattle.doc_paths.specs.Changes.{taken};
ghost use Rattle.update_apply.specs.Answers.{Changes, Fails, Gives};
ghost use Rattle.update_syntax.specs.After.{after, all_stepped, made, stepped};

use crate::arrays::{add_to_set, pop, pull, pull_all, push};
use crate::fields::rename;
use crate::ids::{refused, replaced};
use crate::moments::moment_value;
use crate::numbers::{combine_bits, increase, multiply};
use crate::putting::{set, set_copy, set_greatest, set_least};
use crate::refused::ApplyRefused;
use bson_values::{Document, NoMemory};
use doc_paths::{Path, take};
use std::alloc::Global;
use update_syntax::{Step, Update};

fn remove(doc: &mut Document, path: &Path) -> Result<(), ApplyRefused>
    ensures { Changes result (Ok (taken path.now doc.old)) doc.new }
{
    match take(doc, path) {
        Ok(_) => Ok(()),
        Err(NoMemory) => Err(ApplyRefused::NoMemory),
    }
}

fn apply_step(
    alloc: Global,
    doc: &mut Document,
    step: &Step,
    now: u64,
    inserting: bool,
) -> Result<(), ApplyRefused>
    ensures { Changes result (stepped now inserting step.now doc.old) doc.new }
{
    match step {
        Step::Set(path, it) => set_copy(alloc, doc, path, it),
        Step::SetOnInsert(path, it) => {
            if inserting {
                set_copy(alloc, doc, path, it)
            } else {
                Ok(())
            }
        }
        Step::Unset(path) => remove(doc, path),
        Step::Inc(path, number) => increase(alloc, doc, path, *number),
        Step::Mul(path, number) => multiply(alloc, doc, path, *number),
        Step::Min(path, it) => set_least(alloc, doc, path, it),
        Step::Max(path, it) => set_greatest(alloc, doc, path, it),
        Step::Rename(from, to) => rename(alloc, doc, from, to),
        Step::Push(path, items) => push(alloc, doc, path, items.as_slice()),
        Step::AddToSet(path, items) => add_to_set(alloc, doc, path, items.as_slice()),
        Step::Pop { path, last } => pop(alloc, doc, path, *last),
        Step::Pull(path, it) => pull(alloc, doc, path, it),
        Step::PullAll(path, items) => pull_all(alloc, doc, path, items.as_slice()),
        Step::CurrentDate { path, date } => set(alloc, doc, path, moment_value(*date, now)),
        Step::Bit(path, kind, number) => combine_bits(alloc, doc, path, *kind, *number),
    }
}

/// The document is copied once, and the copy is changed.
fn apply_steps(
    alloc: Global,
    steps: &[Step],
    doc: &Document,
    now: u64,
    inserting: bool,
) -> Result<Document, ApplyRefused>
    ensures { Gives result (all_stepped now inserting steps.now doc.now) }
{
    let mut made = doc.copy(alloc)?;
    for step in steps {
        apply_step(alloc, &mut made, step, now, inserting)?;
    }
    Ok(made)
}

fn make(
    alloc: Global,
    update: &Update,
    doc: &Document,
    now: u64,
    inserting: bool,
) -> Result<Document, ApplyRefused>
    ensures { Gives result (made update.now now inserting doc.now) }
{
    match update {
        Update::Replace(new) => replaced(alloc, new, doc),
        Update::Steps(steps) => apply_steps(alloc, steps.as_slice(), doc, now, inserting),
    }
}

/// What an update makes of a document, at a moment in milliseconds since 1970-01-01 00:00 UTC. `inserting` tells that the document is none
/// of the store, but one that an upsert is to insert: its `_id` is looked at, and not whether it may be stored.
pub fn apply(
    alloc: Global,
    update: &Update,
    doc: &Document,
    now: u64,
    inserting: bool,
) -> Result<Document, ApplyRefused>
    ensures ok { IfOk result (λ made. after update.now doc.now now inserting ≡ Ok made) }
    ensures refused { IfErr result (λ why. Fails why (after update.now doc.now now inserting)) }
{
    let made = make(alloc, update, doc, now, inserting)?;
    match refused(inserting, doc, &made) {
        Some(kind) => Err(ApplyRefused::Refused(kind)),
        None => Ok(made),
    }
}
