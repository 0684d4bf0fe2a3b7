ghost use Rattle.std.specs.Prelude.{◌≡◌};
ghost use Rattle.filter_syntax.specs.Operands.{each};
ghost use Rattle.command_words.specs.Meaning.{update_of, delete_of, change_in};
ghost use Rattle.command_words.specs.Told.{Gives};

use crate::operands::{filter_in, truth_or, update_in};
use crate::refused::CommandRefused;
use bson_values::{Document, List, Space};
use doc_model::{Modify, Op};
use std::alloc::Global;

/// The operation that an item of an update is.
fn update_of(alloc: Global, space: &Space, item: &Document) -> Result<Op, CommandRefused>
    ensures { Gives result (update_of space.now item.now) }
{
    let space = space.copy(alloc)?;
    let filter = filter_in(alloc, item, "q")?;
    let multi = truth_or(false, item, "multi");
    match update_in(alloc, multi, item, "u") {
        Ok(update) => Ok(Op::Update {
            space,
            filter,
            update,
            multi,
            upsert: truth_or(false, item, "upsert"),
        }),
        Err(why) => {
            drop(filter);
            Err(why)
        }
    }
}

/// The operation that an item of a delete is.
fn delete_of(alloc: Global, space: &Space, item: &Document) -> Result<Op, CommandRefused>
    ensures { Gives result (delete_of space.now item.now) }
{
    let space = space.copy(alloc)?;
    let filter = filter_in(alloc, item, "q")?;
    let one = truth_or(false, item, "limit");
    Ok(Op::Delete { space, filter, one })
}

/// The operations that the items of an update are.
#[tactic(auto, using(update_syntax::proofs::Same::map_same))]
pub(crate) fn updates_of(
    alloc: Global,
    space: &Space,
    items: &[Document],
) -> Result<List<Op>, CommandRefused>
    ensures { Gives result (each (update_of space.now) items.now) }
{
    let mut ops = List::new(alloc);
    for item in items {
        let op = update_of(alloc, space, item)?;
        ops.add(op)?;
    }
    Ok(ops)
}

/// The operations that the items of a delete are.
#[tactic(auto, using(update_syntax::proofs::Same::map_same))]
pub(crate) fn deletes_of(
    alloc: Global,
    space: &Space,
    items: &[Document],
) -> Result<List<Op>, CommandRefused>
    ensures { Gives result (each (delete_of space.now) items.now) }
{
    let mut ops = List::new(alloc);
    for item in items {
        let op = delete_of(alloc, space, item)?;
        ops.add(op)?;
    }
    Ok(ops)
}

/// What a findAndModify does to the document that it finds.
pub(crate) fn change_in(alloc: Global, body: &Document) -> Result<Modify, CommandRefused>
    ensures { Gives result (change_in body.now) }
{
    if truth_or(false, body, "remove") {
        return Ok(Modify::Remove);
    }
    let update = update_in(alloc, false, body, "update")?;
    Ok(Modify::Change(update))
}
