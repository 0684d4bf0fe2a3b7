ghost use Rattle.std.specs.Prelude.{◌≡◌, length, IfOk};
ghost use Rattle.history_lock.specs.Places.{Each};
ghost use Rattle.cursor_core.specs.Sound.{IsItem, accepted};

use bson_values::{Bytes, List, NoMemory, Space, Text};
use cursor_core::{CursorCall, CursorReply, Mark};
use std::alloc::Global;

/// What a row asks. The moment is first.
#[derive(Clone, Copy)]
pub enum Ask {
    /// Of so many items of so many bytes, in the space `t.c`; each byte of an item is its number.
    Start(u64, u8, usize),
    /// The id, the collection, and how many items at most.
    More(u64, u64, &'static str, u64),
    Kill(u64, [u64; 2]),
    Count(u64),
}

/// What it is replied. Of a batch: the number of its first item, how many there are, and the id.
#[derive(Clone, Copy, PartialEq)]
pub enum Told {
    Started(u64),
    TooMany,
    Batch(Option<u8>, usize, u64),
    NotFound,
    OtherSpace,
    Killed(bool, bool),
    Counted(u64),
    NoMemory,
}

fn item(alloc: Global, number: u8, len: usize) -> Result<Bytes, NoMemory>
    ensures { IfOk result (λ bytes. length bytes ≡ len) }
{
    Ok(Bytes::from_vec(vec![in alloc; number; len]?))
}

/// So many items of so many bytes, where an item may have so many.
fn items(alloc: Global, count: u8, len: usize) -> Result<List<Bytes>, NoMemory>
    ensures { IfOk result (λ items. Each IsItem items) }
{
    let mut items = List::new(alloc);
    if (5..=16_777_216).contains(&len) {
        for number in 0..count {
            items.add(item(alloc, number, len)?)?;
        }
    }
    Ok(items)
}

fn space(alloc: Global, coll: &str) -> Result<Space, NoMemory> {
    let db = Text::of(alloc, "t")?;
    let coll = Text::of(alloc, coll)?;
    Ok(Space { db, coll })
}

fn start(alloc: Global, now: u64, count: u8, len: usize) -> Result<CursorCall, NoMemory>
    ensures { IfOk result accepted }
{
    let space = space(alloc, "c")?;
    let rest = items(alloc, count, len)?;
    Ok(CursorCall::Start { now, space, rest })
}

fn more(alloc: Global, now: u64, id: u64, coll: &str, most: u64) -> Result<CursorCall, NoMemory>
    ensures { IfOk result accepted }
{
    let space = space(alloc, coll)?;
    Ok(CursorCall::More {
        now,
        id,
        space,
        most,
    })
}

fn kill(alloc: Global, now: u64, ids: [u64; 2]) -> Result<CursorCall, NoMemory>
    ensures { IfOk result accepted }
{
    let [one, two] = ids;
    let one = Mark {
        id: one,
        was: false,
    };
    let two = Mark {
        id: two,
        was: false,
    };
    let marks = List::from_vec(vec![in alloc; one, two]?);
    Ok(CursorCall::Kill { now, marks })
}

/// The call of a row.
pub fn call_of(alloc: Global, ask: &Ask) -> Result<CursorCall, NoMemory>
    ensures { IfOk result accepted }
{
    match ask {
        Ask::Start(now, count, len) => start(alloc, *now, *count, *len),
        Ask::More(now, id, coll, most) => more(alloc, *now, *id, coll, *most),
        Ask::Kill(now, ids) => kill(alloc, *now, *ids),
        Ask::Count(now) => Ok(CursorCall::Count { now: *now }),
    }
}

fn first_number(items: &List<Bytes>) -> Option<u8> {
    let item = items.get(0)?;
    item.as_slice().first().copied()
}

/// Of two marks.
fn were(marks: &List<Mark>) -> Told {
    match marks.as_slice() {
        [one, two] => Told::Killed(one.was, two.was),
        _ => Told::NoMemory,
    }
}

pub fn summary(reply: &CursorReply) -> Told {
    match reply {
        CursorReply::Started(id) => Told::Started(*id),
        CursorReply::TooMany => Told::TooMany,
        CursorReply::Batch { items, id } => Told::Batch(first_number(items), items.len(), *id),
        CursorReply::NotFound => Told::NotFound,
        CursorReply::OtherSpace => Told::OtherSpace,
        CursorReply::Killed(marks) => were(marks),
        CursorReply::Counted(count) => Told::Counted(*count),
        CursorReply::NoMemory => Told::NoMemory,
    }
}
