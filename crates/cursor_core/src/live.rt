ghost use Rattle.std.specs.Prelude.{◌≡◌, ◌||◌, length, nat_le};
ghost use Rattle.cursor_core.specs.Held.{LAST_ID as last, MOST_CURSORS as most_held, kept, of_id};
ghost use Rattle.cursor_core.specs.Ran.{Called, Ran, state_of};
ghost use Rattle.cursor_core.specs.Sound.{Falls, Sound};
ghost use Rattle.cursor_core.specs.Step.{awake, fetches, kills, marked, meant, moment, outlive, starts};

use crate::asked::{Asked, Held};
use crate::call::{CursorCall, CursorReply, Mark};
use crate::rest::Rest;
use bson_values::{Bytes, List, NoMemory, Space};
use std::alloc::Global;

/// The most cursors that may be held.
const MOST_CURSORS: usize = 65_536;

/// The id that is not given any more: 2^63 - 1.
const LAST_ID: u64 = 0x7fff_ffff_ffff_ffff;

/// After so many milliseconds a cursor that nobody asked for goes.
const IDLE: u64 = 600_000;

/// The cursors in memory, the id that is given next, and the greatest moment of all calls.
#[derive(Drop)]
pub struct LiveCursors {
    pub held: Asked,
    pub next: u64,
    pub latest: u64,
    pub alloc: Global,
}

/// Drops the cursors that are idle at the latest moment. They are the last ones.
fn drop_idle(held: &mut Asked, latest: u64)
    requires { Falls latest held.old }
    ensures { held.new ≡ kept latest held.old }
{
    while let Some(last) = held.oldest() {
        if latest.saturating_sub(last) < IDLE {
            return;
        }
        held.drop_oldest();
    }
}

/// Drops the cursor of each mark in turn, and lets the mark say whether it was held.
fn mark_all(held: &mut Asked, marks: &mut List<Mark>)
    ensures marks { marks.new ≡ marked marks.old held.old }
    ensures held { held.new ≡ outlive marks.old held.old }
{
    let mut place = 0;
    while place < marks.len() {
        let id = marks.as_slice()[place].id;
        let was = held.forget(id);
        marks.replace(place, Mark { id, was });
        place += 1;
    }
}

impl LiveCursors {
    /// Raises the greatest moment, and drops the cursors that are idle then.
    fn awake(&mut self, now: u64)
        requires { Sound (state_of self.old) }
        ensures { state_of self.new ≡ awake now (state_of self.old) }
    {
        self.latest = now.max(self.latest);
        drop_idle(&mut self.held, self.latest);
    }

    fn is_full(&self) -> bool
        ensures { result ≡ (nat_le most_held (length self.now.held) || nat_le last self.now.next) }
    {
        MOST_CURSORS <= self.held.len() || LAST_ID <= self.next
    }

    fn start(&mut self, space: Space, rest: List<Bytes>) -> CursorReply
        requires { Sound (state_of self.old) }
        ensures { Ran (starts space rest (state_of self.old)) (state_of self.old) (state_of self.new) result }
    {
        if self.is_full() {
            return CursorReply::TooMany;
        }
        let id = self.next;
        let held = Held {
            space,
            rest: Rest::of(rest),
            last: self.latest,
        };
        match self.held.add(self.alloc, id, held) {
            Ok(()) => {
                self.next = id + 1;
                CursorReply::Started(id)
            }
            Err(NoMemory) => CursorReply::NoMemory,
        }
    }

    fn more(&mut self, id: u64, space: &Space, most: u64) -> CursorReply
        ensures { Ran (fetches space.now most (state_of self.old) (of_id id self.old.held)) (state_of self.old) (state_of self.new) result }
    {
        let Some(held) = self.held.get(id) else {
            return CursorReply::NotFound;
        };
        if !space.is(&held.space) {
            return CursorReply::OtherSpace;
        }
        let count = held.rest.cut(most);
        if held.rest.len() <= count {
            return CursorReply::Batch {
                items: self.held.finish(id),
                id: 0,
            };
        }
        match self.held.give(self.alloc, id, count, self.latest) {
            Ok(items) => CursorReply::Batch { items, id },
            Err(NoMemory) => CursorReply::NoMemory,
        }
    }

    fn kill(&mut self, marks: List<Mark>) -> CursorReply
        ensures { Ran (kills marks (state_of self.old)) (state_of self.old) (state_of self.new) result }
    {
        let mut marks = marks;
        mark_all(&mut self.held, &mut marks);
        CursorReply::Killed(marks)
    }

    /// Makes a call.
    pub(crate) fn run(&mut self, asked: CursorCall) -> CursorReply
        requires { Sound (state_of self.old) }
        ensures { Called (state_of self.old) (state_of self.new) asked result }
    {
        self.awake(asked.moment());
        match asked {
            CursorCall::Start { space, rest, .. } => self.start(space, rest),
            CursorCall::More {
                id,
                space,
                most,
                ..
            } => self.more(id, &space, most),
            CursorCall::Kill { marks, .. } => self.kill(marks),
            CursorCall::Count { .. } => CursorReply::Counted(self.held.len() as u64),
        }
    }
}
