ghost use Rattle.std.specs.Prelude.{◌≡◌, length};
ghost use Rattle.cursor_core.specs.Held.{no_cursors};
ghost use Rattle.cursor_core.specs.Sound.{Sound};

use crate::asked::Asked;
use crate::call::{CursorCall, CursorReply};
use crate::live::LiveCursors;
use crate::state::CursorsState;
use history_lock::Object;
use std::alloc::Global;
use std::marker::Model;

/// Cursors, which give what they were started with in batches. One that nobody asked for ten minutes goes.
#[derive(Drop)]
pub struct Cursors {
    live: LiveCursors,
}

impl Model for Cursors {
    ghost use Rattle.cursor_core.specs.Held.{Cursors as Shown};
    ghost use Rattle.cursor_core.specs.Ran.{state_of};
    ghost use Rattle.cursor_core.specs.Sound.{Sound as IsSound};

    ghost Value = { Shown };

    ghost view = { λ it. state_of it.live };

    ghost invariant = { λ it. IsSound (state_of it.live) };
}

impl Cursors {
    /// No cursors. Each takes memory by this allocator once it is started.
    pub fn new(alloc: Global) -> Cursors
        ensures { result ≡ no_cursors }
    {
        Cursors {
            live: LiveCursors {
                held: Asked::new(),
                next: 1,
                latest: 0,
                alloc,
            },
        }
    }

    /// How many cursors are held.
    pub fn len(&self) -> usize
        ensures len { result ≡ length self.now.held }
        // What is true of all cursors, told to whoever has them.
        ensures sound { Sound self.now }
    {
        self.live.held.len()
    }
}

impl Object for Cursors {
    type Call = CursorCall;

    type Reply = CursorReply;

    type State = CursorsState;

    ghost use Rattle.cursor_core.specs.Sound.{accepted};
    ghost use Rattle.cursor_core.specs.Step.{cstep, cursors_after};

    ghost state = { λ it. it };

    ghost faults = { λ it. 0 };

    ghost accepts = { accepted };

    ghost allows = { cstep };

    ghost next = { cursors_after };

    ghost only_accepted = { λ s call reply before after step. step.may };

    fn run(&mut self, call: CursorCall) -> CursorReply {
        self.live.run(call)
    }
}
