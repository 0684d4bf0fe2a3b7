ghost use Rattle.std.specs.Prelude.{◌≡◌, ◌%◌, ◌^◌, length};

use crate::object::Object;
use crate::seat::Place;
use std::marker::Model;
use std::snapshot::Snapshot;

/// What a history leaves: its object, and what was done to it.
#[derive(Drop)]
pub struct Closed<O: Object> {
    pub object: O,
    pub past: Past<O>,
}

/// A whole history. Clauses see its entries, and the places that its seats made of them.
#[derive(Drop)]
pub struct Past<O: Object> {
    pub(crate) count: u64,
    pub(crate) last: Snapshot<Place<O>>,
}

impl<O: Object> Model for Past<O> {
    ghost use Rattle.std.specs.Prelude.{◌≡◌, ◌%◌, ◌^◌, length};
    ghost use Rattle.history_lock.specs.declared.view.View.{View};

    ghost Value = { View O.Call O.Reply };

    ghost view = { λ p. p.last.value.me.0.at };

    ghost invariant = { λ p. p.count ≡ length p.last.value.me.0.at.seen % 2 ^ 64 };
}

impl<O: Object> Past<O> {
    /// The number of calls, modulo 2^64.
    pub fn len(&self) -> u64
        ensures { result ≡ length self.now.seen % 2 ^ 64 }
    {
        self.count
    }
}
