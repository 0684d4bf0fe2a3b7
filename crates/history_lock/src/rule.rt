// What the table's slot holds, what its seats know, and the rule that holds between any two steps.
use crate::entry::{Entry, Who};
use crate::object::Object;
use crate::view::View;
use atomic_table::{Join, Play, Split, TableRule};
use std::collections::LinkedList;
use std::snapshot::Snapshot;

/// What a history began with, as it is told to the table.
#[derive(Drop)]
pub struct Start<O> {
    pub object: Snapshot<O>,
    pub parts: u64,
}

/// The same, as clauses see it. No value of it is made.
#[derive(Drop)]
pub struct Origin<S> {
    pub opening: S,
    pub first: u64,
    pub parts: u64,
}

/// A call that was made, for the step that logs it.
#[derive(Drop)]
pub struct Note<O, C, R> {
    pub who: Who,
    pub call: Snapshot<C>,
    pub reply: Snapshot<R>,
    pub before: Snapshot<O>,
    pub after: Snapshot<O>,
}

/// What the slot holds.
#[derive(Drop)]
pub enum Held<O, C, R> {
    Here(O),
    /// The seat whose turn it is has the object.
    Taken,
    /// The same, after a call.
    Made(Note<O, C, R>),
}

/// Where a seat stands in the queue of tickets.
pub enum Stage {
    Free,
    /// It drew this ticket.
    Waits(u64),
    /// It drew this ticket, and knows that it is served.
    Serves(u64),
}

/// What a seat knows. No value of it is made.
pub struct Known<S, C, R> {
    /// None for a seat that was joined.
    pub origin: Option<Origin<S>>,
    pub parts: u64,
    /// How many parts the next split moves.
    pub offer: u64,
    pub stage: Stage,
    pub at: View<C, R>,
    /// The shorter list of two seats that were joined, until the next step.
    pub told: LinkedList<Entry<C, R>>,
}

/// The rule.
pub struct Law;

impl<O: Object> TableRule<Held<O, O::Call, O::Reply>, Known<O::State, O::Call, O::Reply>, Start<O>>
    for Law {
    ghost use Rattle.history_lock.specs.Rule.{Kept, meaning, origin_of};
    ghost use Rattle.history_lock.specs.Steps.{newly};

    ghost holds = { λ start. Kept (meaning O.state O.faults O.allows O.next) (origin_of O.state O.faults start) };

    ghost first = { λ start. newly (origin_of O.state O.faults start) };
}

/// Draws a ticket.
pub struct Draw;

impl<O, S, C, R> Play<Held<O, C, R>, Known<S, C, R>> for Draw {
    ghost use Rattle.history_lock.specs.Steps.{draws};

    ghost then = { draws };
}

/// Looks whether the ticket is served, and takes the slot if it is.
pub struct Look;

impl<O: Object> Play<Held<O, O::Call, O::Reply>, Known<O::State, O::Call, O::Reply>> for Look {
    ghost use Rattle.history_lock.specs.Rule.{meaning};
    ghost use Rattle.history_lock.specs.Steps.{looks};

    ghost then = { looks (meaning O.state O.faults O.allows O.next) };
}

/// Logs the call of the slot's note.
pub struct Log;

impl<O: Object> Play<Held<O, O::Call, O::Reply>, Known<O::State, O::Call, O::Reply>> for Log {
    ghost use Rattle.history_lock.specs.Steps.{logs};

    ghost then = { logs O.faults };
}

/// Gives the slot back, and serves the next ticket.
pub struct Pass;

impl<O, S, C, R> Play<Held<O, C, R>, Known<S, C, R>> for Pass {
    ghost use Rattle.history_lock.specs.Steps.{passes};

    ghost then = { passes };
}

/// Sets how many parts the next split moves: a view changes at a step alone, and a split has no number.
pub struct Offer;

impl<O, S, C, R> Play<Held<O, C, R>, Known<S, C, R>> for Offer {
    ghost use Rattle.history_lock.specs.Steps.{offers};

    ghost then = { offers };
}

/// Moves the parts that were offered to a new seat.
pub struct Cut;

impl<S, C, R> Split<Known<S, C, R>> for Cut {
    ghost use Rattle.history_lock.specs.Steps.{staying, leaving};

    ghost left = { staying };

    ghost right = { leaving };
}

/// Makes one seat of two.
pub struct Merge;

impl<S, C, R> Join<Known<S, C, R>> for Merge {
    ghost use Rattle.history_lock.specs.Steps.{merged, spent};

    ghost both = { merged };

    ghost spent = { spent };
}

/// Learns that the shorter of the two lists begins the longer.
pub struct Learn;

impl<O, S, C, R> Play<Held<O, C, R>, Known<S, C, R>> for Learn {
    ghost use Rattle.history_lock.specs.Steps.{learns};

    ghost then = { learns };
}
