ghost use Rattle.std.specs.Prelude.{◌≡◌, ◌⊎◌, ◌+◌, ◌-◌, ◌<◌, true, false, length, IfOk, IfErr, OnOk, OnErr};
ghost use Rattle.history_lock.specs.Logged.{Joined, Logged, LoggedNext, Longer, newcomer, nothing};
ghost use Rattle.history_lock.specs.Legal.{count_after, legal, replay};
ghost use Rattle.history_lock.specs.Places.{AllPlaces};
ghost use Rattle.history_lock.specs.Seats.{Seated, moved, turn_of};

use crate::closed::{Closed, Past};
use crate::entry::Who;
use crate::object::Object;
use crate::refused::NoMemory;
use crate::rule::{Held, Start};
use crate::seat::{Seat, Turn};
use crate::steps::{
    Shelf, cut, make_call, merge, pass_turn, take_apart, take_turn, take_turn_alone,
};
use atomic_table::{Refused, Table};
use std::alloc::{AllocFailed, Global};
use std::marker::Model;
use std::snapshot::Snapshot;
use std::sync::Wait;

/// An object that threads share, and the list of all calls made on it, which is in the proofs alone.
#[derive(Drop)]
pub struct History<O: Object> {
    table: Shelf<O>,
    start: Start<O>,
}

impl<O: Object> Model for History<O> {
    ghost use Rattle.std.specs.Prelude.{◌≡◌};
    ghost use Rattle.history_lock.specs.Rule.{origin_of};
    ghost use Rattle.history_lock.specs.Seats.{Beginning};
    ghost use Rattle.history_lock.specs.Parts.{IsLock, beginning};

    ghost Value = { Beginning O.State };

    ghost view = { λ h. beginning h.table.shared.table_id (origin_of O.state O.faults h.start) };

    ghost invariant = { λ h. (h.table.shared.key ≡ h.start) × IsLock h.table.shared.table_id };
}

impl<O: Object> History<O> {
    /// A history with no call, and a seat with all of its parts. Each seat that is split off takes one at least.
    pub fn new(alloc: Global, object: O, parts: u64) -> Result<(History<O>, Seat<O>), O>
        requires { 0 < parts }
        ensures opening { IfOk result (λ made. made.0.opening ≡ O.state object) }
        ensures first { IfOk result (λ made. made.0.first ≡ O.faults object) }
        ensures parts { IfOk result (λ made. made.0.parts ≡ parts) }
        ensures seat { IfOk result (λ made. Seated made.0 parts nothing made.1) }
        ensures refused { IfErr result (λ back. back ≡ object) }
    {
        let start = Start {
            object: Snapshot::of(&object),
            parts,
        };
        let mut slots = Vec::new(alloc);
        if let Err(AllocFailed { value }) = slots.push(Held::Here(object)) {
            let Held::Here(object) = value else {
                unreachable!()
            };
            return Err(object);
        }
        match Table::new(alloc, &[0, 0, 0], slots, &start) {
            Ok((table, place)) => {
                let seat = Seat {
                    place,
                    start: Snapshot::of(&start),
                };
                Ok((History { table, start }, seat))
            }
            Err(Refused { mut slots }) => {
                let Some(Held::Here(object)) = slots.pop() else {
                    unreachable!()
                };
                Err(object)
            }
        }
    }

    /// Waits for a turn. Until it ends, no other seat logs anything.
    pub fn begin(&self, rt: &impl Wait, seat: &mut Seat<O>) -> Turn<O>
        requires history { seat.old.history ≡ self.now }
        requires free { seat.old.held ≡ false }
        ensures turn { result ≡ turn_of seat.new }
        ensures seat { seat.new ≡ moved seat.old true seat.new.at }
        ensures seen { Longer seat.old.at seat.new.at }
        ensures legal { legal O.allows O.next self.now.opening self.now.first seat.new.at.seen }
    {
        take_turn(rt, &self.table.shared, &mut seat.place);
        Turn {
            place: Snapshot::of(&seat.place),
        }
    }

    /// Makes a call in the seat's turn.
    pub fn turn_call(
        &self,
        seat: &mut Seat<O>,
        turn: &mut Turn<O>,
        who: Who,
        call: O::Call,
    ) -> O::Reply
        requires history { seat.old.history ≡ self.now }
        requires turn { (seat.old.held ≡ true) × (turn.old ≡ turn_of seat.old) }
        requires accepted { O.accepts call }
        ensures turn { turn.new ≡ turn.old }
        ensures seat { seat.new ≡ moved seat.old true seat.new.at }
        ensures logged { LoggedNext seat.old.at seat.new.at who call result }
        ensures legal { legal O.allows O.next self.now.opening self.now.first seat.new.at.seen }
    {
        make_call(&self.table.shared, &mut seat.place, &seat.start, who, call)
    }

    /// Ends the turn, so that the next seat has one.
    pub fn end(&self, seat: &mut Seat<O>, turn: Turn<O>)
        requires history { seat.old.history ≡ self.now }
        requires turn { (seat.old.held ≡ true) × (turn ≡ turn_of seat.old) }
        ensures { seat.new ≡ moved seat.old false seat.old.at }
    {
        pass_turn(&self.table.shared, &mut seat.place);
        drop(turn);
    }

    /// Makes a call in a turn of its own.
    pub fn call(&self, rt: &impl Wait, seat: &mut Seat<O>, who: Who, call: O::Call) -> O::Reply
        requires history { seat.old.history ≡ self.now }
        requires free { seat.old.held ≡ false }
        requires accepted { O.accepts call }
        ensures seat { seat.new ≡ moved seat.old false seat.new.at }
        ensures logged { Logged seat.old.at seat.new.at who call result }
        ensures legal { legal O.allows O.next self.now.opening self.now.first seat.new.at.seen }
    {
        let mut turn = self.begin(rt, seat);
        let reply = self.turn_call(seat, &mut turn, who, call);
        self.end(seat, turn);
        reply
    }

    /// Begins a turn without waiting, as a seat with all parts can: nobody else may have one.
    pub(crate) fn begin_alone(&self, seat: &mut Seat<O>) -> Turn<O>
        requires history { seat.old.history ≡ self.now }
        requires free { seat.old.held ≡ false }
        requires alone { seat.old.parts ≡ self.now.parts }
        ensures turn { result ≡ turn_of seat.new }
        ensures seat { seat.new ≡ moved seat.old true seat.old.at }
    {
        take_turn_alone(&self.table.shared, &mut seat.place);
        Turn {
            place: Snapshot::of(&seat.place),
        }
    }

    /// Moves so many parts to a new seat, which has seen as much, and has made no call.
    pub fn split(&self, seat: &mut Seat<O>, parts: u64) -> Result<Seat<O>, NoMemory>
        requires history { seat.old.history ≡ self.now }
        requires free { seat.old.held ≡ false }
        requires parts { (0 < parts) × (parts < seat.old.parts) }
        ensures kept { OnOk result (seat.new ≡ record seat.old { parts = seat.old.parts - parts }) }
        ensures split { IfOk result (Seated self.now parts (newcomer seat.old.at)) }
        ensures refused { OnErr result (seat.new ≡ seat.old) }
    {
        let place = cut(&self.table.shared, &mut seat.place, parts);
        Ok(Seat {
            place,
            start: Snapshot::of(&self.start),
        })
    }

    /// Gives a seat the parts and the calls of another one, and what either has seen.
    pub fn join(&self, seat: &mut Seat<O>, other: Seat<O>)
        requires history { (seat.old.history ≡ self.now) × (other.history ≡ self.now) }
        requires free { (seat.old.held ≡ false) × (other.held ≡ false) }
        ensures seat { seat.new ≡ record seat.old { parts = seat.old.parts + other.parts; at = seat.new.at } }
        ensures joined { Joined seat.old.at other.at seat.new.at }
        // What is seen is the longer list, and not more.
        ensures longer { (seat.new.at.seen ≡ seat.old.at.seen) ⊎ (seat.new.at.seen ≡ other.at.seen) }
        ensures legal { legal O.allows O.next self.now.opening self.now.first seat.new.at.seen }
    {
        let Seat { place, start: _ } = other;
        merge(&self.table.shared, &mut seat.place, place);
    }

    /// Ends the history, once one seat has all parts.
    pub fn close(self, seat: Seat<O>) -> Closed<O>
        requires history { seat.history ≡ self }
        requires free { seat.held ≡ false }
        requires all { seat.parts ≡ self.parts }
        ensures past { result.past ≡ seat.at }
        ensures own { AllPlaces result.past.own (length result.past.seen) }
        ensures legal { legal O.allows O.next self.opening self.first result.past.seen }
        ensures object { O.state result.object ≡ replay O.next self.opening result.past.seen }
        ensures faults { O.faults result.object ≡ count_after self.first result.past.seen }
    {
        let History { table, start } = self;
        let Seat { place, start: _ } = seat;
        let last = Snapshot::of(&place);
        let (object, count) = take_apart(table, place, &start);
        Closed {
            object,
            past: Past { count, last },
        }
    }
}
