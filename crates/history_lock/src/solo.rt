ghost use Rattle.std.specs.Prelude.{◌≡◌, true, length, IfOk, IfErr};
ghost use Rattle.history_lock.specs.Logged.{LoggedNext, nothing};
ghost use Rattle.history_lock.specs.Legal.{count_after, legal, replay};
ghost use Rattle.history_lock.specs.Places.{AllPlaces};

use crate::closed::Closed;
use crate::entry::Who;
use crate::history::History;
use crate::object::Object;
use crate::seat::Seat;
use std::alloc::Global;
use std::marker::Model;

/// A history with its only seat, which never waits. Clauses see it as that seat.
#[derive(Drop)]
pub struct Solo<O: Object> {
    history: History<O>,
    seat: Seat<O>,
}

impl<O: Object> Model for Solo<O> {
    ghost use Rattle.std.specs.Prelude.{◌≡◌, false};
    ghost use Rattle.history_lock.specs.Seats.{Sitting};

    ghost Value = { Sitting O.State O.Call O.Reply };

    ghost view = { λ s. s.seat };

    ghost invariant = { λ s. (s.seat.history ≡ s.history) × (s.seat.parts ≡ s.history.parts) × (s.seat.held ≡ false) };
}

impl<O: Object> Solo<O> {
    pub fn new(alloc: Global, object: O) -> Result<Solo<O>, O>
        ensures opening { IfOk result (λ solo. solo.history.opening ≡ O.state object) }
        ensures first { IfOk result (λ solo. solo.history.first ≡ O.faults object) }
        ensures at { IfOk result (λ solo. solo.at ≡ nothing) }
        ensures refused { IfErr result (λ back. back ≡ object) }
    {
        let (history, seat) = History::new(alloc, object, 1)?;
        Ok(Solo { history, seat })
    }

    pub fn call(&mut self, who: Who, call: O::Call) -> O::Reply
        requires { O.accepts call }
        ensures solo { self.new ≡ record self.old { at = self.new.at } }
        ensures logged { LoggedNext self.old.at self.new.at who call result }
        ensures legal { legal O.allows O.next self.new.history.opening self.new.history.first self.new.at.seen }
    {
        let mut turn = self.history.begin_alone(&mut self.seat);
        let reply = self.history.turn_call(&mut self.seat, &mut turn, who, call);
        self.history.end(&mut self.seat, turn);
        reply
    }

    pub fn close(self) -> Closed<O>
        ensures past { result.past ≡ self.at }
        ensures own { AllPlaces result.past.own (length result.past.seen) }
        ensures legal { legal O.allows O.next self.history.opening self.history.first result.past.seen }
        ensures object { O.state result.object ≡ replay O.next self.history.opening result.past.seen }
        ensures faults { O.faults result.object ≡ count_after self.history.first result.past.seen }
    {
        let Solo { history, seat } = self;
        history.close(seat)
    }
}
