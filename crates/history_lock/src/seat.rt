use crate::object::Object;
use crate::rule::{Held, Known, Start};
use std::marker::Model;
use std::snapshot::Snapshot;

pub(crate) type Place<O> = atomic_table::Seat<
    Held<O, <O as Object>::Call, <O as Object>::Reply>,
    Known<<O as Object>::State, <O as Object>::Call, <O as Object>::Reply>,
>;

/// One caller's place at a history. It may go from thread to thread.
#[derive(Drop)]
pub struct Seat<O: Object> {
    pub(crate) place: Place<O>,
    pub(crate) start: Snapshot<Start<O>>,
}

impl<O: Object> Model for Seat<O> {
    ghost use Rattle.history_lock.specs.Rule.{meaning, origin_of};
    ghost use Rattle.history_lock.specs.Seats.{Sitting};
    ghost use Rattle.history_lock.specs.Parts.{Sits, sitting};

    ghost Value = { Sitting O.State O.Call O.Reply };

    ghost view = { λ s. sitting s.place.table_id (origin_of O.state O.faults s.start.value) s.place.id s.place.me.0 };

    ghost invariant = { λ s. Sits (meaning O.state O.faults O.allows O.next) (origin_of O.state O.faults s.start.value) s.place.me };
}

/// The right to log, which no other seat has until the turn ends. One that is dropped never ends.
#[derive(Drop)]
pub struct Turn<O: Object> {
    pub(crate) place: Snapshot<Place<O>>,
}

impl<O: Object> Model for Turn<O> {
    ghost use Rattle.history_lock.specs.Seats.{Whose};

    ghost Value = { Whose };

    ghost view = { λ t. record { name = t.place.value.table_id; number = t.place.value.id } };
}
