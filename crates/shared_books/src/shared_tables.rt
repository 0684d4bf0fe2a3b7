ghost use Rattle.std.specs.Prelude.{◌≡◌, None, false};
ghost use Rattle.table_words.specs.Sound.{Sound};
ghost use Rattle.shared_books.specs.Desks.{shared};

use history_lock::{History, Seat, Turn, Who};
use outside::Keeper;
use std::marker::Model;
use std::sync::Wait;
use table_store::Tables;
use table_words::{TableCall, TableDesk, TableReply};

/// A desk at one of many seats of a history. A call waits for a turn of its own, or is made in the turn that is held.
#[derive(Drop)]
pub struct SharedTables<'a, R: Wait, K: Keeper + Drop> {
    rt: &'a R,
    history: &'a History<Tables<K>>,
    seat: Seat<Tables<K>>,
    turn: Option<Turn<Tables<K>>>,
    turns: u64,
}

impl<'a, R: Wait, K: Keeper + Drop> Model for SharedTables<'a, R, K> {
    ghost use Rattle.std.specs.Prelude.{◌≡◌};
    ghost use Rattle.shared_books.specs.Desks.{SharedDesk, IsHeld};
    ghost use Rattle.table_words.specs.Sound.{Sound};
    ghost use Rattle.jsonb_contain.specs.contracts.value.Json as json;
    ghost use Rattle.jsonb_contain.specs.contracts.cond.Cond as cond;
    ghost use Rattle.std.specs.Coded.{codes};

    ghost Value = { SharedDesk };

    ghost coded = { Prim.hlevel (codes, json.the_row.coded, cond.the_row.coded) };

    ghost view = { λ it. record { history = it.history.now; seat = it.seat; turns = it.turns } };

    ghost invariant = { λ it. (it.seat.history ≡ it.history.now) × Sound it.seat.history.opening × IsHeld it.seat it.turn };
}

impl<'a, R: Wait, K: Keeper + Drop> SharedTables<'a, R, K> {
    /// `Tables::len` tells that tables are sound.
    pub fn new(
        rt: &'a R,
        history: &'a History<Tables<K>>,
        seat: Seat<Tables<K>>,
    ) -> SharedTables<'a, R, K>
        requires history { seat.history ≡ history.now }
        requires free { seat.held ≡ false }
        requires sound { Sound seat.history.opening }
        ensures { result ≡ shared history.now seat }
    {
        SharedTables {
            rt,
            history,
            seat,
            turn: None,
            turns: 0,
        }
    }

    /// The seat, once no turn is held.
    pub fn part(self) -> Seat<Tables<K>>
        requires free { self.seat.held ≡ false }
        ensures { result ≡ self.entry.seat }
    {
        let SharedTables { seat, .. } = self;
        seat
    }
}

impl<'a, R: Wait, K: Keeper + Drop> TableDesk for SharedTables<'a, R, K> {
    ghost opening = { λ desk. desk.seat.history.opening };

    ghost first = { λ desk. desk.seat.history.first };

    ghost at = { λ desk. desk.seat.at };

    ghost held = { λ desk. desk.seat.held };

    ghost turns = { λ desk. desk.turns };

    fn call(&mut self, who: Who, call: TableCall) -> TableReply {
        match &mut self.turn {
            Some(turn) => self.history.turn_call(&mut self.seat, turn, who, call),
            None => self.history.call(self.rt, &mut self.seat, who, call),
        }
    }

    fn hold(&mut self) {
        let turn = self.history.begin(self.rt, &mut self.seat);
        self.turn = Some(turn);
        self.turns = self.turns.wrapping_add(1);
    }

    fn release(&mut self) {
        if let Some(turn) = self.turn.take() {
            self.history.end(&mut self.seat, turn);
        }
    }
}
