ghost use Rattle.std.specs.Prelude.{◌≡◌, false};
ghost use Rattle.table_words.specs.Sound.{Sound};
ghost use Rattle.shared_books.specs.Desks.{fresh};

use history_lock::{Solo, Who};
use outside::Keeper;
use std::marker::Model;
use table_store::Tables;
use table_words::{TableCall, TableDesk, TableReply};

/// A desk over a history with one seat, which never waits. A turn of it costs nothing, since nobody else is there.
#[derive(Drop)]
pub struct SoloTables<K: Keeper + Drop> {
    solo: Solo<Tables<K>>,
    held: bool,
    turns: u64,
}

impl<K: Keeper + Drop> Model for SoloTables<K> {
    ghost use Rattle.shared_books.specs.Desks.{SoloDesk};
    ghost use Rattle.table_words.specs.Sound.{Sound};
    ghost use Rattle.jsonb_contain.specs.contracts.value.Json as json;
    ghost use Rattle.jsonb_contain.specs.contracts.cond.Cond as cond;
    ghost use Rattle.std.specs.Coded.{codes};

    ghost Value = { SoloDesk };

    ghost coded = { Prim.hlevel (codes, json.the_row.coded, cond.the_row.coded) };

    ghost view = { λ it. record { seat = it.solo; held = it.held; turns = it.turns } };

    ghost invariant = { λ it. Sound it.solo.history.opening };
}

impl<K: Keeper + Drop> SoloTables<K> {
    /// `Tables::len` tells that tables are sound.
    pub fn new(solo: Solo<Tables<K>>) -> SoloTables<K>
        requires sound { Sound solo.history.opening }
        ensures { result ≡ fresh solo }
    {
        SoloTables {
            solo,
            held: false,
            turns: 0,
        }
    }

    /// The history, once no turn is held.
    pub fn part(self) -> Solo<Tables<K>>
        requires free { self.held ≡ false }
        ensures { result ≡ self.seat }
    {
        let SoloTables { solo, .. } = self;
        solo
    }
}

impl<K: Keeper + Drop> TableDesk for SoloTables<K> {
    ghost opening = { λ desk. desk.seat.history.opening };

    ghost first = { λ desk. desk.seat.history.first };

    ghost at = { λ desk. desk.seat.at };

    ghost held = { λ desk. desk.held };

    ghost turns = { λ desk. desk.turns };

    fn call(&mut self, who: Who, call: TableCall) -> TableReply {
        self.solo.call(who, call)
    }

    fn hold(&mut self) {
        self.held = true;
        self.turns = self.turns.wrapping_add(1);
    }

    fn release(&mut self) {
        self.held = false;
    }
}
