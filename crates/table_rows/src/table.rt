ghost use Rattle.std.specs.Prelude.{◌≡◌, ◌∷◌, ◌++◌, [], true, false, length, IfOk, IfErr, OnOk};
ghost use Rattle.table_rows.specs.Rows.{above, has_key, keys_differ, places_rise, removed, replaced, selected};

use crate::body::Body;
use crate::row::Row;
use crate::selecting::{named_key, select_all, select_at};
use bson_values::{Bytes, List, NoMemory};
use jsonb_contain::Cond;
use keyed_rows::Keyed;
use std::alloc::Global;
use std::marker::Model;

/// A table: rows with distinct keys, in the order of their places.
#[derive(Drop)]
pub struct Table {
    number: u64,
    stamp: u64,
    rows: Keyed<Body>,
}

impl Model for Table {
    ghost use Rattle.table_rows.specs.contracts.listed.Listed as listed;
    ghost use Rattle.table_rows.specs.declared.listed.Listed.{Listed};
    ghost use Rattle.table_rows.specs.Kept.{placed};

    ghost Value = { Listed };

    ghost coded = { listed.the_row.coded };

    ghost view = { λ it. record { number = it.number; stamp = it.stamp; rows = placed it.rows } };
}

impl Table {
    /// A table with no rows, whose stamp is its number.
    pub fn new(alloc: Global, number: u64) -> Table
        ensures { result ≡ record { number = number; stamp = number; rows = [] } }
    {
        Table {
            number,
            stamp: number,
            rows: Keyed::new(alloc),
        }
    }

    pub fn number(&self) -> u64
        ensures { result ≡ self.now.number }
    {
        self.number
    }

    pub fn stamp(&self) -> u64
        ensures { result ≡ self.now.stamp }
    {
        self.stamp
    }

    #[tactic(auto, using(crate::proofs::Placing::rise_placed, crate::proofs::Placing::differ_placed))]
    pub fn len(&self) -> usize
        ensures len { result ≡ length self.now.rows }
        ensures rise { places_rise self.now.rows ≡ true }
        ensures differ { keys_differ self.now.rows ≡ true }
    {
        self.rows.len()
    }

    #[tactic(auto, using(crate::proofs::Placing::has_placed))]
    pub fn has(&self, key: &Bytes) -> bool
        ensures { result ≡ has_key key.now self.now.rows }
    {
        self.rows.has(key)
    }

    /// Whether a place is above those of all rows.
    #[tactic(auto, using(crate::proofs::Placing::above_placed))]
    pub fn is_above(&self, place: u64) -> bool
        ensures { result ≡ above place self.now.rows }
    {
        self.rows.is_above(place)
    }

    /// Copies of the rows that meet the condition, in order. Where that names a key, no other row is looked at.
    pub fn select(&self, alloc: Global, cond: &Cond) -> Result<List<Row>, NoMemory>
        ensures { IfOk result (λ rows. rows ≡ selected cond.now self.now.rows) }
    {
        match named_key(cond) {
            Some(key) => select_at(alloc, cond, &self.rows, key),
            None => select_all(alloc, cond, &self.rows),
        }
    }

    /// Adds a row last. Want of memory hands it back.
    #[tactic(auto, using(crate::proofs::Placing::has_placed, crate::proofs::Placing::above_placed))]
    pub fn insert(&mut self, place: u64, row: Row) -> Result<(), Row>
        requires absent { has_key row.key self.old.rows ≡ false }
        requires above { above place self.old.rows ≡ true }
        ensures ok { OnOk result (self.new ≡ record self.old { rows = self.old.rows ++ (record { place = place; row = row }) ∷ [] }) }
        ensures err { IfErr result (λ back. (back ≡ row) × (self.new ≡ self.old)) }
    {
        let Row { key, json, text } = row;
        match self.rows.insert(place, key, Body { json, text }) {
            Ok(()) => Ok(()),
            Err((key, Body { json, text })) => Err(Row { key, json, text }),
        }
    }

    /// Puts a row in the place of that with its key, and says whether there was one.
    #[tactic(auto, using(crate::proofs::Placing::has_placed, crate::proofs::Placing::replaced_placed))]
    pub fn replace(&mut self, row: Row) -> bool
        ensures found { result ≡ has_key row.key self.old.rows }
        ensures rows { self.new ≡ record self.old { rows = replaced row self.old.rows } }
    {
        let Row { key, json, text } = row;
        match self.rows.replace(&key, Body { json, text }) {
            Ok(_) => true,
            Err(_) => false,
        }
    }

    /// Takes the row of the key out, and says whether there was one.
    #[tactic(auto, using(crate::proofs::Placing::has_placed, crate::proofs::Placing::removed_placed))]
    pub fn remove(&mut self, key: &Bytes) -> bool
        ensures found { result ≡ has_key key.now self.old.rows }
        ensures rows { self.new ≡ record self.old { rows = removed key.now self.old.rows } }
    {
        self.rows.remove(key).is_some()
    }

    pub fn set_stamp(&mut self, stamp: u64)
        ensures { self.new ≡ record self.old { stamp = stamp } }
    {
        self.stamp = stamp;
    }
}
