ghost use Rattle.std.specs.Prelude.{◌≡◌, ◌≤◌, ◌+◌, [], IfOk, OnOk};
ghost use Rattle.outside.specs.Changes.{has_key, put_row, cut_row};
ghost use Rattle.outside.specs.Rows.{FirstAt};

use crate::index::{Index, add_last, index_of, place_among, place_in, take_out};
use crate::kept::KeptRow;
use bson_values::{Bytes, List, NoMemory};
use keyed_rows::Keyed;
use std::alloc::Global;
use std::marker::Model;

/// The rows of a table. Contracts see them, and how many more need no memory.
#[derive(Drop)]
pub struct Rows {
    rows: Vec<KeptRow>,
    /// The keys and places of the rows, as long as places rise and keys differ. Without it all rows are looked through.
    index: Option<Index>,
}

impl Model for Rows {
    ghost use Rattle.std.specs.Prelude.{◌-◌, vec_len};
    ghost use Rattle.std.specs.Vec.{vec_capacity};
    ghost use Rattle.bson_values.specs.Room.{Roomy};
    ghost use Rattle.outside.specs.declared.kept.KeptRow.{KeptRow};
    ghost use Rattle.outside.specs.Rows.{IsIndexOf};

    ghost Value = { Roomy KeptRow };

    ghost view = { λ it. record { items = it.rows.items; spare = vec_capacity it.rows - vec_len it.rows } };

    ghost invariant = { λ it. IsIndexOf it.index it.rows.items };
}

impl Rows {
    pub fn of(alloc: Global, rows: List<KeptRow>) -> Rows
        ensures { result.items ≡ rows }
    {
        let index = index_of(alloc, rows.as_slice());
        Rows {
            rows: rows.into_vec(),
            index,
        }
    }

    /// No rows, with room for `extra`.
    pub fn new(alloc: Global, extra: usize) -> Result<Rows, NoMemory>
        ensures rows { IfOk result (λ made. made.items ≡ []) }
        ensures spare { IfOk result (λ made. extra ≤ made.spare) }
    {
        let rows = Vec::with_capacity(alloc, extra)?;
        Ok(Rows {
            rows,
            index: Some(Keyed::new(alloc)),
        })
    }

    /// Makes room for `extra` more rows.
    pub fn make_room(&mut self, extra: usize) -> Result<(), NoMemory>
        ensures rows { self.new.items ≡ self.old.items }
        ensures spare { OnOk result (extra ≤ self.new.spare) }
    {
        self.rows.reserve(extra)?;
        Ok(())
    }

    /// Where the first row of that key stands.
    fn place(&self, key: &Bytes) -> Option<usize>
        ensures { FirstAt (has_key key.now) self.now.items result }
    {
        match &self.index {
            Some(index) => place_in(index, &self.rows, key),
            None => place_among(&self.rows, key),
        }
    }

    /// Puts a row under its key. It needs no memory, since an index that finds none is given up.
    #[tactic(auto, using(crate::proofs::Places::put_there, crate::proofs::Places::put_last))]
    pub fn put(&mut self, row: KeptRow)
        requires { 1 ≤ self.old.spare }
        ensures rows { self.new.items ≡ put_row row self.old.items }
        ensures spare { self.old.spare ≤ self.new.spare + 1 }
    {
        match self.place(&row.key) {
            Some(place) => {
                let old = &mut self.rows[place];
                old.text = row.text;
            }
            None => {
                let alloc = *self.rows.allocator();
                add_last(alloc, &mut self.index, &row);
                self.rows.push_reserved(row);
            }
        }
    }

    /// Takes the row of a key out.
    #[tactic(auto, using(crate::proofs::Places::cut_there, crate::proofs::Places::cut_nothing))]
    pub fn cut(&mut self, key: &Bytes)
        ensures rows { self.new.items ≡ cut_row key.now self.old.items }
        ensures spare { self.old.spare ≤ self.new.spare }
    {
        if let Some(place) = self.place(key) {
            take_out(&mut self.index, key);
            drop(self.rows.remove(place));
        }
    }

    pub fn copy(&self, alloc: Global) -> Result<List<KeptRow>, NoMemory>
        ensures { IfOk result (λ copied. copied ≡ self.now.items) }
    {
        let mut copied = List::new(alloc);
        for row in &self.rows {
            let again = row.copy(alloc)?;
            copied.add(again)?;
        }
        Ok(copied)
    }
}
