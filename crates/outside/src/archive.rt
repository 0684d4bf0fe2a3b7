ghost use Rattle.std.specs.Prelude.{◌≡◌, [], IfOk, OnOk, OnErr};
ghost use Rattle.outside.specs.Changes.{all_changed};

use crate::kept::{Change, Kept};
use crate::tables::{Table, make_all, make_room, steps_of};
use bson_values::{List, NoMemory};
use std::alloc::Global;
use std::marker::Model;

/// The tables of a keeper in memory.
#[derive(Drop)]
pub struct Archive {
    alloc: Global,
    tables: Vec<Table>,
}

impl Model for Archive {
    ghost use Rattle.std.specs.Prelude.{List};
    ghost use Rattle.outside.specs.declared.kept.KeptTable.{KeptTable};
    ghost use Rattle.outside.specs.Tables.{kept_tables};

    ghost Value = { List KeptTable };

    ghost view = { λ it. kept_tables it.tables.items };
}

impl Archive {
    pub fn new(alloc: Global) -> Archive
        ensures { result ≡ [] }
    {
        Archive {
            alloc,
            tables: Vec::new(alloc),
        }
    }

    pub fn of(alloc: Global, kept: Kept) -> Result<Archive, NoMemory>
        ensures { IfOk result (λ made. made ≡ kept.tables) }
    {
        let mut tables = Vec::new(alloc);
        for table in kept.tables.into_vec() {
            tables.push(Table::of(alloc, table))?;
        }
        Ok(Archive { alloc, tables })
    }

    pub fn copy(&self, alloc: Global) -> Result<Kept, NoMemory>
        ensures { IfOk result (λ copied. copied.tables ≡ self.now) }
    {
        let mut tables = List::new(alloc);
        for table in &self.tables {
            let again = table.copy(alloc)?;
            tables.add(again)?;
        }
        Ok(Kept { tables })
    }

    /// Makes all changes, or none of them where memory is wanting: all of it is taken first.
    pub fn apply(&mut self, changes: &[Change]) -> Result<(), NoMemory>
        ensures ok { OnOk result (self.new ≡ all_changed changes.now self.old) }
        ensures err { OnErr result (self.new ≡ self.old) }
    {
        let steps = steps_of(self.alloc, changes)?;
        make_room(&mut self.tables, changes)?;
        make_all(&mut self.tables, steps);
        Ok(())
    }
}
