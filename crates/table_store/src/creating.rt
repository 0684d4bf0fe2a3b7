ghost use Rattle.std.specs.Prelude.{◌≡◌, None};
ghost use Rattle.naming.specs.Names.{is_valid};
ghost use Rattle.table_store.specs.Found.{state_of};
ghost use Rattle.table_store.specs.Ran.{AreReady, RanOn, StillTells};
ghost use Rattle.table_words.specs.Sound.{IsSound};
ghost use Rattle.table_words.specs.Tables.{named};
ghost use Rattle.table_words.specs.declared.call.TableCall.TheVariants as call;

use crate::changes::put_of;
use crate::finding::number_of;
use crate::live::{LAST_NUMBER, Live, LiveTables, MOST_TABLES, refusal_of};
use bson_values::Space;
use outside::{Change, Keeper};
use table_rows::{Row, Table};
use table_words::TableReply;

impl<K: Keeper> LiveTables<K> {
    /// Creates the space's table.
    pub(crate) fn create(&mut self, space: Space) -> TableReply
        requires ready { AreReady K.told self.old }
        ensures ran { RanOn K.faults self.old self.new (call.Create space) result }
        ensures told { StillTells K.told self.new }
    {
        match number_of(&space, &self.live) {
            Some(_) => TableReply::Exists,
            None => self.create_new(space),
        }
    }

    fn create_new(&mut self, space: Space) -> TableReply
        requires ready { AreReady K.told self.old }
        requires absent { named space (state_of self.old).live ≡ None }
        ensures ran { RanOn K.faults self.old self.new (call.Create space) result }
        ensures told { StillTells K.told self.new }
    {
        if self.live.len() >= MOST_TABLES {
            return TableReply::Full;
        }
        if self.next > LAST_NUMBER {
            return TableReply::Spent;
        }
        let number = self.next;
        let Ok(kept) = space.copy(self.alloc) else {
            return TableReply::NoMemory;
        };
        match self.live.reserve(1) {
            Ok(()) => {}
            Err(_) => return TableReply::NoMemory,
        }
        let create = Change::Create {
            number,
            space: kept,
        };
        match self.keeper.apply(&[create]) {
            Ok(()) => {
                self.live.push_reserved(Live {
                    space,
                    table: Table::new(self.alloc, number),
                });
                self.next += 1;
                TableReply::Inserted {
                    table: number,
                    stamp: number,
                }
            }
            Err(refused) => refusal_of(refused),
        }
    }

    /// Adds a row to the space's table, which is created where there is none.
    pub(crate) fn insert_named(&mut self, space: Space, row: Row) -> TableReply
        requires ready { AreReady K.told self.old }
        requires sound { IsSound row }
        ensures ran { RanOn K.faults self.old self.new (call.InsertNamed space row) result }
        ensures told { StillTells K.told self.new }
    {
        match number_of(&space, &self.live) {
            Some(number) => self.insert(number, row),
            None => self.create_with(space, row),
        }
    }

    fn create_with(&mut self, space: Space, row: Row) -> TableReply
        requires ready { AreReady K.told self.old }
        requires sound { IsSound row }
        requires absent { named space (state_of self.old).live ≡ None }
        ensures ran { RanOn K.faults self.old self.new (call.InsertNamed space row) result }
        ensures told { StillTells K.told self.new }
    {
        if self.live.as_slice().len() >= MOST_TABLES {
            return TableReply::Full;
        }
        if self.next >= LAST_NUMBER {
            return TableReply::Spent;
        }
        let number = self.next;
        let place = number + 1;
        let Ok(copied) = space.copy(self.alloc) else {
            return TableReply::NoMemory;
        };
        let Ok(put) = put_of(self.alloc, number, place, &row) else {
            return TableReply::NoMemory;
        };
        let mut table = Table::new(self.alloc, number);
        match table.insert(place, row) {
            Ok(()) => {}
            Err(_) => return TableReply::NoMemory,
        }
        table.set_stamp(place);
        match self.live.reserve(1) {
            Ok(()) => {}
            Err(_) => return TableReply::NoMemory,
        }
        let create = Change::Create {
            number,
            space: copied,
        };
        match self.keeper.apply(&[create, put]) {
            Ok(()) => {
                self.live.push_reserved(Live { space, table });
                self.next += 2;
                TableReply::Inserted {
                    table: number,
                    stamp: place,
                }
            }
            Err(refused) => refusal_of(refused),
        }
    }
}
