ghost use Rattle.std.specs.Prelude.{◌≡◌, ◌∷◌, ◌++◌, [], false, true, OnOk, OnErr};
ghost use Rattle.outside.specs.Causes.{HasCause, failure_of};
ghost use Rattle.outside.specs.Changes.{Goes};
ghost use Rattle.table_rows.specs.Rows.{above, has_key};
ghost use Rattle.table_store.specs.Edits.{put_of};
ghost use Rattle.table_store.specs.Ran.{AreReady, RanOn, StillTells};
ghost use Rattle.table_words.specs.Sound.{IsSound};
ghost use Rattle.table_words.specs.declared.call.TableCall.TheVariants as call;

use crate::changes::put_of;
use crate::finding::place_of;
use crate::live::{LAST_NUMBER, LiveTables, refusal_of};
use outside::{KeepError, Keeper};
use std::alloc::Global;
use table_rows::{Row, Table};
use table_words::TableReply;

/// Adds a row last, once the keeper has it. All memory is taken before that is asked.
fn add_row<K: Keeper>(
    alloc: Global,
    keeper: &mut K,
    table: &mut Table,
    place: u64,
    row: Row,
) -> Result<(), KeepError>
    requires absent { has_key row.key table.old.rows ≡ false }
    requires above { above place table.old.rows ≡ true }
    ensures ok { OnOk result (table.new ≡ record table.old { stamp = place; rows = table.old.rows ++ record { place = place; row = row } ∷ [] }) }
    ensures err { OnErr result (table.new ≡ table.old) }
    ensures told { Goes (K.told keeper.old) (K.told keeper.new) (put_of table.old.number place row ∷ []) result }
    ensures cause { HasCause (K.faults keeper.old) (K.faults keeper.new) (failure_of result) }
{
    let Ok(put) = put_of(alloc, table.number(), place, &row) else {
        return Err(KeepError::NoMemory);
    };
    let Ok(key) = row.key.copy(alloc) else {
        return Err(KeepError::NoMemory);
    };
    match table.insert(place, row) {
        Ok(()) => {}
        Err(_) => return Err(KeepError::NoMemory),
    }
    match keeper.apply(&[put]) {
        Ok(()) => {
            table.set_stamp(place);
            Ok(())
        }
        Err(refused) => {
            let _gone = table.remove(&key);
            Err(refused)
        }
    }
}

impl<K: Keeper> LiveTables<K> {
    /// Adds a row to the table of that number.
    pub(crate) fn insert(&mut self, number: u64, row: Row) -> TableReply
        requires ready { AreReady K.told self.old }
        requires sound { IsSound row }
        ensures ran { RanOn K.faults self.old self.new (call.Insert number row) result }
        ensures told { StillTells K.told self.new }
    {
        let Some(place) = place_of(number, &self.live) else {
            return TableReply::Gone;
        };
        let kept = &mut self.live[place];
        if kept.table.has(&row.key) {
            return TableReply::Duplicate;
        }
        if self.next > LAST_NUMBER {
            return TableReply::Spent;
        }
        let stamp = self.next;
        match add_row(self.alloc, &mut self.keeper, &mut kept.table, stamp, row) {
            Ok(()) => {
                self.next += 1;
                TableReply::Inserted {
                    table: number,
                    stamp,
                }
            }
            Err(refused) => refusal_of(refused),
        }
    }
}
