ghost use Rattle.std.specs.Prelude.{◌≡◌, ◌<◌, IfOk, length, not};
ghost use Rattle.std.specs.List.{filter, remove};
ghost use Rattle.std.specs.Str.{bytes_eq};
ghost use Rattle.table_store.specs.Found.{all_shown};
ghost use Rattle.table_store.specs.Drops.{drops_of};
ghost use Rattle.table_store.specs.Ran.{AreReady, RanOn, StillTells};
ghost use Rattle.table_words.specs.declared.call.TableCall.TheVariants as call;

use crate::finding::{number_of, place_of};
use crate::live::{Live, LiveTables, refusal_of};
use bson_values::{List, NoMemory, Space, Text};
use outside::{Change, Keeper};
use std::alloc::Global;
use table_words::TableReply;

/// The changes that drop the tables of a database.
fn drops_of(alloc: Global, db: &Text, live: &[Live]) -> Result<List<Change>, NoMemory>
    ensures { IfOk result (λ changes. changes ≡ drops_of db.now (all_shown live.now)) }
{
    let mut changes = List::new(alloc);
    let mut rest = live;
    while let [kept, others @ ..] = rest {
        if db.as_str() == kept.space.db.as_str() {
            changes.add(Change::Drop {
                number: kept.table.number(),
            })?;
        }
        rest = others;
    }
    Ok(changes)
}

fn is_outside(kept: &Live, db: &Text) -> bool
    ensures { result ≡ not (bytes_eq db.now kept.now.space.db) }
{
    db.as_str() != kept.space.db.as_str()
}

/// Leaves the tables of other databases.
fn leave_outside(live: &mut Vec<Live>, db: &Text)
    ensures { live.new.items ≡ filter (λ kept. not (bytes_eq db.now kept.space.db)) live.old.items }
{
    live.retain(|kept| is_outside(kept, db));
}

fn leave_out(live: &mut Vec<Live>, place: usize)
    requires { place < length live.old.items }
    ensures { live.new.items ≡ remove live.old.items place }
{
    live.remove(place);
}

impl<K: Keeper> LiveTables<K> {
    /// Drops the space's table.
    pub(crate) fn drop_space(&mut self, space: &Space) -> TableReply
        requires ready { AreReady K.told self.old }
        ensures ran { RanOn K.faults self.old self.new (call.Drop space.now) result }
        ensures told { StillTells K.told self.new }
    {
        let Some(number) = number_of(space, &self.live) else {
            return TableReply::Absent;
        };
        let Some(place) = place_of(number, &self.live) else {
            unreachable!()
        };
        match self.keeper.apply(&[Change::Drop { number }]) {
            Ok(()) => {
                leave_out(&mut self.live, place);
                TableReply::Dropped(1)
            }
            Err(refused) => refusal_of(refused),
        }
    }

    /// Drops all tables of a database. Where it has none, the keeper is not asked.
    pub(crate) fn drop_database(&mut self, db: &Text) -> TableReply
        requires ready { AreReady K.told self.old }
        ensures ran { RanOn K.faults self.old self.new (call.DropDatabase db.now) result }
        ensures told { StillTells K.told self.new }
    {
        let Ok(changes) = drops_of(self.alloc, db, &self.live) else {
            return TableReply::NoMemory;
        };
        let count = changes.len() as u64;
        if count == 0 {
            return TableReply::Dropped(0);
        }
        match self.keeper.apply(changes.as_slice()) {
            Ok(()) => {
                leave_outside(&mut self.live, db);
                TableReply::Dropped(count)
            }
            Err(refused) => refusal_of(refused),
        }
    }
}
