ghost use Rattle.std.specs.Prelude.{◌≡◌, ℕ};
ghost use Rattle.table_store.specs.Found.{state_of};
ghost use Rattle.table_store.specs.Ran.{OnlyReads};
ghost use Rattle.table_words.specs.Sound.{Sound};
ghost use Rattle.table_words.specs.declared.call.TableCall.TheVariants as call;

use crate::finding::{number_of, place_of};
use crate::live::LiveTables;
use bson_values::{NoMemory, Space};
use jsonb_contain::Cond;
use table_words::TableReply;

impl<K> LiveTables<K> {
    /// The rows of the table of that number that meet the condition.
    pub(crate) fn select(&self, number: u64, cond: &Cond) -> TableReply
        ensures ran { OnlyReads (state_of self.now) (call.Select number cond.now) result }
    {
        let Some(place) = place_of(number, &self.live) else {
            return TableReply::Gone;
        };
        let table = &self.live[place].table;
        match table.select(self.alloc, cond) {
            Ok(rows) => TableReply::Rows {
                table: number,
                stamp: table.stamp(),
                rows,
            },
            Err(NoMemory) => TableReply::NoMemory,
        }
    }

    /// The rows of the space's table that meet the condition.
    pub(crate) fn select_named(&self, space: &Space, cond: &Cond) -> TableReply
        requires ready { Sound (state_of self.now) }
        ensures ran { OnlyReads (state_of self.now) (call.SelectNamed space.now cond.now) result }
    {
        match number_of(space, &self.live) {
            Some(number) => self.select(number, cond),
            None => TableReply::Absent,
        }
    }
}
