ghost use Rattle.std.specs.Prelude.{◌≡◌, ◌++◌, ◌∷◌, [], ℕ, IfOk, OnOk};
ghost use Rattle.table_store.specs.Found.{all_shown, state_of};
ghost use Rattle.table_store.specs.Ran.{OnlyReads};
ghost use Rattle.table_words.specs.Tables.{databases, has_text, names_in};
ghost use Rattle.table_words.specs.declared.call.TableCall.TheVariants as call;

use crate::live::{Live, LiveTables};
use bson_values::{List, NoMemory, Text};
use std::alloc::Global;
use table_words::TableReply;

fn add_copy(alloc: Global, names: &mut List<Text>, name: &Text) -> Result<(), NoMemory>
    ensures { OnOk result (names.new ≡ names.old ++ name.now ∷ []) }
{
    let name = name.copy(alloc)?;
    names.add(name)
}

/// The names of the collections of a database.
fn names_in(alloc: Global, db: &Text, live: &[Live]) -> Result<List<Text>, NoMemory>
    ensures { IfOk result (λ names. names ≡ names_in db.now (all_shown live.now)) }
{
    let mut names = List::new(alloc);
    let mut rest = live;
    while let [kept, others @ ..] = rest {
        if db.as_str() == kept.space.db.as_str() {
            add_copy(alloc, &mut names, &kept.space.coll)?;
        }
        rest = others;
    }
    Ok(names)
}

fn has_text(name: &Text, names: &[Text]) -> bool
    ensures { result ≡ has_text name.now names.now }
{
    let mut rest = names;
    while let [other, others @ ..] = rest {
        if name.as_str() == other.as_str() {
            return true;
        }
        rest = others;
    }
    false
}

/// The names of the databases, each at its oldest table.
fn databases(alloc: Global, live: &[Live]) -> Result<List<Text>, NoMemory>
    ensures { IfOk result (λ names. names ≡ databases [] (all_shown live.now)) }
{
    let mut names = List::new(alloc);
    let mut rest = live;
    while let [kept, others @ ..] = rest {
        if !has_text(&kept.space.db, names.as_slice()) {
            add_copy(alloc, &mut names, &kept.space.db)?;
        }
        rest = others;
    }
    Ok(names)
}

impl<K> LiveTables<K> {
    pub(crate) fn list_tables(&self, db: &Text) -> TableReply
        ensures ran { OnlyReads (state_of self.now) (call.ListTables db.now) result }
    {
        match names_in(self.alloc, db, &self.live) {
            Ok(names) => TableReply::Names(names),
            Err(NoMemory) => TableReply::NoMemory,
        }
    }

    pub(crate) fn list_databases(&self) -> TableReply
        ensures ran { OnlyReads (state_of self.now) call.ListDatabases result }
    {
        match databases(self.alloc, &self.live) {
            Ok(names) => TableReply::Names(names),
            Err(NoMemory) => TableReply::NoMemory,
        }
    }
}
