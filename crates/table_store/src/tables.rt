ghost use Rattle.std.specs.Prelude.{◌≡◌, length};
ghost use Rattle.table_store.specs.Kept.{Tells};
ghost use Rattle.table_store.specs.Ran.{AreReady, RanOn, StillTells};
ghost use Rattle.table_words.specs.Sound.{Sound, accepted};

use crate::live::LiveTables;
use history_lock::Object;
use outside::Keeper;
use std::marker::Model;
use table_words::{TableCall, TableReply, TablesState};

/// Tables as clauses see them. No value of it is made.
#[derive(Drop)]
pub struct Held<K> {
    pub state: TablesState,
    pub keeper: K,
}

/// All tables of a store. Each change goes to the keeper before it is told.
#[derive(Drop)]
pub struct Tables<K: Keeper> {
    pub(crate) tables: LiveTables<K>,
}

impl<K: Keeper> Model for Tables<K> {
    ghost use Rattle.table_store.specs.declared.tables.Held.{Held};
    ghost use Rattle.table_store.specs.Found.{state_of};
    ghost use Rattle.table_store.specs.Ran.{IsReady};
    ghost use Rattle.jsonb_contain.specs.contracts.value.Json as json;
    ghost use Rattle.std.specs.Coded.{codes};

    ghost Value = { Held K };

    ghost coded = { Prim.hlevel (codes, json.the_row.coded, K.code) };

    ghost view = { λ t. record { state = state_of t.tables; keeper = t.tables.keeper } };

    ghost invariant = { λ t. IsReady (K.told t.tables.keeper) (state_of t.tables) };
}

impl<K: Keeper> Tables<K> {
    /// How many tables there are.
    pub fn len(&self) -> usize
        ensures len { result ≡ length self.now.state.live }
        // What is true of all tables, told to whoever has them.
        ensures sound { Sound self.now.state }
        ensures tells { Tells (K.told self.now.keeper) self.now.state }
    {
        self.tables.live.as_slice().len()
    }

    /// The keeper as it stands.
    pub fn keeper(self) -> K
        ensures { result ≡ self.keeper }
    {
        let Tables { tables } = self;
        tables.into_keeper()
    }
}

impl<K> LiveTables<K> {
    fn into_keeper(self) -> K
        ensures { result ≡ self.keeper }
    {
        let LiveTables { keeper, .. } = self;
        keeper
    }
}

impl<K: Keeper> LiveTables<K> {
    /// Makes a call.
    fn run(&mut self, asked: TableCall) -> TableReply
        requires ready { AreReady K.told self.old }
        requires may { accepted asked }
        ensures ran { RanOn K.faults self.old self.new asked result }
        ensures told { StillTells K.told self.new }
    {
        match asked {
            TableCall::SelectNamed { space, cond } => self.select_named(&space, &cond),
            TableCall::Select { table, cond } => self.select(table, &cond),
            TableCall::InsertNamed { space, row } => self.insert_named(space, row),
            TableCall::Insert { table, row } => self.insert(table, row),
            TableCall::Commit {
                table,
                stamp,
                edits,
                added,
            } => self.commit(table, stamp, edits, added),
            TableCall::Create { space } => self.create(space),
            TableCall::Drop { space } => self.drop_space(&space),
            TableCall::DropDatabase { db } => self.drop_database(&db),
            TableCall::ListTables { db } => self.list_tables(&db),
            TableCall::ListDatabases => self.list_databases(),
        }
    }
}

impl<K: Keeper + Drop> Object for Tables<K> {
    type Call = TableCall;

    type Reply = TableReply;

    type State = TablesState;

    ghost use Rattle.table_words.specs.Sound.{accepted};
    ghost use Rattle.table_words.specs.Step.{tstep, tables_after};

    ghost state = { λ t. t.state };

    ghost faults = { λ t. K.faults t.keeper };

    ghost accepts = { accepted };

    ghost allows = { tstep };

    ghost next = { tables_after };

    ghost only_accepted = { λ s call reply before after step. step.may };

    fn run(&mut self, call: TableCall) -> TableReply {
        self.tables.run(call)
    }
}
