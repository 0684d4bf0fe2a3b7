ghost use Rattle.std.specs.Prelude.{◌≡◌, ◌≤◌, ◌+◌, ◌%◌, ◌^◌, ◌⊎◌, ◌∷◌, [], true, false, length, IfOk};
ghost use Rattle.naming.specs.Names.{is_valid};
ghost use Rattle.pushdown.specs.Pushed.{cond};
ghost use Rattle.doc_history.specs.Part.{Served};
ghost use Rattle.doc_store.specs.Attempts.{AddsNamed, Changes, Commits, FitsEnd, Tells, TellsEnd, ending_of, rests, selection_of, untried};
ghost use Rattle.doc_store.specs.Carried.{Carried};
ghost use Rattle.doc_effects.specs.Deeds.{op_done};
ghost use Rattle.doc_effects.specs.Rows.{AreSound};
ghost use Rattle.table_words.specs.Sound.{SoundAdded, SoundEdits};
ghost use Rattle.doc_effects.specs.Replies.{Fits};

use crate::operation::added_reply;
use bson_values::{List, NoMemory, Space};
use case_tables::{DUPLICATE_KEY, NUMBERS_SPENT};
use doc_effects::{Deed, Outcome, finish};
use doc_model::OpReply;
use filter_syntax::Filter;
use history_lock::Who;
use jsonb_contain::Cond;
use pushdown::{cond_of, filtering_selected_rows_is_filtering_all};
use std::alloc::Global;
use table_rows::Row;
use table_words::{TableCall, TableDesk, TableReply};

/// What selects the rows of a collection that a filter may hold of.
#[derive(Drop)]
struct Select {
    space: Space,
    cond: Cond,
}

/// What a Select was replied.
#[derive(Drop)]
pub(crate) enum Selection {
    Rows {
        table: u64,
        stamp: u64,
        rows: List<Row>,
    },
    Absent,
    NoMemory,
}

/// How a try to change ended.
#[derive(Drop)]
pub(crate) enum Tries {
    Ends(OpReply),
    /// Others came between, or the collection is absent and a document is to be added: it is done in a turn.
    Again,
}

fn selecting(alloc: Global, space: &Space, filter: &Filter) -> Result<Select, NoMemory>
    ensures { IfOk result (λ it. (it.space ≡ space.now) × (it.cond ≡ cond filter.now)) }
{
    let space = space.copy(alloc)?;
    let cond = cond_of(alloc, filter)?;
    Ok(Select { space, cond })
}

fn selection_of(reply: TableReply) -> Selection
    ensures { result ≡ selection_of reply }
{
    match reply {
        TableReply::Rows { table, stamp, rows } => Selection::Rows { table, stamp, rows },
        TableReply::Absent => Selection::Absent,
        _ => Selection::NoMemory,
    }
}

/// What becomes of an operation, by the reply of its Commit.
fn ending_of(told: OpReply, reply: TableReply) -> Tries
    ensures { result ≡ ending_of told reply }
{
    match reply {
        TableReply::Done(_) => Tries::Ends(told),
        TableReply::Duplicate => Tries::Ends(OpReply::Refused(DUPLICATE_KEY)),
        TableReply::Spent => Tries::Ends(OpReply::Refused(NUMBERS_SPENT)),
        TableReply::Fault => Tries::Ends(OpReply::Fault),
        TableReply::NoMemory => Tries::Ends(OpReply::NoMemory),
        _ => Tries::Again,
    }
}

/// Whether nothing is to be changed.
fn rests(outcome: &Outcome) -> bool
    ensures { result ≡ rests outcome.now }
{
    outcome.edits.len() == 0 && outcome.added.is_none()
}

/// Tells the outcome, or commits it to the table while that has the stamp.
fn commit<D: TableDesk>(desk: &mut D, who: Who, table: u64, stamp: u64, outcome: Outcome) -> Tries
    requires sound { SoundEdits outcome.edits × SoundAdded outcome.added }
    ensures held { D.held desk.new ≡ D.held desk.old }
    ensures opening { D.opening desk.new ≡ D.opening desk.old }
    ensures first { D.first desk.new ≡ D.first desk.old }
    ensures turns { D.turns desk.new ≡ D.turns desk.old }
    ensures commits { Commits (D.held desk.old) (D.opening desk.old) (D.first desk.old) (D.at desk.old) (D.at desk.new) who table stamp outcome result }
{
    if rests(&outcome) {
        return Tries::Ends(outcome.reply);
    }
    let Outcome {
        reply: told,
        edits,
        added,
    } = outcome;
    let commit = TableCall::Commit {
        table,
        stamp,
        edits,
        added,
    };
    ending_of(told, desk.call(who, commit))
}

/// Makes of rows that were selected what the deed makes of them.
fn change_rows<D: TableDesk>(
    alloc: Global,
    desk: &mut D,
    who: Who,
    now: u64,
    filter: &Filter,
    deed: &Deed,
    table: u64,
    stamp: u64,
    rows: &[Row],
) -> Tries
    requires sound { AreSound rows.now }
    ensures held { D.held desk.new ≡ D.held desk.old }
    ensures opening { D.opening desk.new ≡ D.opening desk.old }
    ensures first { D.first desk.new ≡ D.first desk.old }
    ensures turns { D.turns desk.new ≡ D.turns desk.old }
    ensures changes { Changes (D.held desk.old) (D.opening desk.old) (D.first desk.old) (D.at desk.old) (D.at desk.new) who now filter.now deed.now table stamp rows.now result }
{
    match finish(alloc, who, now, filter, deed, rows) {
        Ok(outcome) => commit(desk, who, table, stamp, outcome),
        Err(NoMemory) => Tries::Ends(OpReply::NoMemory),
    }
}

/// What is made of a collection that is absent: what is to be added is added in a turn.
fn untried(made: Result<Outcome, NoMemory>) -> Tries
    ensures { result ≡ untried made }
{
    match made {
        Ok(outcome) => match outcome.added {
            Some(_) => Tries::Again,
            None => Tries::Ends(outcome.reply),
        },
        Err(NoMemory) => Tries::Ends(OpReply::NoMemory),
    }
}

/// Selects, and commits what is made of the rows.
fn attempt<D: TableDesk>(
    alloc: Global,
    desk: &mut D,
    who: Who,
    now: u64,
    select: Select,
    filter: &Filter,
    deed: &Deed,
) -> Tries
    requires selects { select.cond ≡ cond filter.now }
    ensures held { D.held desk.new ≡ D.held desk.old }
    ensures opening { D.opening desk.new ≡ D.opening desk.old }
    ensures first { D.first desk.new ≡ D.first desk.old }
    ensures turns { D.turns desk.new ≡ D.turns desk.old }
    ensures tells { Tells (D.opening desk.old) (D.at desk.old) (D.at desk.new) who now (op_done deed.now select.space filter.now) result }
    ensures carries { Carried (op_done deed.now select.space filter.now) (D.at desk.old) (D.at desk.new) }
    ensures fits { FitsEnd result }
{
    filtering_selected_rows_is_filtering_all();
    let Select { space, cond } = select;
    let reply = desk.call(who, TableCall::SelectNamed { space, cond });
    match selection_of(reply) {
        Selection::Rows { table, stamp, rows } => change_rows(
            alloc,
            desk,
            who,
            now,
            filter,
            deed,
            table,
            stamp,
            rows.as_slice(),
        ),
        Selection::Absent => untried(finish(alloc, who, now, filter, deed, &[])),
        Selection::NoMemory => Tries::Ends(OpReply::NoMemory),
    }
}

/// Creates the absent collection with what is to be added, in a turn.
fn add<D: TableDesk>(desk: &mut D, who: Who, space: Space, outcome: Outcome) -> OpReply
    requires named { is_valid space ≡ true }
    requires sound { SoundAdded outcome.added }
    ensures held { D.held desk.new ≡ D.held desk.old }
    ensures opening { D.opening desk.new ≡ D.opening desk.old }
    ensures first { D.first desk.new ≡ D.first desk.old }
    ensures turns { D.turns desk.new ≡ D.turns desk.old }
    ensures adds { AddsNamed (D.held desk.old) (D.opening desk.old) (D.first desk.old) (D.at desk.old) (D.at desk.new) who space outcome result }
{
    let Outcome {
        reply: told,
        added,
        ..
    } = outcome;
    match added {
        Some(row) => added_reply(told, desk.call(who, TableCall::InsertNamed { space, row })),
        None => told,
    }
}

/// The same in a turn, with the space to create the collection where that is absent. Nobody comes between.
fn settle<D: TableDesk>(
    alloc: Global,
    desk: &mut D,
    who: Who,
    now: u64,
    select: Select,
    space: Space,
    filter: &Filter,
    deed: &Deed,
) -> OpReply
    requires selects { (select.cond ≡ cond filter.now) × (select.space ≡ space) }
    requires named { is_valid space ≡ true }
    requires turn { D.held desk.old ≡ true }
    ensures held { D.held desk.new ≡ D.held desk.old }
    ensures opening { D.opening desk.new ≡ D.opening desk.old }
    ensures first { D.first desk.new ≡ D.first desk.old }
    ensures turns { D.turns desk.new ≡ D.turns desk.old }
    ensures tells { TellsEnd (D.opening desk.old) (D.at desk.old) (D.at desk.new) who now (op_done deed.now space filter.now) result }
    ensures carries { Carried (op_done deed.now space filter.now) (D.at desk.old) (D.at desk.new) }
    ensures fits { Fits result }
{
    filtering_selected_rows_is_filtering_all();
    let Select { space: asked, cond } = select;
    let reply = desk.call(who, TableCall::SelectNamed { space: asked, cond });
    match selection_of(reply) {
        Selection::Rows { table, stamp, rows } => {
            let rows = rows.as_slice();
            match change_rows(alloc, desk, who, now, filter, deed, table, stamp, rows) {
                Tries::Ends(reply) => reply,
                Tries::Again => unreachable!(),
            }
        }
        Selection::Absent => match finish(alloc, who, now, filter, deed, &[]) {
            Ok(outcome) => add(desk, who, space, outcome),
            Err(NoMemory) => OpReply::NoMemory,
        },
        Selection::NoMemory => OpReply::NoMemory,
    }
}

/// What both tries begin with, made before the first call: behind it only what is made of the rows takes memory.
#[derive(Drop)]
struct Prepared {
    first: Select,
    again: Select,
}

fn prepare(alloc: Global, space: &Space, filter: &Filter) -> Result<Prepared, NoMemory>
    ensures { IfOk result (λ it. (it.first.space ≡ space.now) × (it.first.cond ≡ cond filter.now)
        × (it.again.space ≡ space.now) × (it.again.cond ≡ cond filter.now)) }
{
    let first = selecting(alloc, space, filter)?;
    let again = selecting(alloc, space, filter)?;
    Ok(Prepared { first, again })
}

/// The same, in a turn of its own.
fn in_turn<D: TableDesk>(
    alloc: Global,
    desk: &mut D,
    who: Who,
    now: u64,
    select: Select,
    space: Space,
    filter: &Filter,
    deed: &Deed,
) -> OpReply
    requires selects { (select.cond ≡ cond filter.now) × (select.space ≡ space) }
    requires named { is_valid space ≡ true }
    requires free { D.held desk.old ≡ false }
    ensures free { D.held desk.new ≡ false }
    ensures opening { D.opening desk.new ≡ D.opening desk.old }
    ensures first { D.first desk.new ≡ D.first desk.old }
    ensures turns { D.turns desk.new ≡ (D.turns desk.old + 1) % 2 ^ 64 }
    ensures tells { TellsEnd (D.opening desk.old) (D.at desk.old) (D.at desk.new) who now (op_done deed.now space filter.now) result }
    ensures carries { Carried (op_done deed.now space filter.now) (D.at desk.old) (D.at desk.new) }
    ensures fits { Fits result }
{
    desk.hold();
    let reply = settle(alloc, desk, who, now, select, space, filter, deed);
    desk.release();
    reply
}

/// Changes the documents of a collection that a filter holds of. It selects their rows by the condition of the filter, and commits what is
/// made of them, once; where others came between, or the collection is to be created, it does so in a turn.
pub(crate) fn change<D: TableDesk>(
    alloc: Global,
    desk: &mut D,
    who: Who,
    now: u64,
    space: Space,
    filter: &Filter,
    deed: &Deed,
) -> OpReply
    requires named { is_valid space ≡ true }
    requires free { D.held desk.old ≡ false }
    ensures free { D.held desk.new ≡ false }
    ensures opening { D.opening desk.new ≡ D.opening desk.old }
    ensures first { D.first desk.new ≡ D.first desk.old }
    ensures one_turn { (D.turns desk.new ≡ D.turns desk.old) ⊎ (D.turns desk.new ≡ (D.turns desk.old + 1) % 2 ^ 64) }
    ensures served { Served (D.opening desk.old) (D.at desk.old) (D.at desk.new)
        (record { who = who; now = now; op = op_done deed.now space filter.now; reply = result } ∷ []) }
    ensures carries { Carried (op_done deed.now space filter.now) (D.at desk.old) (D.at desk.new) }
    ensures fits { Fits result }
    ensures few { length (D.at desk.new).own ≤ length (D.at desk.old).own + 4 }
{
    let Ok(prepared) = prepare(alloc, &space, filter) else {
        return OpReply::NoMemory;
    };
    let Prepared { first, again } = prepared;
    match attempt(alloc, desk, who, now, first, filter, deed) {
        Tries::Ends(reply) => reply,
        Tries::Again => in_turn(alloc, desk, who, now, again, space, filter, deed),
    }
}
