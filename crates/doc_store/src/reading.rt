ghost use Rattle.std.specs.Prelude.{◌≡◌, ◌∷◌, ◌≤◌, ◌+◌, [], length};
ghost use Rattle.doc_history.specs.Part.{Served};
ghost use Rattle.doc_model.specs.Step.{Keeps};
ghost use Rattle.doc_store.specs.Carried.{Carried};
ghost use Rattle.doc_effects.specs.Replies.{Fits, op_of};
ghost use Rattle.doc_store.specs.Replies.{rows_of};

use bson_values::{List, Space};
use doc_effects::{Aim, answered};
use doc_model::OpReply;
use filter_syntax::Filter;
use history_lock::Who;
use pushdown::{cond_of, filtering_selected_rows_is_filtering_all};
use std::alloc::Global;
use table_rows::Row;
use table_words::{TableCall, TableDesk, TableReply};

/// The rows that a Select was replied with, none of a table that is absent; nothing, where memory was wanting.
fn rows_of(alloc: Global, reply: TableReply) -> Option<List<Row>>
    ensures { result ≡ rows_of reply }
{
    match reply {
        TableReply::Rows { rows, .. } => Some(rows),
        TableReply::Absent => Some(List::new(alloc)),
        _ => None,
    }
}

/// Reads the documents of a collection that a filter holds of. It selects their rows by the condition of the filter.
pub(crate) fn read<D: TableDesk>(
    alloc: Global,
    desk: &mut D,
    who: Who,
    now: u64,
    space: Space,
    filter: &Filter,
    aim: &Aim,
) -> OpReply
    ensures held { D.held desk.new ≡ D.held desk.old }
    ensures opening { D.opening desk.new ≡ D.opening desk.old }
    ensures first { D.first desk.new ≡ D.first desk.old }
    ensures turns { D.turns desk.new ≡ D.turns desk.old }
    ensures served { Served (D.opening desk.old) (D.at desk.old) (D.at desk.new)
        (record { who = who; now = now; op = op_of aim.now space filter.now; reply = result } ∷ []) }
    ensures carries { Carried (op_of aim.now space filter.now) (D.at desk.old) (D.at desk.new) }
    ensures keeps { Keeps result }
    ensures fits { Fits result }
    ensures few { length (D.at desk.new).own ≤ length (D.at desk.old).own + 1 }
{
    filtering_selected_rows_is_filtering_all();
    let Ok(cond) = cond_of(alloc, filter) else {
        return OpReply::NoMemory;
    };
    let reply = desk.call(who, TableCall::SelectNamed { space, cond });
    match rows_of(alloc, reply) {
        Some(rows) => answered(alloc, aim, filter, rows.as_slice()),
        None => OpReply::NoMemory,
    }
}
