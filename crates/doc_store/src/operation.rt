ghost use Rattle.std.specs.Prelude.{◌≡◌, ◌≤◌, ◌+◌, ◌%◌, ◌^◌, ◌⊎◌, ◌∷◌, [], true, false, length};
ghost use Rattle.naming.specs.Names.{is_valid};
ghost use Rattle.doc_history.specs.Part.{Served};
ghost use Rattle.doc_model.specs.declared.op.Op.TheVariants as op;
ghost use Rattle.doc_model.specs.Named.{IsNamed, IsRead};
ghost use Rattle.doc_model.specs.Step.{Keeps};
ghost use Rattle.doc_store.specs.Carried.{Carried};
ghost use Rattle.doc_effects.specs.Replies.{Fits};
ghost use Rattle.doc_store.specs.Replies.{added_reply, op_asked};

use crate::changing::change;
use crate::reading::read;
use bson_values::{Document, Space};
use case_tables::{DUPLICATE_KEY, NUMBERS_SPENT, TOO_MANY_COLLECTIONS};
use doc_effects::{Aim, Deed, Show, stored};
use doc_model::{Op, OpReply, Query};
use filter_syntax::Filter;
use history_lock::Who;
use std::alloc::Global;
use table_words::{TableCall, TableDesk, TableReply};

/// What an operation is told that adds a row by name, and is to be told that where it is added.
pub(crate) fn added_reply(told: OpReply, reply: TableReply) -> OpReply
    ensures { result ≡ added_reply told reply }
{
    match reply {
        TableReply::Inserted { .. } => told,
        TableReply::Duplicate => OpReply::Refused(DUPLICATE_KEY),
        TableReply::Full => OpReply::Refused(TOO_MANY_COLLECTIONS),
        TableReply::Spent => OpReply::Refused(NUMBERS_SPENT),
        TableReply::Fault => OpReply::Fault,
        _ => OpReply::NoMemory,
    }
}

/// Adds a document to its collection.
fn insert<D: TableDesk>(
    alloc: Global,
    desk: &mut D,
    who: Who,
    now: u64,
    space: Space,
    doc: Document,
) -> OpReply
    requires named { is_valid space ≡ true }
    ensures held { D.held desk.new ≡ D.held desk.old }
    ensures opening { D.opening desk.new ≡ D.opening desk.old }
    ensures first { D.first desk.new ≡ D.first desk.old }
    ensures turns { D.turns desk.new ≡ D.turns desk.old }
    ensures served { Served (D.opening desk.old) (D.at desk.old) (D.at desk.new)
        (record { who = who; now = now; op = op.Insert space doc; reply = result } ∷ []) }
    ensures carries { Carried (op.Insert space doc) (D.at desk.old) (D.at desk.new) }
    ensures fits { Fits result }
    ensures few { length (D.at desk.new).own ≤ length (D.at desk.old).own + 1 }
{
    let row = match stored(alloc, who, now, doc) {
        Ok(row) => row,
        Err(reply) => return reply,
    };
    let call = TableCall::InsertNamed { space, row };
    added_reply(OpReply::Inserted, desk.call(who, call))
}

/// What an operation does at a desk.
#[derive(Drop)]
enum Asked {
    Insert {
        space: Space,
        doc: Document,
    },
    Read {
        space: Space,
        filter: Filter,
        aim: Aim,
    },
    Change {
        space: Space,
        filter: Filter,
        deed: Deed,
    },
}

fn parted(op: Op) -> Asked
    ensures { op ≡ op_asked result }
{
    match op {
        Op::Insert { space, doc } => Asked::Insert { space, doc },
        Op::Find { space, query } => {
            let Query {
                filter,
                order,
                skip,
                limit,
                shape,
                cut,
            } = query;
            let show = Show {
                order,
                skip,
                limit,
                shape,
                cut,
            };
            Asked::Read {
                space,
                filter,
                aim: Aim::Documents(show),
            }
        }
        Op::Count {
            space,
            filter,
            skip,
            limit,
        } => Asked::Read {
            space,
            filter,
            aim: Aim::Number { skip, limit },
        },
        Op::Distinct {
            space,
            path,
            filter,
        } => Asked::Read {
            space,
            filter,
            aim: Aim::Values(path),
        },
        Op::Update {
            space,
            filter,
            update,
            multi,
            upsert,
        } => Asked::Change {
            space,
            filter,
            deed: Deed::Update {
                update,
                multi,
                upsert,
            },
        },
        Op::Delete { space, filter, one } => Asked::Change {
            space,
            filter,
            deed: Deed::Delete { one },
        },
        Op::FindAndModify {
            space,
            filter,
            order,
            change,
            fresh,
            upsert,
            shape,
        } => Asked::Change {
            space,
            filter,
            deed: Deed::Modify {
                order,
                change,
                fresh,
                upsert,
                shape,
            },
        },
    }
}

/// Does one operation, the `who.op`th of its connection, at that moment, in milliseconds since 1970-01-01 00:00 UTC.
///
/// What it did to the documents and replied is one step of the one-thread store, which stands at its last call. Each call that selects
/// carries the condition of its filter. An insert or a read makes at most one call. A change of what a filter holds of selects, and commits
/// once; it makes at most four calls, and begins a turn only where others came between or where it creates the collection.
pub fn perform<D: TableDesk>(alloc: Global, desk: &mut D, who: Who, now: u64, op: Op) -> OpReply
    requires named { IsNamed op }
    requires free { D.held desk.old ≡ false }
    ensures free { D.held desk.new ≡ false }
    ensures opening { D.opening desk.new ≡ D.opening desk.old }
    ensures first { D.first desk.new ≡ D.first desk.old }
    ensures turns { IsRead op → D.turns desk.new ≡ D.turns desk.old }
    ensures one_turn { (D.turns desk.new ≡ D.turns desk.old) ⊎ (D.turns desk.new ≡ (D.turns desk.old + 1) % 2 ^ 64) }
    ensures served { Served (D.opening desk.old) (D.at desk.old) (D.at desk.new)
        (record { who = who; now = now; op = op; reply = result } ∷ []) }
    ensures carries { Carried op (D.at desk.old) (D.at desk.new) }
    ensures fits { Fits result }
    ensures keeps { IsRead op → Keeps result }
    ensures few { length (D.at desk.new).own ≤ length (D.at desk.old).own + 4 }
{
    match parted(op) {
        Asked::Insert { space, doc } => insert(alloc, desk, who, now, space, doc),
        Asked::Change {
            space,
            filter,
            deed,
        } => {
            let reply = change(alloc, desk, who, now, space, &filter, &deed);
            drop(filter);
            drop(deed);
            reply
        }
        Asked::Read { space, filter, aim } => {
            let reply = read(alloc, desk, who, now, space, &filter, &aim);
            drop(filter);
            drop(aim);
            reply
        }
    }
}
