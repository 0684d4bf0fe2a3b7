ghost use Rattle.std.specs.Prelude.{◌≡◌, ◌≤◌, ◌<◌, ◌+◌, ◌^◌, [], All, None, false, length, List as Seq};
ghost use Rattle.doc_model.specs.Named.{IsNamed};
ghost use Rattle.doc_model.specs.declared.op.OpReply.{OpReply as Replied};
ghost use Rattle.doc_model.specs.declared.op.OpReply.TheVariants as replied;
ghost use Rattle.doc_effects.specs.Replies.{Fits, FitsId};
ghost use Rattle.reply_words.specs.Small.{AreShort, HasShortId};
ghost use Rattle.reply_words.specs.declared.ends.ItemEnd.TheVariants as ended;
ghost use Rattle.dispatcher.specs.Answers.{end_of, fails};
ghost use Rattle.dispatcher.specs.Answering.{DidAll, DidOne, DoneAll};

use crate::answers::Answered;
use crate::telling::BEFORE;
use bson_values::{List, Room, Value};
use case_tables::{INTERNAL_ERROR, OUT_OF_MEMORY};
use doc_model::{Op, OpReply};
use doc_store::perform;
use history_lock::Who;
use reply_words::{ItemEnd, most_items_size, put_items_reply};
use std::alloc::Global;
use table_words::TableDesk;

/// How an update ended, by what it is replied.
#[tactic(auto, using(crate::proofs::Ids::fits_short))]
fn updated(matched: u64, changed: u64, upserted: Option<Value>) -> ItemEnd
    requires { FitsId upserted }
    ensures value { result ≡ end_of (replied.Updated matched changed upserted) }
    ensures short { HasShortId result }
{
    match upserted {
        None => ItemEnd::Done {
            n: matched,
            changed,
            upserted: None,
        },
        Some(id) => ItemEnd::Done {
            n: 1,
            changed,
            upserted: Some(id),
        },
    }
}

/// How an item ended that added or removed so many documents.
fn moved(n: u64) -> ItemEnd
    ensures { result ≡ ended.Done n 0 None }
{
    ItemEnd::Done {
        n,
        changed: 0,
        upserted: None,
    }
}

/// How an item ended that was replied so.
fn end_of(reply: OpReply) -> ItemEnd
    requires { Fits reply }
    ensures value { result ≡ end_of reply }
    ensures short { HasShortId result }
{
    match reply {
        OpReply::Inserted => moved(1),
        OpReply::Updated {
            matched,
            changed,
            upserted,
        } => updated(matched, changed, upserted),
        OpReply::Deleted(n) => moved(n),
        OpReply::Refused(kind) => ItemEnd::Refused(kind),
        OpReply::NoMemory => ItemEnd::Refused(OUT_OF_MEMORY),
        _ => ItemEnd::Refused(INTERNAL_ERROR),
    }
}

fn fails(end: &ItemEnd) -> bool
    ensures { result ≡ fails end.now }
{
    matches!(end, ItemEnd::Refused(_))
}

/// Does one item, and says whether it failed.
#[tactic(auto, using(crate::proofs::Ids::short_more))]
fn write_one<T: TableDesk>(
    alloc: Global,
    tables: &mut T,
    who: &mut Who,
    now: u64,
    op: Op,
    ends: &mut Room<ItemEnd>,
) -> bool
    requires named { IsNamed op }
    requires free { T.held tables.old ≡ false }
    requires room { who.old.op < 2 ^ 63 + 1000 }
    requires spare { 1 ≤ ends.old.spare }
    ensures free { T.held tables.new ≡ false }
    ensures opening { T.opening tables.new ≡ T.opening tables.old }
    ensures first { T.first tables.new ≡ T.first tables.old }
    ensures spare { ends.new.spare + 1 ≡ ends.old.spare }
    ensures short { AreShort ends.old.items → AreShort ends.new.items }
    ensures did { (one : Replied) × DidOne (T.opening tables.old) (T.at tables.old) (T.at tables.new) who.old who.new now op
        ends.old.items ends.new.items result one }
{
    let end = end_of(perform(alloc, tables, *who, now, op));
    who.op += 1;
    let failed = fails(&end);
    ends.push_in(end);
    failed
}

/// Does the items one after another. An ordered write stops after the first that failed.
fn write_all<T: TableDesk>(
    alloc: Global,
    tables: &mut T,
    who: &mut Who,
    now: u64,
    ops: List<Op>,
    ordered: bool,
    ends: &mut Room<ItemEnd>,
)
    requires named { All IsNamed ops }
    requires few { length ops ≤ 1000 }
    requires free { T.held tables.old ≡ false }
    requires room { who.old.op < 2 ^ 63 }
    requires spare { length ops ≤ ends.old.spare }
    requires empty { ends.old.items ≡ [] }
    ensures free { T.held tables.new ≡ false }
    ensures opening { T.opening tables.new ≡ T.opening tables.old }
    ensures first { T.first tables.new ≡ T.first tables.old }
    ensures short { AreShort ends.new.items }
    ensures did { (replies : Seq Replied) × DidAll (T.opening tables.old) (T.at tables.old) (T.at tables.new) who.old who.new now
        ordered ops ends.new.items replies }
{
    for op in ops.into_vec() {
        let failed = write_one(alloc, tables, who, now, op, ends);
        if ordered && failed {
            return;
        }
    }
}

/// Does the items of an insert, an update or a delete, and tells of each that failed. All memory that the reply takes is had first: once a
/// document is changed, nothing may fail.
pub(crate) fn write<T: TableDesk>(
    alloc: Global,
    tables: &mut T,
    who: &mut Who,
    now: u64,
    number: i32,
    request: i32,
    update: bool,
    ops: List<Op>,
    ordered: bool,
) -> Answered
    requires named { All IsNamed ops }
    requires few { (1 ≤ length ops) × (length ops ≤ 1000) }
    requires free { T.held tables.old ≡ false }
    requires room { who.old.op < 2 ^ 63 }
    ensures free { T.held tables.new ≡ false }
    ensures opening { T.opening tables.new ≡ T.opening tables.old }
    ensures first { T.first tables.new ≡ T.first tables.old }
    ensures done { (replies : Seq Replied) × DoneAll (T.opening tables.old) (T.at tables.old) (T.at tables.new) who.old who.new now
        number request update ops ordered replies result }
{
    let items = ops.len() as u64;
    let Ok(mut ends) = Room::new(alloc, items) else {
        who.op += 1;
        return Answered::NoMemory;
    };
    let Ok(room) = Room::new(alloc, BEFORE + most_items_size(update, items)) else {
        who.op += 1;
        return Answered::NoMemory;
    };
    write_all(alloc, tables, who, now, ops, ordered, &mut ends);
    Answered::Whole(put_items_reply(number, request, update, ends.items(), room))
}
