ghost use Rattle.std.specs.Prelude.{◌≡◌, ◌≤◌, ◌<◌, ◌^◌, [], false, true, IfOk, None, List as Seq};
ghost use Rattle.naming.specs.Names.{is_valid};
ghost use Rattle.op_msg.specs.Reply.{reply as reply_of};
ghost use Rattle.doc_model.specs.declared.op.OpReply.{OpReply as Replied};
ghost use Rattle.doc_model.specs.Named.{IsNamed, space_of};
ghost use Rattle.doc_effects.specs.Replies.{Fits, FitsDoc, FitsId};
ghost use Rattle.reply_words.specs.Replies.{document_of, modified_document};
ghost use Rattle.reply_words.specs.declared.replies.Reply.TheVariants as told_by;
ghost use Rattle.dispatcher.specs.Answers.{removes};
ghost use Rattle.dispatcher.specs.Answering.{DoneOne, Modifies};

use crate::answers::Answered;
use crate::reading::{NO_BATCH, error, space_of, told};
use crate::telling::{BEFORE, put};
use bson_values::{Bytes, Document, NoMemory, Room, Space, Value};
use case_tables::INTERNAL_ERROR;
use doc_model::{Modify, Op, OpReply};
use doc_store::perform;
use history_lock::Who;
use reply_words::{MOST_MODIFIED_SIZE, put_modified_reply};
use std::alloc::Global;
use table_words::TableDesk;

/// What an answer takes of memory: it is had before the change, behind which nothing may fail.
#[derive(Drop)]
struct Ready {
    space: Space,
    /// For a reply that tells a change.
    room: Room<u8>,
    /// The reply that tells an internal error.
    fault: Bytes,
}

fn prepare(alloc: Global, number: i32, request: i32, op: &Op) -> Result<Ready, NoMemory>
    ensures space { IfOk result (λ it. it.space ≡ space_of op.now) }
    ensures empty { IfOk result (λ it. it.room.items ≡ []) }
    ensures spare { IfOk result (λ it. 16793697 ≤ it.room.spare) }
    ensures fault { IfOk result (λ it. it.fault ≡ reply_of number request (document_of (told_by.Error 1 None))) }
{
    let space = space_of(alloc, op)?;
    let fault = put(alloc, number, request, error(INTERNAL_ERROR))?;
    let room = Room::new(alloc, BEFORE + MOST_MODIFIED_SIZE)?;
    Ok(Ready { space, room, fault })
}

/// Whether the operation is to remove the document that it finds.
fn removes(op: &Op) -> bool
    ensures { result ≡ removes op.now }
{
    matches!(
        op,
        Op::FindAndModify {
            change: Modify::Remove,
            ..
        }
    )
}

/// The bytes that tell a change.
#[tactic(auto, using(crate::proofs::Ids::modified_sent, crate::proofs::Ids::modified_short))]
fn modified(
    number: i32,
    request: i32,
    removed: bool,
    existed: bool,
    upserted: &Option<Value>,
    value: &Option<Document>,
    room: Room<u8>,
) -> Bytes
    requires id { FitsId upserted.now }
    requires doc { FitsDoc value.now }
    requires empty { room.items ≡ [] }
    requires spare { 16793697 ≤ room.spare }
    ensures { result ≡ reply_of number request (modified_document removed existed upserted.now value.now) }
{
    put_modified_reply(number, request, removed, existed, upserted, value, room)
}

/// The answer to an operation that was replied so.
fn told_change(
    alloc: Global,
    number: i32,
    request: i32,
    removed: bool,
    ready: Ready,
    reply: OpReply,
) -> Answered
    requires valid { is_valid ready.space ≡ true }
    requires fits { Fits reply }
    requires empty { ready.room.items ≡ [] }
    requires spare { 16793697 ≤ ready.room.spare }
    requires fault { ready.fault ≡ reply_of number request (document_of (told_by.Error 1 None)) }
    ensures { Modifies number request removed ready.space reply result }
{
    let Ready { space, room, fault } = ready;
    match reply {
        OpReply::Modified {
            existed,
            upserted,
            value,
        } => Answered::Whole(modified(number, request, removed, existed, &upserted, &value, room)),
        OpReply::Inserted => Answered::Whole(fault),
        OpReply::Updated { .. } => Answered::Whole(fault),
        OpReply::Deleted(_) => Answered::Whole(fault),
        OpReply::Fault => Answered::Whole(fault),
        reply => told(alloc, number, request, NO_BATCH, space, reply),
    }
}

/// Removes or changes the first document that a filter holds of, and tells it.
pub(crate) fn modify<T: TableDesk>(
    alloc: Global,
    tables: &mut T,
    who: &mut Who,
    now: u64,
    number: i32,
    request: i32,
    op: Op,
) -> Answered
    requires named { IsNamed op }
    requires free { T.held tables.old ≡ false }
    requires room { who.old.op < 2 ^ 63 }
    ensures free { T.held tables.new ≡ false }
    ensures opening { T.opening tables.new ≡ T.opening tables.old }
    ensures first { T.first tables.new ≡ T.first tables.old }
    ensures done { (replies : Seq Replied) × DoneOne (T.opening tables.old) (T.at tables.old) (T.at tables.new) who.old who.new now
        number request 0 op replies result }
{
    let first = *who;
    who.op += 1;
    let Ok(ready) = prepare(alloc, number, request, &op) else {
        drop(op);
        return Answered::NoMemory;
    };
    let removed = removes(&op);
    let reply = perform(alloc, tables, first, now, op);
    told_change(alloc, number, request, removed, ready, reply)
}
