ghost use Rattle.std.specs.Prelude.{◌≡◌, ◌<◌, ◌^◌, false, true, IfOk, IfSome, None, List as Seq};
ghost use Rattle.naming.specs.Names.{is_valid};
ghost use Rattle.doc_model.specs.declared.op.OpReply.{OpReply as Replied};
ghost use Rattle.doc_model.specs.Named.{IsNamed, IsRead, space_of};
ghost use Rattle.doc_effects.specs.Replies.{Fits};
ghost use Rattle.reply_words.specs.Small.{IsSmall};
ghost use Rattle.reply_words.specs.declared.replies.Reply.TheVariants as reply;
ghost use Rattle.doc_model.specs.declared.op.OpReply.TheVariants as replied;
ghost use Rattle.dispatcher.specs.Answers.{told};
ghost use Rattle.dispatcher.specs.Answering.{DoneOne, Reads, Tellable};

use crate::answers::Answered;
use crate::telling::put;
use bson_values::{Document, List, NoMemory, Space};
use case_tables::{INTERNAL_ERROR, Kind, NOT_SUPPORTED};
use doc_model::{Op, OpReply};
use doc_store::perform;
use history_lock::Who;
use reply_words::{Reply, fit_a_batch};
use std::alloc::Global;
use table_words::TableDesk;

/// The size of the first batch of a command that shows no documents.
pub(crate) const NO_BATCH: u64 = 0;

/// The collection of an operation.
pub(crate) fn space_of(alloc: Global, op: &Op) -> Result<Space, NoMemory>
    ensures { IfOk result (λ space. space ≡ space_of op.now) }
{
    match op {
        Op::Insert { space, .. } => space.copy(alloc),
        Op::Find { space, .. } => space.copy(alloc),
        Op::Count { space, .. } => space.copy(alloc),
        Op::Distinct { space, .. } => space.copy(alloc),
        Op::Update { space, .. } => space.copy(alloc),
        Op::Delete { space, .. } => space.copy(alloc),
        Op::FindAndModify { space, .. } => space.copy(alloc),
    }
}

pub(crate) fn error(kind: Kind) -> Reply
    ensures value { result ≡ reply.Error kind None }
    ensures small { IsSmall result }
{
    Reply::Error {
        kind,
        foreign: None,
    }
}

/// What tells documents that were found, at most `most` in the first batch. So far it is refused where they do not go into that one.
#[tactic(auto, using(crate::proofs::Sending::is_short))]
fn batch(most: u64, space: Space, docs: List<Document>) -> Reply
    requires { is_valid space ≡ true }
    ensures told { result ≡ told most space (replied.Selected docs) }
    ensures small { IsSmall result }
{
    if fit_a_batch(most, docs.as_slice()) {
        Reply::Batch { space, docs }
    } else {
        error(NOT_SUPPORTED)
    }
}

/// What tells the reply of an operation in that collection that changed nothing; nothing, where memory was wanting.
fn found(most: u64, space: Space, reply: OpReply) -> Option<Reply>
    requires valid { is_valid space ≡ true }
    requires fits { Fits reply }
    ensures told { Tellable most space reply result }
    ensures small { IfSome result IsSmall }
{
    match reply {
        OpReply::Selected(docs) => Some(batch(most, space, docs)),
        OpReply::Counted(n) => Some(Reply::Counted { n }),
        OpReply::Values(values) => Some(Reply::Values { values }),
        OpReply::Refused(kind) => Some(error(kind)),
        OpReply::NoMemory => None,
        _ => Some(error(INTERNAL_ERROR)),
    }
}

/// The answer to an operation that was replied so, and changed nothing: of documents at most `most` in the first batch.
pub(crate) fn told(
    alloc: Global,
    number: i32,
    request: i32,
    most: u64,
    space: Space,
    reply: OpReply,
) -> Answered
    requires valid { is_valid space ≡ true }
    requires fits { Fits reply }
    ensures { Reads most number request space reply result }
{
    let Some(told) = found(most, space, reply) else {
        return Answered::NoMemory;
    };
    match put(alloc, number, request, told) {
        Ok(bytes) => Answered::Whole(bytes),
        Err(NoMemory) => Answered::NoMemory,
    }
}

/// Reads documents, and answers with what was asked of them: `most` is how many documents may be in the first batch.
pub(crate) fn read<T: TableDesk>(
    alloc: Global,
    tables: &mut T,
    who: &mut Who,
    now: u64,
    number: i32,
    request: i32,
    most: u64,
    op: Op,
) -> Answered
    requires named { IsNamed op }
    requires reads { IsRead op }
    requires free { T.held tables.old ≡ false }
    requires room { who.old.op < 2 ^ 63 }
    ensures free { T.held tables.new ≡ false }
    ensures opening { T.opening tables.new ≡ T.opening tables.old }
    ensures first { T.first tables.new ≡ T.first tables.old }
    ensures done { (replies : Seq Replied) × DoneOne (T.opening tables.old) (T.at tables.old) (T.at tables.new) who.old who.new now
        number request most op replies result }
{
    let first = *who;
    who.op += 1;
    let Ok(space) = space_of(alloc, &op) else {
        drop(op);
        return Answered::NoMemory;
    };
    let reply = perform(alloc, tables, first, now, op);
    told(alloc, number, request, most, space, reply)
}
