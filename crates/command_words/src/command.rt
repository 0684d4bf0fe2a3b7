ghost use Rattle.std.specs.Prelude.{◌≡◌, map, IfOk, OnOk, None, IfErr};
ghost use Rattle.doc_model.specs.declared.op.Op.TheVariants as op;
ghost use Rattle.command_words.specs.declared.word.Word.TheVariants as word;
ghost use Rattle.command_words.specs.Meaning.{meaning, space_of, query_in, command_of, AreNamed, AreFew};
ghost use Rattle.command_words.specs.Refusal.{refusal, Tells};
ghost use Rattle.command_words.specs.Told.{Gives};

use crate::body::{coll_of, db_of};
use crate::documents::documents_named;
use crate::operands::{
    batch_in, count_in, cut_in, filter_in, order_in, path_in, shape_in, truth_or,
};
use crate::refusal::asked;
use crate::refused::CommandRefused;
use crate::word::Word;
use crate::writes::{change_in, deletes_of, updates_of};
use bson_values::{Document, List, NoMemory, Space, Text};
use doc_model::{Op, Query};
use op_msg::Message;
use std::alloc::Global;

/// What a message asks for.
#[derive(Drop)]
pub enum Command {
    Ping,
    /// Documents are inserted in order; where `ordered`, none behind one that is refused.
    Insert { ops: List<Op>, ordered: bool },
    /// Likewise, an operation an item.
    Update { ops: List<Op>, ordered: bool },
    Delete { ops: List<Op>, ordered: bool },
    FindAndModify { op: Op },
    /// `batch`: the most documents of the first batch.
    Find { op: Op, batch: u64 },
    Count { op: Op },
    Distinct { op: Op },
}

impl Command {
    /// The command that the message means. The documents of an insert come out of the message, the names of its space are copied.
    #[tactic(auto, using(crate::proofs::Reading::by_clause))]
    pub fn read(alloc: Global, message: Message) -> Result<Command, CommandRefused>
        ensures accepted { OnOk result (refusal message ≡ None) }
        ensures means { IfOk result (λ command. command ≡ command_of message) }
        ensures refused { IfErr result (λ why. Tells why message) }
        // No operation is on a space whose names none has.
        ensures named { IfOk result AreNamed }
        ensures few { IfOk result AreFew }
    {
        match asked(alloc, &message) {
            Ok(word) => meant(alloc, word, message),
            Err(why) => Err(why),
        }
    }
}

#[tactic(auto, unfolding(crate::specs::Meaning::space_of))]
fn space_of(alloc: Global, message: &Message) -> Result<Space, NoMemory>
    ensures { IfOk result (λ it. it ≡ space_of message.now) }
{
    let db = Text::of(alloc, db_of(message))?;
    let coll = Text::of(alloc, coll_of(message))?;
    Ok(Space { db, coll })
}

/// An insert of each of the documents.
fn inserts(alloc: Global, space: &Space, docs: List<Document>) -> Result<List<Op>, NoMemory>
    ensures { IfOk result (λ ops. ops ≡ map (op.Insert space.now) docs) }
{
    let mut ops = List::new(alloc);
    for doc in docs.into_vec() {
        let space = space.copy(alloc)?;
        ops.add(Op::Insert { space, doc })?;
    }
    Ok(ops)
}

fn insert(alloc: Global, message: Message) -> Result<Command, CommandRefused>
    ensures { Gives result (meaning word.Insert message) }
{
    let space = space_of(alloc, &message)?;
    let ordered = truth_or(true, &message.body, "ordered");
    let docs = documents_named(alloc, message, "documents")?;
    let ops = inserts(alloc, &space, docs)?;
    Ok(Command::Insert { ops, ordered })
}

fn update(alloc: Global, message: Message) -> Result<Command, CommandRefused>
    ensures { Gives result (meaning word.Update message) }
{
    let space = space_of(alloc, &message)?;
    let ordered = truth_or(true, &message.body, "ordered");
    let items = documents_named(alloc, message, "updates")?;
    let ops = updates_of(alloc, &space, items.as_slice())?;
    Ok(Command::Update { ops, ordered })
}

fn delete(alloc: Global, message: Message) -> Result<Command, CommandRefused>
    ensures { Gives result (meaning word.Delete message) }
{
    let space = space_of(alloc, &message)?;
    let ordered = truth_or(true, &message.body, "ordered");
    let items = documents_named(alloc, message, "deletes")?;
    let ops = deletes_of(alloc, &space, items.as_slice())?;
    Ok(Command::Delete { ops, ordered })
}

fn find_and_modify(alloc: Global, message: &Message) -> Result<Command, CommandRefused>
    ensures { Gives result (meaning word.FindAndModify message.now) }
{
    let space = space_of(alloc, message)?;
    let filter = filter_in(alloc, &message.body, "query")?;
    let order = match order_in(alloc, &message.body, "sort") {
        Ok(order) => order,
        Err(why) => {
            drop(filter);
            return Err(why);
        }
    };
    let change = match change_in(alloc, &message.body) {
        Ok(change) => change,
        Err(why) => {
            drop(filter);
            return Err(why);
        }
    };
    match shape_in(alloc, &message.body, "fields") {
        Ok(shape) => Ok(Command::FindAndModify {
            op: Op::FindAndModify {
                space,
                filter,
                order,
                change,
                fresh: truth_or(false, &message.body, "new"),
                upsert: truth_or(false, &message.body, "upsert"),
                shape,
            },
        }),
        Err(why) => {
            drop(filter);
            drop(change);
            Err(why)
        }
    }
}

/// What a find shows.
fn query_in(alloc: Global, body: &Document) -> Result<Query, CommandRefused>
    ensures { Gives result (query_in body.now) }
{
    let filter = filter_in(alloc, body, "filter")?;
    let order = order_in(alloc, body, "sort")?;
    let shape = shape_in(alloc, body, "projection")?;
    Ok(Query {
        filter,
        order,
        skip: count_in(body, "skip"),
        limit: count_in(body, "limit"),
        shape,
        cut: cut_in(body),
    })
}

fn find(alloc: Global, message: &Message) -> Result<Command, CommandRefused>
    ensures { Gives result (meaning word.Find message.now) }
{
    let space = space_of(alloc, message)?;
    let query = query_in(alloc, &message.body)?;
    Ok(Command::Find {
        op: Op::Find { space, query },
        batch: batch_in(&message.body),
    })
}

fn count(alloc: Global, message: &Message) -> Result<Command, CommandRefused>
    ensures { Gives result (meaning word.Count message.now) }
{
    let space = space_of(alloc, message)?;
    let filter = filter_in(alloc, &message.body, "query")?;
    let skip = count_in(&message.body, "skip");
    let limit = count_in(&message.body, "limit");
    Ok(Command::Count {
        op: Op::Count {
            space,
            filter,
            skip,
            limit,
        },
    })
}

fn distinct(alloc: Global, message: &Message) -> Result<Command, CommandRefused>
    ensures { Gives result (meaning word.Distinct message.now) }
{
    let space = space_of(alloc, message)?;
    let path = path_in(alloc, &message.body, "key")?;
    let filter = filter_in(alloc, &message.body, "query")?;
    Ok(Command::Distinct {
        op: Op::Distinct {
            space,
            path,
            filter,
        },
    })
}

/// What the message means as that command.
fn meant(alloc: Global, by: Word, message: Message) -> Result<Command, CommandRefused>
    ensures { Gives result (meaning by message) }
{
    match by {
        Word::Ping => Ok(Command::Ping),
        Word::Insert => insert(alloc, message),
        Word::Update => update(alloc, message),
        Word::Delete => delete(alloc, message),
        Word::FindAndModify => find_and_modify(alloc, &message),
        Word::Find => find(alloc, &message),
        Word::Count => count(alloc, &message),
        Word::Distinct => distinct(alloc, &message),
    }
}
