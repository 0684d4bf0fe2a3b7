ghost use Rattle.std.specs.Prelude.{◌≡◌, ◌<◌, ◌+◌, ◌^◌, [], false, List as Seq};
ghost use Rattle.doc_model.specs.declared.op.OpReply.{OpReply as Replied};
ghost use Rattle.command_words.specs.Meaning.{AreFew, AreNamed};
ghost use Rattle.command_words.specs.declared.command.Command.TheVariants as command;
ghost use Rattle.dispatcher.specs.Answering.{DoneBy, Told};

use crate::answers::Answered;
use crate::modifying::modify;
use crate::reading::{NO_BATCH, read};
use crate::telling::put;
use crate::writing::write;
use command_words::Command;
use history_lock::Who;
use reply_words::Reply;
use std::alloc::Global;
use table_words::TableDesk;

/// A command without operations.
fn ping(alloc: Global, who: &mut Who, number: i32, request: i32) -> Answered
    requires room { who.old.op < 2 ^ 63 }
    ensures next { who.new ≡ record who.old { op = who.old.op + 1 } }
    ensures told { Told command.Ping number request [] result }
{
    who.op += 1;
    match put(alloc, number, request, Reply::Done) {
        Ok(bytes) => Answered::Whole(bytes),
        Err(_) => Answered::NoMemory,
    }
}

/// Does what a command asks for.
pub(crate) fn done<T: TableDesk>(
    alloc: Global,
    tables: &mut T,
    who: &mut Who,
    now: u64,
    number: i32,
    request: i32,
    command: Command,
) -> Answered
    requires named { AreNamed command }
    requires few { AreFew command }
    requires free { T.held tables.old ≡ false }
    requires room { who.old.op < 2 ^ 63 }
    ensures free { T.held tables.new ≡ false }
    ensures opening { T.opening tables.new ≡ T.opening tables.old }
    ensures first { T.first tables.new ≡ T.first tables.old }
    ensures done { (replies : Seq Replied) × DoneBy (T.opening tables.old) (T.at tables.old) (T.at tables.new) who.old who.new now
        number request command replies result }
{
    match command {
        Command::Ping => ping(alloc, who, number, request),
        Command::Insert { ops, ordered } => {
            write(
                alloc, tables, who, now, number, request, false, ops, ordered,
            )
        }
        Command::Update { ops, ordered } => {
            write(alloc, tables, who, now, number, request, true, ops, ordered)
        }
        Command::Delete { ops, ordered } => {
            write(
                alloc, tables, who, now, number, request, false, ops, ordered,
            )
        }
        Command::FindAndModify { op } => modify(alloc, tables, who, now, number, request, op),
        Command::Find { op, batch } => read(alloc, tables, who, now, number, request, batch, op),
        Command::Count { op } => read(alloc, tables, who, now, number, request, NO_BATCH, op),
        Command::Distinct { op } => read(alloc, tables, who, now, number, request, NO_BATCH, op),
    }
}
