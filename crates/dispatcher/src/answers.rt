ghost use Rattle.std.specs.Prelude.{◌≡◌, ◌<◌, ◌^◌, false, FitsSigned, option_map};
ghost use Rattle.std.specs.Int.{w32};
ghost use Rattle.dispatcher.specs.Script.{Executed};
ghost use Rattle.dispatcher.specs.Answering.{Dealt, Gave, Refuses};

use crate::commands::done;
use crate::telling::{number_after, put};
use bson_values::Bytes;
use bson_wire::Foreign;
use command_words::{Command, CommandRefused};
use history_lock::Who;
use op_msg::Message;
use reply_words::Reply;
use std::alloc::Global;
use table_words::TableDesk;

/// What a message is answered.
#[derive(Drop)]
pub enum Answered {
    /// The bytes of its reply.
    Whole(Bytes),
    /// Memory was wanting, and it changed nothing: `no_memory` gives the reply.
    NoMemory,
}

/// What a message is answered that asks for nothing that is done.
fn refused(
    alloc: Global,
    number: i32,
    request: i32,
    foreign: Option<u8>,
    why: CommandRefused,
) -> Answered
    ensures { Refuses number request foreign why result }
{
    match why {
        CommandRefused::Refused(kind) => {
            match put(alloc, number, request, Reply::Error { kind, foreign }) {
                Ok(bytes) => Answered::Whole(bytes),
                Err(_) => Answered::NoMemory,
            }
        }
        CommandRefused::NoMemory => Answered::NoMemory,
    }
}

/// The `requestID` of a message.
fn request_of(message: &Message) -> i32
    ensures value { result ≡ message.now.request }
    ensures fits { FitsSigned w32 result }
{
    message.request
}

/// The type byte of a foreign element.
fn code_of(foreign: &Option<Foreign>) -> Option<u8>
    ensures { result ≡ option_map (λ element. element.code) foreign.now }
{
    match foreign {
        Some(element) => Some(element.code),
        None => None,
    }
}

/// Executes a message that comes after so many replies of its connection, at that moment, in milliseconds since 1970-01-01 00:00 UTC.
/// `who` is the first operation of the message, and is set to that of the next: each operation that is tried takes a number, and each
/// message one at least.
pub fn answer<T: TableDesk>(
    alloc: Global,
    tables: &mut T,
    who: &mut Who,
    now: u64,
    replies: u64,
    message: Message,
) -> Answered
    requires free { T.held tables.old ≡ false }
    requires room { who.old.op < 2 ^ 63 }
    ensures free { T.held tables.new ≡ false }
    ensures opening { T.opening tables.new ≡ T.opening tables.old }
    ensures first { T.first tables.new ≡ T.first tables.old }
    ensures dealt { (t : Executed) × Dealt (T.opening tables.old) (T.at tables.old) (T.at tables.new) who.old who.new now message t
        × Gave replies t result }
{
    let number = number_after(replies);
    let request = request_of(&message);
    let foreign = code_of(&message.foreign);
    match Command::read(alloc, message) {
        Ok(command) => done(alloc, tables, who, now, number, request, command),
        Err(why) => {
            who.op += 1;
            refused(alloc, number, request, foreign, why)
        }
    }
}
