ghost use Rattle.std.specs.Prelude.{◌≡◌, ◌≤◌, ◌<◌, ◌==◌, ◌+◌, ◌^◌, ℕ, false, if◌then◌else◌, List, length, take, drop, OnOk, OnErr};
ghost use Rattle.outside.specs.Told.{Grows};
ghost use Rattle.outside.specs.Causes.{HasCause};
ghost use Rattle.doc_server.specs.Talk.{scene, Talks, Faults};
ghost use Rattle.doc_server.specs.Ending.{Ending};
ghost use Rattle.doc_server.specs.Steps.{Fetches, Moves, Answers, Sends, end_of, fault_of};

use crate::why::Why;
use dispatcher::{Answered, answer, no_memory};
use history_lock::Who;
use op_msg::{Message, Taken, take};
use outside::{Failed, Link};
use std::alloc::Global;
use std_words::{head, tail};
use table_words::TableDesk;

/// A connection that was served to its end.
#[derive(Drop)]
pub struct Ended<L> {
    /// The number of the worker that served it.
    pub seat: u64,
    /// Its number with that worker.
    pub number: u64,
    pub link: L,
    pub why: Why,
    /// How many messages were executed.
    pub commands: u64,
    /// How many of them were not to be answered and lost something for want of memory.
    pub lost: u64,
}

/// The most bytes that one read asks for.
const PIECE: usize = 65_536;

/// The most bytes that are read of one connection.
const LIMIT: u64 = 1 << 40;

/// How a conversation ended, and how many messages were executed in it.
#[derive(Drop)]
struct Said {
    why: Why,
    commands: u64,
}

impl Said {
    fn of(why: Why, commands: u64) -> Said
        ensures why { result.why ≡ why }
        ensures commands { result.commands ≡ commands }
    {
        Said { why, commands }
    }
}

fn write_all<L: Link>(link: &mut L, bytes: &[u8]) -> Result<(), Failed>
    ensures taken { L.taken link.new ≡ L.taken link.old }
    ensures left { L.left link.new ≡ L.left link.old }
    ensures moments { L.moments link.new ≡ L.moments link.old }
    ensures read_faults { L.read_faults link.new ≡ L.read_faults link.old }
    ensures ok { OnOk result (Grows (L.written link.old) (L.written link.new) bytes.now) }
    ensures err { OnErr result ((sent : ℕ)
        × Grows (L.written link.old) (L.written link.new) (take sent bytes.now)) }
    ensures cause { HasCause (L.write_faults link.old) (L.write_faults link.new) result }
{
    let mut sent = 0;
    while sent < bytes.len() {
        let count = link.write(tail(bytes, sent))?;
        sent += count;
    }
    Ok(())
}

/// The end of an input of whose last message so many bytes came.
fn at_end(len: usize) -> Why
    ensures { result ≡ (if len == 0 then Why.Closed else Why.Truncated len) }
{
    if len == 0 {
        Why::Closed
    } else {
        Why::Truncated(len as u64)
    }
}

/// Takes the first `len` bytes away. The others are moved only where there are such.
fn drop_front(buffer: &mut Vec<u8>, len: usize)
    requires { len ≤ length buffer.old.items }
    ensures { buffer.new.items ≡ drop len buffer.old.items }
{
    if len > 0 {
        buffer.drain(..len);
    }
}

/// Reads one piece more to the end of the buffer, and answers how many bytes came. So many as
/// `count` came before.
fn fetch<L: Link>(
    link: &mut L,
    buffer: &mut Vec<u8>,
    piece: &mut [u8],
    count: u64,
) -> Result<u64, Why>
    requires room { 0 < length piece.old }
    requires limit { count ≤ 2 ^ 40 }
    ensures fetches { (piece : List ℕ) × Moves
        (scene (L.taken link.old) (L.left link.old) (L.written link.old) (L.moments link.old))
        (scene (L.taken link.new) (L.left link.new) (L.written link.new) (L.moments link.new)) piece
        × Fetches result piece count buffer.old.items buffer.new.items (L.left link.new) }
    ensures faults { Faults (end_of result) (L.read_faults link.old) (L.read_faults link.new)
        (L.write_faults link.old) (L.write_faults link.new) }
{
    if count >= LIMIT {
        return Err(Why::Long);
    }
    let room = (LIMIT - count).min(piece.len() as u64) as usize;
    let Ok(came) = link.read(&mut piece[..room]) else {
        return Err(Why::ReadFault);
    };
    if came == 0 {
        return Err(at_end(buffer.len()));
    }
    match buffer.extend_from_slice(head(piece, came)) {
        Ok(()) => Ok(came as u64),
        Err(_) => Err(Why::NoMemory),
    }
}

/// What became of the answer to a message.
#[derive(Drop)]
enum Replied {
    Sent,
    /// A front of it may have been written.
    WriteFault,
}

fn send<L: Link>(link: &mut L, bytes: &[u8]) -> Replied
    ensures sends { Sends result (L.written link.old) (L.written link.new) bytes.now }
    ensures taken { L.taken link.new ≡ L.taken link.old }
    ensures left { L.left link.new ≡ L.left link.old }
    ensures moments { L.moments link.new ≡ L.moments link.old }
    ensures faults { Faults (fault_of result) (L.read_faults link.old) (L.read_faults link.new)
        (L.write_faults link.old) (L.write_faults link.new) }
{
    match write_all(link, bytes) {
        Ok(()) => Replied::Sent,
        Err(Failed) => Replied::WriteFault,
    }
}

/// Executes a message that comes after so many replies, and writes its answer.
fn reply_to<L: Link, T: TableDesk>(
    alloc: Global,
    link: &mut L,
    tables: &mut T,
    who: &mut Who,
    replies: u64,
    message: Message,
) -> Replied
    requires free { T.held tables.old ≡ false }
    requires room { who.old.op < 2 ^ 63 }
    ensures free { T.held tables.new ≡ false }
    ensures opening { T.opening tables.new ≡ T.opening tables.old }
    ensures first { T.first tables.new ≡ T.first tables.old }
    ensures answers { Answers (T.opening tables.old) result message replies
        (scene (L.taken link.old) (L.left link.old) (L.written link.old) (L.moments link.old))
        (scene (L.taken link.new) (L.left link.new) (L.written link.new) (L.moments link.new))
        (T.at tables.old) (T.at tables.new) who.old who.new }
    ensures taken { L.taken link.new ≡ L.taken link.old }
    ensures left { L.left link.new ≡ L.left link.old }
    ensures faults { Faults (fault_of result) (L.read_faults link.old) (L.read_faults link.new)
        (L.write_faults link.old) (L.write_faults link.new) }
{
    let now = link.now();
    let request = message.request;
    match answer(alloc, tables, who, now, replies, message) {
        Answered::Whole(bytes) => send(link, bytes.as_slice()),
        Answered::NoMemory => send(link, &no_memory(replies, request)),
    }
}

/// Answers each message as soon as it is whole, until the link or the memory ends it.
fn converse<L: Link, T: TableDesk>(
    alloc: Global,
    link: &mut L,
    seat: u64,
    number: u64,
    tables: &mut T,
) -> Said
    requires { T.held tables.old ≡ false }
    ensures free { T.held tables.new ≡ false }
    ensures opening { T.opening tables.new ≡ T.opening tables.old }
    ensures first { T.first tables.new ≡ T.first tables.old }
    ensures talks { Talks (T.opening tables.old) seat number
        (scene (L.taken link.old) (L.left link.old) (L.written link.old) (L.moments link.old))
        (scene (L.taken link.new) (L.left link.new) (L.written link.new) (L.moments link.new))
        (T.at tables.old) (T.at tables.new) result.why result.commands }
    ensures ends { Ending
        (scene (L.taken link.old) (L.left link.old) (L.written link.old) (L.moments link.old))
        (scene (L.taken link.new) (L.left link.new) (L.written link.new) (L.moments link.new)) result.why }
    ensures faults { Faults result.why (L.read_faults link.old) (L.read_faults link.new)
        (L.write_faults link.old) (L.write_faults link.new) }
{
    let mut who = Who {
        seat,
        link: number,
        op: 0,
    };
    let mut buffer = Vec::new(alloc);
    let mut used = 0;
    let mut count = 0;
    let mut commands = 0;
    let mut piece = [0u8; PIECE];
    loop {
        match take(alloc, tail(&buffer, used)) {
            Taken::Whole { message, used: len } => {
                match reply_to(alloc, link, tables, &mut who, commands, message) {
                    Replied::Sent => {}
                    Replied::WriteFault => return Said::of(Why::WriteFault, commands + 1),
                }
                used += len as usize;
                commands += 1;
            }
            Taken::Short => {
                drop_front(&mut buffer, used);
                used = 0;
                match fetch(link, &mut buffer, &mut piece, count) {
                    Ok(came) => count += came,
                    Err(why) => return Said::of(why, commands),
                }
            }
            Taken::Bad { kind, place } => return Said::of(Why::BadFrame(kind, place), commands),
            Taken::NoMemory => return Said::of(Why::NoMemory, commands),
        }
    }
}

/// Serves one connection to its end, as the `number`th of the worker `seat`, at its desk.
pub fn serve_link<L: Link, T: TableDesk>(
    alloc: Global,
    mut link: L,
    seat: u64,
    number: u64,
    tables: &mut T,
) -> Ended<L>
    requires { T.held tables.old ≡ false }
    ensures free { T.held tables.new ≡ false }
    ensures opening { T.opening tables.new ≡ T.opening tables.old }
    ensures first { T.first tables.new ≡ T.first tables.old }
    ensures names { (result.seat ≡ seat) × (result.number ≡ number) }
    ensures talks { Talks (T.opening tables.old) seat number
        (scene (L.taken link) (L.left link) (L.written link) (L.moments link))
        (scene (L.taken result.link) (L.left result.link) (L.written result.link) (L.moments result.link))
        (T.at tables.old) (T.at tables.new) result.why result.commands }
    ensures ends { Ending (scene (L.taken link) (L.left link) (L.written link) (L.moments link))
        (scene (L.taken result.link) (L.left result.link) (L.written result.link) (L.moments result.link)) result.why }
    ensures faults { Faults result.why (L.read_faults link) (L.read_faults result.link)
        (L.write_faults link) (L.write_faults result.link) }
    ensures lost { result.lost ≡ 0 }
{
    let said = converse(alloc, &mut link, seat, number, tables);
    link.shut();
    Ended {
        seat,
        number,
        link,
        why: said.why,
        commands: said.commands,
        lost: 0,
    }
}
