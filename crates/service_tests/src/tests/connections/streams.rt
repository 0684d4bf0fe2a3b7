ghost use Rattle.std.specs.Prelude.{◌≡◌, ◌≤◌, false, Some, IfOk, IsSome};
ghost use Rattle.outside.specs.MemoryLink.{IsFreshMemoryLink};
ghost use Rattle.outside.specs.Source.{moments_of};

use bson_values::{Bytes, List, NoMemory};
use doc_server::{Ended, Finished, Why, ferret, serve_link};
use history_lock::Solo;
use outside::{Bad, Failed, Gate, Kept, Link, MemoryLink, MemoryWorld, SureKeeper};
use shared_books::SoloTables;
use std::alloc::Global;
use std::test::Fail;
use table_store::Tables;

/// `{ping: 1, $db: "admin"}` with requestID 1.
pub(crate) const PING: [u8; 51] = [
    0x33, 0, 0, 0, 1, 0, 0, 0, 0, 0, 0, 0, 0xdd, 7, 0, 0, 0, 0, 0, 0, 0, 0x1e, 0, 0, 0, 0x10, 0x70,
    0x69, 0x6e, 0x67, 0, 1, 0, 0, 0, 2, 0x24, 0x64, 0x62, 0, 6, 0, 0, 0, 0x61, 0x64, 0x6d, 0x69,
    0x6e, 0, 0,
];

/// `{ok: 1}`, the first reply, to requestID 1.
pub(crate) const OK: [u8; 34] = [
    0x22, 0, 0, 0, 1, 0, 0, 0, 1, 0, 0, 0, 0xdd, 7, 0, 0, 0, 0, 0, 0, 0, 0xd, 0, 0, 0, 0x10, 0x6f,
    0x6b, 0, 1, 0, 0, 0, 0,
];

/// `{pong: 1, $db: "a"}` with requestID 7.
static PONG: [u8; 47] = [
    0x2f, 0, 0, 0, 7, 0, 0, 0, 0, 0, 0, 0, 0xdd, 7, 0, 0, 0, 0, 0, 0, 0, 0x1a, 0, 0, 0, 0x10, 0x70,
    0x6f, 0x6e, 0x67, 0, 1, 0, 0, 0, 2, 0x24, 0x64, 0x62, 0, 2, 0, 0, 0, 0x61, 0, 0,
];

/// `{ok: 0, errmsg: "no such command", code: 59, codeName: "CommandNotFound"}`, the first reply, to
/// requestID 7.
pub(crate) const NOT_FOUND: [u8; 102] = [
    0x66, 0, 0, 0, 1, 0, 0, 0, 7, 0, 0, 0, 0xdd, 7, 0, 0, 0, 0, 0, 0, 0, 0x51, 0, 0, 0, 0x10, 0x6f,
    0x6b, 0, 0, 0, 0, 0, 2, 0x65, 0x72, 0x72, 0x6d, 0x73, 0x67, 0, 0x10, 0, 0, 0, 0x6e, 0x6f, 0x20,
    0x73, 0x75, 0x63, 0x68, 0x20, 0x63, 0x6f, 0x6d, 0x6d, 0x61, 0x6e, 0x64, 0, 0x10, 0x63, 0x6f,
    0x64, 0x65, 0, 0x3b, 0, 0, 0, 2, 0x63, 0x6f, 0x64, 0x65, 0x4e, 0x61, 0x6d, 0x65, 0, 0x10, 0, 0,
    0, 0x43, 0x6f, 0x6d, 0x6d, 0x61, 0x6e, 0x64, 0x4e, 0x6f, 0x74, 0x46, 0x6f, 0x75, 0x6e, 0x64, 0,
    0,
];

pub(super) fn numbers(alloc: Global, numbers: &[u64]) -> Result<List<u64>, NoMemory> {
    Ok(List::from_vec(Vec::from_slice(alloc, numbers)?))
}

/// A link over the input, whose reads are cut to `cut` bytes each.
fn link(
    alloc: Global,
    input: &[u8],
    cut: u64,
    bad_reads: &[u64],
    bad_writes: &[u64],
) -> Result<MemoryLink, NoMemory>
    ensures { IfOk result IsFreshMemoryLink }
{
    let input = Bytes::of(alloc, input)?;
    let cuts = List::from_vec(vec![in alloc; cut; 120]?);
    let bad_reads = numbers(alloc, bad_reads)?;
    let bad_writes = numbers(alloc, bad_writes)?;
    let moments = List::new(alloc);
    Ok(MemoryLink::new(alloc, input, cuts, bad_reads, bad_writes, moments))
}

/// A world over the link, with no tables.
fn world(alloc: Global, link: MemoryLink) -> Result<MemoryWorld, NoMemory>
    requires { IsFreshMemoryLink link }
    ensures { IfOk result (λ world. IsSome world.console) }
{
    let tables = Kept {
        tables: List::new(alloc),
    };
    let bad = Bad {
        keeps: List::new(alloc),
        applies: List::new(alloc),
    };
    MemoryWorld::new(alloc, link, tables, bad)
}

/// What a run of the program came to.
#[derive(Drop)]
pub(crate) struct Ending {
    pub status: u8,
    pub commands: u64,
    pub written: Bytes,
}

pub(crate) fn outcome(
    alloc: Global,
    words: &[&str],
    input: &[u8],
    cut: u64,
    bad_reads: &[u64],
    bad_writes: &[u64],
) -> Result<Ending, Fail> {
    let mut line = Vec::new(alloc);
    for word in words {
        line.push(String::from_str(alloc, word)?)?;
    }
    let mut world = world(alloc, link(alloc, input, cut, bad_reads, bad_writes)?)?;
    let Finished {
        status,
        console,
        ..
    } = ferret(alloc, &line, &mut world);
    came_to(alloc, status, console)
}

fn came_to(alloc: Global, status: u8, console: Option<Ended<MemoryLink>>) -> Result<Ending, Fail> {
    let Some(ended) = console else {
        return Ok(Ending {
            status,
            commands: 0,
            written: Bytes::new(alloc),
        });
    };
    let written = Bytes::of(alloc, ended.link.written().unwrap_or(b"untold"))?;
    Ok(Ending {
        status,
        commands: ended.commands,
        written,
    })
}

/// What `pipe` came to over an input that is not cut.
pub(crate) fn piped(alloc: Global, input: &[u8]) -> Result<Ending, Fail> {
    outcome(alloc, &["pipe"], input, 65_536, &[], &[])
}

pub(crate) fn joined(alloc: Global, pieces: &[&[u8]]) -> Result<Bytes, NoMemory> {
    let mut bytes = Bytes::new(alloc);
    for piece in pieces {
        bytes.extend(piece)?;
    }
    Ok(bytes)
}

#[test]
fn each_input_has_its_status_and_its_answers(rt: HostRuntime) -> Result<(), Fail> {
    let rows: [(&str, &[u8], u8, u64, &[u8]); 6] = [
        ("a ping", &PING, 0, 1, &OK),
        ("all but its last byte", &PING[..50], 6, 0, &[]),
        ("nothing", &[], 0, 0, &[]),
        ("one byte", b"x", 6, 0, &[]),
        ("no such command", &PONG, 0, 1, &NOT_FOUND),
        ("a length of 15", &[15, 0, 0, 0], 7, 0, &[]),
    ];
    for (name, input, status, commands, written) in rows {
        let came = piped(rt.alloc(), input)?;
        let told = (came.status, came.commands, came.written.as_slice());
        assert_eq!(rt; told, (status, commands, written), "{name}");
    }
    Ok(())
}

#[test]
fn other_words_are_bad(rt: HostRuntime) -> Result<(), Fail> {
    let rows: [&[&str]; 4] = [&[], &["pong"], &["pipe", "pipe"], &["pip"]];
    for words in rows {
        let came = outcome(rt.alloc(), words, &PING, 65_536, &[], &[])?;
        assert_eq!(rt; (came.status, came.written.len()), (1, 0));
    }
    Ok(())
}

#[test]
fn a_failed_read_ends_the_connection_at_once(rt: HostRuntime) -> Result<(), Fail> {
    for read in 0..=51 {
        let came = outcome(rt.alloc(), &["pipe"], &PING, 1, &[read], &[])?;
        // Behind the last byte of the message its answer is out before the next read.
        let len = if read == 51 { 34 } else { 0 };
        assert_eq!(rt; (came.status, came.written.len()), (8, len), "read {read}");
    }
    Ok(())
}

#[test]
fn a_failed_write_ends_the_connection_at_once(rt: HostRuntime) -> Result<(), Fail> {
    let input = joined(rt.alloc(), &[&PING, &PING])?;
    for (write, len) in [(0, 0), (1, 34)] {
        let came = outcome(
            rt.alloc(),
            &["pipe"],
            input.as_slice(),
            65_536,
            &[],
            &[write],
        )?;
        let told = (came.status, came.commands, came.written.len());
        assert_eq!(rt; told, (4, write + 1, len), "write {write}");
    }
    Ok(())
}

/// The bytes of a document of so many levels: the innermost is empty, and each other has one field of empty name.
pub(super) fn chain(alloc: Global, levels: u32) -> Result<Bytes, NoMemory>
    requires some { 1 ≤ levels }
    requires few { levels ≤ 1000 }
{
    let size = 7 * levels - 2;
    let mut bytes = Bytes::new(alloc);
    for level in 1..levels {
        bytes.extend(&(size - 7 * (level - 1)).to_le_bytes())?;
        bytes.extend(&[3, 0])?;
    }
    bytes.extend(&[5, 0, 0, 0, 0])?;
    for _ in 1..levels {
        bytes.extend(&[0])?;
    }
    Ok(bytes)
}

/// A message with that document as its body.
fn nested(alloc: Global, levels: u32) -> Result<Bytes, NoMemory>
    requires some { 1 ≤ levels }
    requires few { levels ≤ 1000 }
{
    let body = chain(alloc, levels)?;
    let header = [1, 0, 0, 0, 0, 0, 0, 0, 0xdd, 7, 0, 0, 0, 0, 0, 0, 0];
    joined(
        alloc,
        &[&(7 * levels + 19).to_le_bytes(), &header, body.as_slice()],
    )
}

/// A body whose field `b` is the bool 02.
static BOOL_02: [u8; 30] = [
    0x1e, 0, 0, 0, 1, 0, 0, 0, 0, 0, 0, 0, 0xdd, 7, 0, 0, 0, 0, 0, 0, 0, 9, 0, 0, 0, 8, 0x62, 0, 2,
    0,
];

/// A desk at no tables, in memory.
fn desk(alloc: Global) -> Result<SoloTables<SureKeeper>, NoMemory>
    ensures { IfOk result (λ desk. desk.held ≡ false) }
{
    let tables = Kept {
        tables: List::new(alloc),
    };
    let Ok(tables) = Tables::load(alloc, SureKeeper::new(alloc, tables)?) else {
        return Err(NoMemory);
    };
    // It tells that the tables are sound.
    tables.len();
    match Solo::new(alloc, tables) {
        Ok(solo) => Ok(SoloTables::new(solo)),
        Err(_) => Err(NoMemory),
    }
}

/// How a connection over that input ends, behind a ping.
fn end_behind_a_ping(alloc: Global, input: &[u8]) -> Result<Why, NoMemory> {
    let input = joined(alloc, &[&PING, input])?;
    let link = link(alloc, input.as_slice(), 65_536, &[], &[])?;
    let mut tables = desk(alloc)?;
    let Ended { why, .. } = serve_link(alloc, link, 0, 0, &mut tables);
    Ok(why)
}

fn told_behind_a_ping(alloc: Global, input: &[u8]) -> Result<String, Fail> {
    let why = end_behind_a_ping(alloc, input)?;
    Ok(format!(in alloc; "{:?}", why)?)
}

#[test]
fn a_bad_message_is_told_by_its_kind_and_place(rt: HostRuntime) -> Result<(), Fail> {
    let deep = nested(rt.alloc(), 128)?;
    let deeper = nested(rt.alloc(), 129)?;
    let rows: [(&[u8], &str); 5] = [
        (&[1, 0x6c, 0xdc, 2], "BadFrame(Length, 0)"),
        (&[0, 0x6c, 0xdc, 2], "Truncated(4)"),
        (deep.as_slice(), "Closed"),
        (deeper.as_slice(), "BadFrame(Document, 789)"),
        (&BOOL_02, "BadFrame(Document, 25)"),
    ];
    for (input, why) in rows {
        let told = told_behind_a_ping(rt.alloc(), input)?;
        assert_eq!(rt; told.as_str(), why);
    }
    Ok(())
}

#[test]
fn a_body_of_128_levels_is_answered(rt: HostRuntime) -> Result<(), Fail> {
    let deep = nested(rt.alloc(), 128)?;
    let came = piped(rt.alloc(), deep.as_slice())?;
    assert!(rt; came.written.as_slice().ends_with(&NOT_FOUND[21..]));
    Ok(())
}

/// Takes one byte at a call, and counts how often it is shut.
#[derive(Drop)]
struct Slow {
    link: MemoryLink,
    shuts: u64,
}

impl Gate for Slow {
    ghost taken = { λ slow. Some slow.link.source.taken };

    ghost left = { λ slow. Some slow.link.source.left };

    ghost written = { λ slow. Some slow.link.written };

    ghost moments = { λ slow. moments_of slow.link.source };

    ghost read_faults = { λ slow. slow.link.read_faults };

    ghost write_faults = { λ slow. slow.link.write_faults };

    fn between(&mut self) {
        self.link.between();
    }
}

impl Link for Slow {
    fn read(&mut self, into: &mut [u8]) -> Result<usize, Failed> {
        self.link.read(into)
    }

    fn write(&mut self, from: &[u8]) -> Result<usize, Failed> {
        match from {
            [first, ..] => self.link.write(&[*first]),
            [] => Ok(0),
        }
    }

    fn now(&mut self) -> u64 {
        self.link.now()
    }

    fn shut(&mut self) {
        self.link.shut();
        self.shuts = self.shuts.saturating_add(1);
    }
}

fn served(alloc: Global, bad_writes: &[u64]) -> Result<Ended<Slow>, NoMemory> {
    let link = link(alloc, &PING, 65_536, &[], bad_writes)?;
    let mut tables = desk(alloc)?;
    Ok(serve_link(alloc, Slow { link, shuts: 0 }, 3, 5, &mut tables))
}

/// Whether a connection that fails at these writes ends so, has written so many bytes of the answer, and was shut once.
fn writes(alloc: Global, bad_writes: &[u64], len: usize) -> Result<bool, NoMemory> {
    let ended = served(alloc, bad_writes)?;
    let as_asked = match ended.why {
        Why::Closed => bad_writes.is_empty(),
        Why::WriteFault => !bad_writes.is_empty(),
        _ => false,
    };
    let written = ended.link.link.written().unwrap_or(b"");
    let told = (ended.seat, ended.number, ended.link.shuts, written.len());
    Ok(as_asked && told == (3, 5, 1, len) && OK.starts_with(written))
}

#[test]
fn an_answer_goes_out_byte_by_byte_and_the_link_is_shut(rt: HostRuntime) -> Result<(), Fail> {
    assert!(rt; writes(rt.alloc(), &[], 34)?);
    for write in 0..34 {
        assert!(rt;
            writes(rt.alloc(), &[write], write as usize)?,
            "write {write}"
        );
    }
    Ok(())
}
