ghost use Rattle.std.specs.Prelude.{◌≤◌};

use super::commands::{INSERT, INSERTED};
use super::keepers::came_to;
use super::streams::{chain, joined};
use bson_values::{Bytes, NoMemory};
use std::alloc::Global;
use std::test::Fail;

/// `{n: 0, writeErrors: [{index: 0, code: 2, errmsg: "document cannot be stored"}], ok: 1}`, the first reply, to requestID 7.
const NOT_STORABLE: [u8; 126] = [
    0x7e, 0, 0, 0, 1, 0, 0, 0, 7, 0, 0, 0, 0xdd, 7, 0, 0, 0, 0, 0, 0, 0, 0x69, 0, 0, 0, 0x10, 0x6e,
    0, 0, 0, 0, 0, 4, 0x77, 0x72, 0x69, 0x74, 0x65, 0x45, 0x72, 0x72, 0x6f, 0x72, 0x73, 0, 0x48, 0,
    0, 0, 3, 0x30, 0, 0x40, 0, 0, 0, 0x10, 0x69, 0x6e, 0x64, 0x65, 0x78, 0, 0, 0, 0, 0, 0x10, 0x63,
    0x6f, 0x64, 0x65, 0, 2, 0, 0, 0, 2, 0x65, 0x72, 0x72, 0x6d, 0x73, 0x67, 0, 0x1a, 0, 0, 0, 0x64,
    0x6f, 0x63, 0x75, 0x6d, 0x65, 0x6e, 0x74, 0x20, 0x63, 0x61, 0x6e, 0x6e, 0x6f, 0x74, 0x20, 0x62,
    0x65, 0x20, 0x73, 0x74, 0x6f, 0x72, 0x65, 0x64, 0, 0, 0, 0x10, 0x6f, 0x6b, 0, 1, 0, 0, 0, 0,
];

/// The same with code 10334 and "document too large".
const TOO_LARGE: [u8; 119] = [
    0x77, 0, 0, 0, 1, 0, 0, 0, 7, 0, 0, 0, 0xdd, 7, 0, 0, 0, 0, 0, 0, 0, 0x62, 0, 0, 0, 0x10, 0x6e,
    0, 0, 0, 0, 0, 4, 0x77, 0x72, 0x69, 0x74, 0x65, 0x45, 0x72, 0x72, 0x6f, 0x72, 0x73, 0, 0x41, 0,
    0, 0, 3, 0x30, 0, 0x39, 0, 0, 0, 0x10, 0x69, 0x6e, 0x64, 0x65, 0x78, 0, 0, 0, 0, 0, 0x10, 0x63,
    0x6f, 0x64, 0x65, 0, 0x5e, 0x28, 0, 0, 2, 0x65, 0x72, 0x72, 0x6d, 0x73, 0x67, 0, 0x13, 0, 0, 0,
    0x64, 0x6f, 0x63, 0x75, 0x6d, 0x65, 0x6e, 0x74, 0x20, 0x74, 0x6f, 0x6f, 0x20, 0x6c, 0x61, 0x72,
    0x67, 0x65, 0, 0, 0, 0x10, 0x6f, 0x6b, 0, 1, 0, 0, 0, 0,
];

/// The element `_id: 1`.
const ID: [u8; 9] = [0x10, 0x5f, 0x69, 0x64, 0, 1, 0, 0, 0];

/// An insert of a document with these bytes.
fn insert_of(alloc: Global, doc: &[u8]) -> Result<Bytes, NoMemory> {
    let Ok(len) = u32::try_from(doc.len().min(20_000_000)) else {
        return Err(NoMemory);
    };
    let pieces: [&[u8]; 8] = [
        &(len + 70).to_le_bytes(),
        &INSERT[4..21],
        &(len + 49).to_le_bytes(),
        &INSERT[25..50],
        &(len + 8).to_le_bytes(),
        &INSERT[54..57],
        doc,
        &INSERT[71..],
    ];
    joined(alloc, &pieces)
}

/// The bytes of a document of so many levels.
fn deep(alloc: Global, levels: u32) -> Result<Bytes, NoMemory>
    requires some { 2 ≤ levels }
    requires few { levels ≤ 1000 }
{
    let inner = chain(alloc, levels - 1)?;
    let len = 7 * (levels - 1) + 15;
    let pieces: [&[u8]; 5] = [
        &len.to_le_bytes(),
        &ID,
        &[3, 0x61, 0],
        inner.as_slice(),
        &[0],
    ];
    joined(alloc, &pieces)
}

/// The bytes of `{_id: 1, b: bin 0}` with so many bytes of binary.
fn large(alloc: Global, len: u32) -> Result<Bytes, NoMemory>
    requires { len ≤ 20_000_000 }
{
    let zeros = vec![in alloc; 0u8; len as usize]?;
    let pieces: [&[u8]; 7] = [
        &(len + 22).to_le_bytes(),
        &ID,
        &[5, 0x62, 0],
        &len.to_le_bytes(),
        &[0],
        zeros.as_slice(),
        &[0],
    ];
    joined(alloc, &pieces)
}

/// Whether an insert of that document is answered so.
fn answers(alloc: Global, doc: &Bytes, reply: &[u8]) -> Result<bool, Fail> {
    let input = insert_of(alloc, doc.as_slice())?;
    let (written, _) = came_to(alloc, input.as_slice(), (&[], &[]))?;
    Ok(written.as_slice() == reply)
}

#[test]
fn a_document_has_at_most_32_levels(rt: HostRuntime) -> Result<(), Fail> {
    let doc = deep(rt.alloc(), 32)?;
    assert!(rt; answers(rt.alloc(), &doc, &INSERTED)?);
    let doc = deep(rt.alloc(), 33)?;
    assert!(rt; answers(rt.alloc(), &doc, &NOT_STORABLE)?);
    Ok(())
}

#[test]
fn a_document_has_at_most_16_777_216_bytes(rt: HostRuntime) -> Result<(), Fail> {
    let doc = large(rt.alloc(), 16_777_194)?;
    assert!(rt; answers(rt.alloc(), &doc, &INSERTED)?);
    let doc = large(rt.alloc(), 16_777_195)?;
    assert!(rt; answers(rt.alloc(), &doc, &TOO_LARGE)?);
    Ok(())
}
