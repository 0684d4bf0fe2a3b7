//! Foreign elements, which are passed over and told.

use bson_values::{Bytes, NoMemory};
use bson_wire::{Foreign, ReadRefused, read, write};
use std::alloc::Global;
use std::test::Fail;

/// A name for some bytes, the type byte and the place of their first foreign element, the bytes, and those of the document without any.
type Row = (&'static str, u8, u64, &'static [u8], &'static [u8]);

/// The spelling of `{}`.
const EMPTY: &[u8] = &[5, 0, 0, 0, 0];

/// Whether the bytes have that first foreign element, and the document without any is spelled so.
#[tactic(auto, using(bson_wire::proofs::Measured::measured))]
fn leaves(alloc: Global, bytes: &[u8], foreign: Foreign, doc: &[u8]) -> Result<bool, ReadRefused> {
    let front = read(alloc, bytes)?;
    if front.doc.size() > 100 {
        return Ok(false);
    }
    let mut out = Bytes::new(alloc);
    write(&front.doc, &mut out)?;
    Ok(front.foreign == Some(foreign) && out.as_slice() == doc)
}

/// The first row that is not read so.
fn wrong(alloc: Global, rows: &[Row]) -> Result<Option<&'static str>, ReadRefused> {
    for (name, code, place, bytes, doc) in rows {
        let foreign = Foreign {
            code: *code,
            place: *place,
        };
        if !leaves(alloc, bytes, foreign, doc)? {
            return Ok(Some(name));
        }
    }
    Ok(None)
}

/// An element `x` of each foreign type, alone: 1.5, undefined, a pointer into "q", the code "j", the symbol "", the code "" with `{}`,
/// the same with bytes that are no scope, a decimal, maxKey, minKey.
static ALONE: [Row; 10] = [
    (
        "a double",
        0x01,
        4,
        b"\x10\0\0\0\x01x\0\0\0\0\0\0\0\xf8\x3f\0",
        EMPTY,
    ),
    ("undefined", 0x06, 4, b"\x08\0\0\0\x06x\0\0", EMPTY),
    (
        "a pointer",
        0x0c,
        4,
        b"\x1a\0\0\0\x0cx\0\x02\0\0\0q\0\x01\x02\x03\x04\x05\x06\x07\x08\x09\x0a\x0b\x0c\0",
        EMPTY,
    ),
    ("code", 0x0d, 4, b"\x0e\0\0\0\x0dx\0\x02\0\0\0j\0\0", EMPTY),
    (
        "a symbol",
        0x0e,
        4,
        b"\x0d\0\0\0\x0ex\0\x01\0\0\0\0\0",
        EMPTY,
    ),
    (
        "code with scope",
        0x0f,
        4,
        b"\x16\0\0\0\x0fx\0\x0e\0\0\0\x01\0\0\0\0\x05\0\0\0\0\0",
        EMPTY,
    ),
    (
        "nothing inside it is looked at",
        0x0f,
        4,
        b"\x16\0\0\0\x0fx\0\x0e\0\0\0\x09\x09\x09\x09\x09\x09\x09\x09\x09\x09\0",
        EMPTY,
    ),
    (
        "a decimal",
        0x13,
        4,
        b"\x18\0\0\0\x13x\0\x01\x02\x03\x04\x05\x06\x07\x08\x09\x0a\x0b\x0c\x0d\x0e\x0f\x30\0",
        EMPTY,
    ),
    ("maxKey", 0x7f, 4, b"\x08\0\0\0\x7fx\0\0", EMPTY),
    ("minKey", 0xff, 4, b"\x08\0\0\0\xffx\0\0", EMPTY),
];

#[test]
fn a_foreign_element_alone_leaves_an_empty_document(rt: HostRuntime) -> Result<(), Fail> {
    assert_eq!(rt; wrong(rt.alloc(), &ALONE)?, None);
    Ok(())
}

/// The same values, but for the scope that is none.
static VALUES: [(u8, &[u8]); 9] = [
    (0x01, b"\0\0\0\0\0\0\xf8\x3f"),
    (0x06, &[]),
    (
        0x0c,
        b"\x02\0\0\0q\0\x01\x02\x03\x04\x05\x06\x07\x08\x09\x0a\x0b\x0c",
    ),
    (0x0d, b"\x02\0\0\0j\0"),
    (0x0e, b"\x01\0\0\0\0"),
    (0x0f, b"\x0e\0\0\0\x01\0\0\0\0\x05\0\0\0\0"),
    (
        0x13,
        b"\x01\x02\x03\x04\x05\x06\x07\x08\x09\x0a\x0b\x0c\x0d\x0e\x0f\x30",
    ),
    (0x7f, &[]),
    (0xff, &[]),
];

/// A length, what is inside, and a 00 byte.
fn enclosed(alloc: Global, inside: &[u8]) -> Result<Bytes, NoMemory> {
    let Ok(len) = u32::try_from(inside.len().saturating_add(5)) else {
        return Err(NoMemory);
    };
    let mut bytes = Bytes::of(alloc, &len.to_le_bytes())?;
    bytes.extend(inside)?;
    bytes.extend(&[0])?;
    Ok(bytes)
}

/// A document with an element `x` between others.
fn around(
    alloc: Global,
    before: &[u8],
    code: u8,
    value: &[u8],
    after: &[u8],
) -> Result<Bytes, NoMemory> {
    let mut inside = Bytes::of(alloc, before)?;
    inside.extend(&[code, 120, 0])?;
    inside.extend(value)?;
    inside.extend(after)?;
    enclosed(alloc, inside.as_slice())
}

/// A document with a container `c` of that type byte, and `a: null` behind it.
fn outside(alloc: Global, code: u8, container: &[u8]) -> Result<Bytes, NoMemory> {
    let mut inside = Bytes::of(alloc, &[code, 99, 0])?;
    inside.extend(container)?;
    inside.extend(&[0x0a, 97, 0])?;
    enclosed(alloc, inside.as_slice())
}

#[test]
fn the_elements_around_each_are_kept(rt: HostRuntime) -> Result<(), Fail> {
    let kept = [9, 0, 0, 0, 0x08, 98, 0, 1, 0];
    for (code, value) in &VALUES {
        let first = around(rt.alloc(), &[], *code, value, &[0x08, 98, 0, 1])?;
        let foreign = Foreign {
            code: *code,
            place: 4,
        };
        assert!(rt;
            leaves(rt.alloc(), first.as_slice(), foreign, &kept)?,
            "{code} first"
        );
        let last = around(rt.alloc(), &[0x08, 98, 0, 1], *code, value, &[])?;
        let foreign = Foreign {
            code: *code,
            place: 8,
        };
        assert!(rt;
            leaves(rt.alloc(), last.as_slice(), foreign, &kept)?,
            "{code} last"
        );
    }
    Ok(())
}

/// A container's type byte, and the bytes of a document that has it with null and true in it.
static CONTAINERS: [(u8, [u8; 23]); 2] = [
    (
        0x03,
        [
            23, 0, 0, 0, 0x03, 99, 0, 12, 0, 0, 0, 0x0a, 48, 0, 0x08, 50, 0, 1, 0, 0x0a, 97, 0, 0,
        ],
    ),
    (
        0x04,
        [
            23, 0, 0, 0, 0x04, 99, 0, 12, 0, 0, 0, 0x0a, 48, 0, 0x08, 49, 0, 1, 0, 0x0a, 97, 0, 0,
        ],
    ),
];

#[test]
fn what_stands_around_each_in_a_container_is_kept(rt: HostRuntime) -> Result<(), Fail> {
    for (code, value) in &VALUES {
        let inner = around(rt.alloc(), &[0x0a, 48, 0], *code, value, &[0x08, 50, 0, 1])?;
        let foreign = Foreign {
            code: *code,
            place: 14,
        };
        for (container, kept) in &CONTAINERS {
            let bytes = outside(rt.alloc(), *container, inner.as_slice())?;
            assert!(rt;
                leaves(rt.alloc(), bytes.as_slice(), foreign, kept)?,
                "{code} in {container}"
            );
        }
    }
    Ok(())
}

static MANY: [Row; 3] = [
    (
        "two in a document",
        0x7f,
        4,
        b"\x0b\0\0\0\x7fa\0\xffb\0\0",
        EMPTY,
    ),
    (
        "one in an array, and one behind it",
        0xff,
        11,
        b"\x13\0\0\0\x04a\0\x08\0\0\0\xff\x30\0\0\x06b\0\0",
        b"\x0d\0\0\0\x04a\0\x05\0\0\0\0\0",
    ),
    (
        "one before a document, and one in it",
        6,
        4,
        b"\x13\0\0\0\x06a\0\x03b\0\x08\0\0\0\x7fc\0\0\0",
        b"\x0d\0\0\0\x03b\0\x05\0\0\0\0\0",
    ),
];

#[test]
fn the_first_of_many_is_told(rt: HostRuntime) -> Result<(), Fail> {
    assert_eq!(rt; wrong(rt.alloc(), &MANY)?, None);
    Ok(())
}
