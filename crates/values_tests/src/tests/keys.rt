//! Values with their keys, and whether a key tells them apart.

use super::samples::{Sample, value};
use Sample::{Arr, Bin, Bool, Date, Doc, Id, Int, Long, Null, Regex as Pattern, Stamp, Str};
use bson_order::{id_key, is_plain};
use bson_values::{Bytes, NoMemory};
use std::alloc::Global;
use std::test::Fail;

/// Each with the type byte, lengths of eight bytes, and each int as a long.
static KEYS: [(Sample, &[u8]); 13] = [
    (Str("ab"), b"\x02\x03\0\0\0\0\0\0\0ab\0"),
    (
        Doc(&[("a", Int(1))]),
        b"\x03\x14\0\0\0\0\0\0\0\x12a\0\x01\0\0\0\0\0\0\0\0",
    ),
    (
        Arr(&[Null, Bool(true)]),
        b"\x04\x10\0\0\0\0\0\0\0\x0a\x30\0\x08\x31\0\x01\0",
    ),
    (Bin(5, b"\x01\xff"), b"\x05\x02\0\0\0\0\0\0\0\x05\x01\xff"),
    (
        Id([1, 2, 3, 4, 5, 6, 7, 8, 9, 10, 11, 12]),
        b"\x07\x01\x02\x03\x04\x05\x06\x07\x08\x09\x0a\x0b\x0c",
    ),
    (Bool(true), b"\x08\x01"),
    (Bool(false), b"\x08\0"),
    (Date(-2), b"\x09\xfe\xff\xff\xff\xff\xff\xff\xff"),
    (Null, b"\x0a"),
    (Pattern("^x", "i"), b"\x0b^x\0i\0"),
    (Int(-1), b"\x12\xff\xff\xff\xff\xff\xff\xff\xff"),
    (Stamp(4_294_967_299), b"\x11\x03\0\0\0\x01\0\0\0"),
    (Long(4), b"\x12\x04\0\0\0\0\0\0\0"),
];

/// Whether a 00 byte that ends a name or a text of a regex is the first one in it.
static PLAINS: [(Sample, bool); 8] = [
    (Str("a\0"), true),
    (Doc(&[("a", Int(1)), ("", Date(0))]), true),
    (Doc(&[("a", Int(1)), ("\0", Int(1))]), false),
    (Doc(&[("a", Doc(&[("b\0", Null)]))]), false),
    (Arr(&[Null, Doc(&[("b\0", Null)])]), false),
    (
        Arr(&[Stamp(u64::MAX), Id([0; 12]), Bool(false), Bin(0, &[0])]),
        true,
    ),
    (Pattern("a\0", "i"), false),
    (Pattern("a", "i\0"), false),
];

fn key(alloc: Global, sample: &Sample) -> Result<Bytes, NoMemory> {
    let value = value(alloc, sample)?;
    id_key(alloc, &value)
}

#[test]
fn a_key_with_ample_memory_has_these_bytes(rt: HostRuntime) -> Result<(), Fail> {
    for (place, (sample, bytes)) in KEYS.iter().enumerate() {
        let key = key(rt.alloc(), sample)?;
        assert!(rt; key.as_slice() == *bytes, "row {place}");
    }
    Ok(())
}

fn plain(alloc: Global, sample: &Sample) -> Result<bool, NoMemory> {
    let value = value(alloc, sample)?;
    Ok(is_plain(&value))
}

#[test]
fn plain_values_have_no_nul_where_one_ends_them(rt: HostRuntime) -> Result<(), Fail> {
    for (place, (sample, is)) in PLAINS.iter().enumerate() {
        let found = plain(rt.alloc(), sample)?;
        assert!(rt; found == *is, "row {place}");
    }
    Ok(())
}
