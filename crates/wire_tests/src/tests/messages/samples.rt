//! The bytes of messages, and two builders of them.
ghost use Rattle.std.specs.Prelude.{◌≤◌};

use bson_values::{Bytes, NoMemory};
use std::alloc::Global;

/// `{ping: 1, $db: "admin"}` with requestID 1.
pub static PING: [u8; 51] = [
    0x33, 0, 0, 0, 1, 0, 0, 0, 0, 0, 0, 0, 0xdd, 7, 0, 0, 0, 0, 0, 0, 0, 0x1e, 0, 0, 0, 0x10, 0x70,
    0x69, 0x6e, 0x67, 0, 1, 0, 0, 0, 2, 0x24, 0x64, 0x62, 0, 6, 0, 0, 0, 0x61, 0x64, 0x6d, 0x69,
    0x6e, 0, 0,
];

/// `{}` with the flag of bit 31, which may be ignored.
pub static HIGH_FLAG: [u8; 26] = [
    0x1a, 0, 0, 0, 1, 0, 0, 0, 0, 0, 0, 0, 0xdd, 7, 0, 0, 0, 0, 0, 0x80, 0, 5, 0, 0, 0, 0,
];

/// `{x: maxKey, b: 7, c: [undefined]}`.
pub static MAX_KEY: [u8; 47] = [
    0x2f, 0, 0, 0, 1, 0, 0, 0, 0, 0, 0, 0, 0xdd, 7, 0, 0, 0, 0, 0, 0, 0, 0x1a, 0, 0, 0, 0x7f, 0x78,
    0, 0x10, 0x62, 0, 7, 0, 0, 0, 4, 0x63, 0, 8, 0, 0, 0, 6, 0x30, 0, 0, 0,
];

/// `{b: 7, c: [undefined]}`.
pub static UNDEFINED: [u8; 44] = [
    0x2c, 0, 0, 0, 1, 0, 0, 0, 0, 0, 0, 0, 0xdd, 7, 0, 0, 0, 0, 0, 0, 0, 0x17, 0, 0, 0, 0x10, 0x62,
    0, 7, 0, 0, 0, 4, 0x63, 0, 8, 0, 0, 0, 6, 0x30, 0, 0, 0,
];

/// A sequence `d` of `{a: 1}` and `{a: 2}`, the body `{}`, and a sequence `e` of none.
pub static TWO_SEQUENCES: [u8; 44] = [
    1, 0x1e, 0, 0, 0, 0x64, 0, 0xc, 0, 0, 0, 0x10, 0x61, 0, 1, 0, 0, 0, 0, 0xc, 0, 0, 0, 0x10,
    0x61, 0, 2, 0, 0, 0, 0, 0, 5, 0, 0, 0, 0, 1, 6, 0, 0, 0, 0x65, 0,
];

/// A message with these sections, which begin at place 20.
pub fn message(alloc: Global, sections: &[u8]) -> Result<Bytes, NoMemory> {
    let size = sections.len().min(1000) as u32 + 20;
    let mut bytes = Bytes::of(alloc, &size.to_le_bytes())?;
    bytes.extend(&[1, 0, 0, 0, 0, 0, 0, 0, 0xdd, 7, 0, 0, 0, 0, 0, 0])?;
    bytes.extend(sections)?;
    Ok(bytes)
}

/// A message whose body has so many levels: the innermost is empty, and each other has one field of empty name.
pub fn nested(alloc: Global, levels: u32) -> Result<Bytes, NoMemory>
    requires some { 1 ≤ levels }
    requires few { levels ≤ 1000 }
{
    let size = 7 * levels - 2;
    let mut bytes = Bytes::of(alloc, &(size + 21).to_le_bytes())?;
    bytes.extend(&[1, 0, 0, 0, 0, 0, 0, 0, 0xdd, 7, 0, 0, 0, 0, 0, 0, 0])?;
    for level in 1..levels {
        bytes.extend(&(size - 7 * (level - 1)).to_le_bytes())?;
        bytes.extend(&[3, 0])?;
    }
    bytes.extend(&[5, 0, 0, 0, 0])?;
    for _ in 1..levels {
        bytes.extend(&[0])?;
    }
    Ok(bytes)
}
