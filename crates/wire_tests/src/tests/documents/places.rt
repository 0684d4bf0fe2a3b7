//! Malformed bytes, each with the place of its first fault.

use bson_wire::{ReadRefused, read};
use std::alloc::Global;
use std::test::Fail;

/// A reason to refuse some bytes, and the place of their first fault.
type Row = (&'static str, u64, &'static [u8]);

/// The first row that is read, or refused elsewhere.
fn wrong(alloc: Global, rows: &[Row]) -> Option<&'static str> {
    for (reason, place, bytes) in rows {
        let refused = read(alloc, bytes).err();
        if refused != Some(ReadRefused::Malformed(*place)) {
            return Some(reason);
        }
    }
    None
}

static LENGTHS: [Row; 6] = [
    ("no length", 0, b"\x05\0\0"),
    ("a length below 5", 0, b"\x04\0\0\0\0"),
    ("a negative length", 0, b"\xff\xff\xff\xff\0"),
    ("a length past the bytes", 0, b"\x06\0\0\0\0"),
    ("no end byte", 0, b"\x05\0\0\0\x01"),
    ("no end byte behind an element", 0, b"\x08\0\0\0\x0aa\0\x01"),
];

#[test]
fn faults_of_a_document_are_at_its_length(rt: HostRuntime) -> Result<(), Fail> {
    assert_eq!(rt; wrong(rt.alloc(), &LENGTHS), None);
    Ok(())
}

static ELEMENTS: [Row; 7] = [
    ("a 00 before the end", 4, b"\x06\0\0\0\0\0"),
    ("a 00 behind an element", 7, b"\x09\0\0\0\x0aa\0\0\0"),
    ("a name without its 00", 4, b"\x08\0\0\0\x10ab\0"),
    ("a name not UTF-8", 4, b"\x08\0\0\0\x0a\xff\0\0"),
    ("a short number", 4, b"\x0b\0\0\0\x10a\0\x01\0\0\0"),
    ("a bool 02", 4, b"\x09\0\0\0\x08a\0\x02\0"),
    ("the type byte 14", 4, b"\x08\0\0\0\x14a\0\0"),
];

#[test]
fn faults_of_an_element_are_at_its_type_byte(rt: HostRuntime) -> Result<(), Fail> {
    assert_eq!(rt; wrong(rt.alloc(), &ELEMENTS), None);
    Ok(())
}

static TEXTS: [Row; 4] = [
    ("stated length 0", 4, b"\x0c\0\0\0\x02a\0\0\0\0\0\0"),
    ("no 00", 4, b"\x0e\0\0\0\x02a\0\x02\0\0\0bc\0"),
    ("no UTF-8", 4, b"\x0e\0\0\0\x02a\0\x02\0\0\0\xff\0\0"),
    (
        "a binary past the end",
        4,
        b"\x0d\0\0\0\x05a\0\x01\0\0\0\0\0",
    ),
];

#[test]
fn faults_of_a_text_or_a_binary_are_at_its_type_byte(rt: HostRuntime) -> Result<(), Fail> {
    assert_eq!(rt; wrong(rt.alloc(), &TEXTS), None);
    Ok(())
}

static INNER: [Row; 6] = [
    (
        "one byte short",
        11,
        b"\x11\0\0\0\x03a\0\x08\0\0\0\x08b\0\x01\0\0",
    ),
    (
        "one byte long",
        7,
        b"\x11\0\0\0\x03a\0\x0a\0\0\0\x08b\0\x01\0\0",
    ),
    (
        "one byte long, and more behind it",
        15,
        b"\x14\0\0\0\x03a\0\x0a\0\0\0\x08b\0\x01\0\x0ac\0\0",
    ),
    ("no end byte", 7, b"\x0d\0\0\0\x04a\0\x05\0\0\0\x01\0"),
    ("three bytes of a length", 7, b"\x0b\0\0\0\x03a\0\x05\0\0\0"),
    (
        "a bool 02 in an array",
        11,
        b"\x11\0\0\0\x04a\0\x09\0\0\0\x08\x30\0\x02\0\0",
    ),
];

#[test]
fn faults_of_an_inner_document_are_at_the_inner_place(rt: HostRuntime) -> Result<(), Fail> {
    assert_eq!(rt; wrong(rt.alloc(), &INNER), None);
    Ok(())
}

static FOREIGN: [Row; 5] = [
    (
        "a double of 7 bytes",
        4,
        b"\x0f\0\0\0\x01a\0\x01\x02\x03\x04\x05\x06\x07\0",
    ),
    (
        "a code with scope of 13 bytes",
        4,
        b"\x15\0\0\0\x0fa\0\x0d\0\0\0\x01\0\0\0\0\x04\0\0\0\0",
    ),
    (
        "a symbol without its 00",
        4,
        b"\x0e\0\0\0\x0ea\0\x02\0\0\0bc\0",
    ),
    (
        "a pointer cut short",
        4,
        b"\x19\0\0\0\x0ca\0\x02\0\0\0q\0\x01\x02\x03\x04\x05\x06\x07\x08\x09\x0a\x0b\0",
    ),
    (
        "a decimal of 15 bytes in an array",
        11,
        b"\x1f\0\0\0\x04a\0\x17\0\0\0\x13\x30\0\x01\x02\x03\x04\x05\x06\x07\x08\x09\x0a\x0b\x0c\x0d\x0e\x0f\0\0",
    ),
];

#[test]
fn faults_of_a_foreign_element_are_at_its_type_byte(rt: HostRuntime) -> Result<(), Fail> {
    assert_eq!(rt; wrong(rt.alloc(), &FOREIGN), None);
    Ok(())
}
