use super::samples::message;
use super::seen::fault;
use op_msg::BadKind;
use std::test::Fail;

/// A name, the bytes, the kind of the fault and its place.
type Row = (&'static str, &'static [u8], BadKind, u64);

static FRONTS: [Row; 9] = [
    ("48,000,001", &[1, 0x6c, 0xdc, 2], BadKind::Length, 0),
    ("-1", &[0xff, 0xff, 0xff, 0xff], BadKind::Length, 0),
    ("15", &[15, 0, 0, 0], BadKind::Length, 0),
    (
        "another opcode",
        &[16, 0, 0, 0, 1, 0, 0, 0, 0, 0, 0, 0, 0xdc, 7, 0, 0],
        BadKind::OpCode,
        12,
    ),
    (
        "no flags",
        &[16, 0, 0, 0, 1, 0, 0, 0, 0, 0, 0, 0, 0xdd, 7, 0, 0],
        BadKind::Section,
        16,
    ),
    (
        "no section",
        &[
            20, 0, 0, 0, 1, 0, 0, 0, 0, 0, 0, 0, 0xdd, 7, 0, 0, 0, 0, 0, 0,
        ],
        BadKind::Body,
        20,
    ),
    (
        "the flag of bit 2",
        &[
            20, 0, 0, 0, 1, 0, 0, 0, 0, 0, 0, 0, 0xdd, 7, 0, 0, 4, 0, 0, 0,
        ],
        BadKind::Flags,
        16,
    ),
    (
        "the flag of bit 15",
        &[
            20, 0, 0, 0, 1, 0, 0, 0, 0, 0, 0, 0, 0xdd, 7, 0, 0, 0, 0x80, 0, 0,
        ],
        BadKind::Flags,
        16,
    ),
    (
        "a checksum",
        &[
            20, 0, 0, 0, 1, 0, 0, 0, 0, 0, 0, 0, 0xdd, 7, 0, 0, 1, 0, 0, 0,
        ],
        BadKind::Checksum,
        16,
    ),
];

#[test]
fn a_fault_is_told_with_its_place(rt: HostRuntime) -> Result<(), Fail> {
    for (name, bytes, kind, place) in &FRONTS {
        assert_eq!(rt; fault(rt.alloc(), bytes), Some((*kind, *place)), "{name}");
    }
    Ok(())
}

/// The sections, most of them behind the body `{}`, which ends at place 26.
static SECTIONS: [Row; 15] = [
    (
        "two bodies",
        &[0, 5, 0, 0, 0, 0, 0, 5, 0, 0, 0, 0],
        BadKind::Body,
        26,
    ),
    (
        "a section of kind 2",
        &[0, 5, 0, 0, 0, 0, 2],
        BadKind::Section,
        26,
    ),
    (
        "a document of three bytes",
        &[0, 5, 0, 0],
        BadKind::Section,
        20,
    ),
    (
        "the bool 02",
        &[0, 9, 0, 0, 0, 8, 0x62, 0, 2, 0],
        BadKind::Document,
        25,
    ),
    (
        "size 3",
        &[0, 5, 0, 0, 0, 0, 1, 3, 0, 0, 0],
        BadKind::Section,
        26,
    ),
    (
        "three bytes of a size",
        &[0, 5, 0, 0, 0, 0, 1, 5, 0, 0],
        BadKind::Section,
        26,
    ),
    (
        "a size past the message",
        &[0, 5, 0, 0, 0, 0, 1, 7, 0, 0, 0, 0x61, 0],
        BadKind::Section,
        26,
    ),
    (
        "an identifier without its 00",
        &[0, 5, 0, 0, 0, 0, 1, 6, 0, 0, 0, 0x61, 0x62],
        BadKind::Section,
        26,
    ),
    (
        "an identifier that is not UTF-8",
        &[0, 5, 0, 0, 0, 0, 1, 6, 0, 0, 0, 0xff, 0],
        BadKind::Section,
        26,
    ),
    (
        "three bytes of a document",
        &[0, 5, 0, 0, 0, 0, 1, 9, 0, 0, 0, 0x61, 0, 5, 0, 0],
        BadKind::Section,
        26,
    ),
    (
        "a document past its section",
        &[0, 5, 0, 0, 0, 0, 1, 0xa, 0, 0, 0, 0x61, 0, 5, 0, 0, 0],
        BadKind::Document,
        33,
    ),
    (
        "the bool 02 in a second document",
        &[
            0, 5, 0, 0, 0, 0, 1, 0x14, 0, 0, 0, 0x61, 0, 5, 0, 0, 0, 0, 9, 0, 0, 0, 8, 0x62, 0, 2,
            0,
        ],
        BadKind::Document,
        42,
    ),
    (
        "kind 2",
        &[0, 5, 0, 0, 0, 0, 2, 5, 0, 0, 0, 0],
        BadKind::Section,
        26,
    ),
    (
        "two bodies round a sequence",
        &[0, 5, 0, 0, 0, 0, 1, 6, 0, 0, 0, 0x61, 0, 0, 5, 0, 0, 0, 0],
        BadKind::Body,
        33,
    ),
    ("no body", &[1, 6, 0, 0, 0, 0x61, 0], BadKind::Body, 27),
];

#[test]
fn a_bad_section_is_told_with_its_place(rt: HostRuntime) -> Result<(), Fail> {
    for (name, sections, kind, place) in &SECTIONS {
        let bytes = message(rt.alloc(), sections)?;
        assert_eq!(rt;
            fault(rt.alloc(), bytes.as_slice()),
            Some((*kind, *place)),
            "{name}"
        );
    }
    Ok(())
}
