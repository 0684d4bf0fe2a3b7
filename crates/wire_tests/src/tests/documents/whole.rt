ghost use Rattle.std.specs.Prelude.{◌<◌};

use bson_values::{Bytes, NoMemory, Room, Value};
use bson_wire::{ReadRefused, read, write, write_in};
use std::alloc::Global;
use std::test::Fail;

/// A value of each type: `{a: "x", b: {c: false}, d: [null, true], e: bin 5 01ff, f: an id, g: true, h: a date, i: null,
/// j: /^x/i, k: -1, l: a timestamp, m: 4L}`, and two bytes behind it.
static ALL: [u8; 123] = [
    121, 0, 0, 0, 0x02, 97, 0, 2, 0, 0, 0, 120, 0, 0x03, 98, 0, 9, 0, 0, 0, 0x08, 99, 0, 0, 0,
    0x04, 100, 0, 12, 0, 0, 0, 0x0a, 48, 0, 0x08, 49, 0, 1, 0, 0x05, 101, 0, 2, 0, 0, 0, 5, 1, 255,
    0x07, 102, 0, 7, 7, 7, 7, 7, 7, 7, 7, 7, 7, 7, 8, 0x08, 103, 0, 1, 0x09, 104, 0, 254, 255, 255,
    255, 255, 255, 255, 255, 0x0a, 105, 0, 0x0b, 106, 0, 94, 120, 0, 105, 0, 0x10, 107, 0, 255,
    255, 255, 255, 0x11, 108, 0, 3, 0, 0, 0, 1, 0, 0, 0, 0x12, 109, 0, 4, 0, 0, 0, 0, 0, 0, 0, 0,
    7, 7,
];

/// Whether a value is the one of its type in `ALL`.
fn stands(value: &Value) -> bool {
    match value {
        Value::Str(text) => text.as_str() == "x",
        Value::Doc(doc) => matches!(doc.get("c"), Some(Value::Bool(false))),
        Value::Arr(items) => matches!(items.as_slice(), [Value::Null, Value::Bool(true)]),
        Value::Bin(binary) => binary.bytes.as_slice() == [1, 255].as_slice(),
        Value::Id(id) => *id == [7, 7, 7, 7, 7, 7, 7, 7, 7, 7, 7, 8],
        Value::Bool(truth) => *truth,
        Value::Date(moment) => *moment == -2,
        Value::Null => true,
        Value::Regex(regex) => regex.options.as_str() == "i",
        Value::Int(number) => *number == -1,
        Value::Stamp(stamp) => *stamp == 0x1_0000_0003,
        Value::Long(number) => *number == 4,
    }
}

#[test]
fn a_document_of_every_type_is_read_and_what_follows_is_left(rt: HostRuntime) -> Result<(), Fail> {
    let front = read(rt.alloc(), &ALL)?;
    assert_eq!(rt; (front.used, front.doc.len()), (121, 12));
    for pair in front.doc.as_slice() {
        assert!(rt; stands(&pair.value), "{}", pair.name.as_str());
    }
    Ok(())
}

#[tactic(auto, using(bson_wire::proofs::Measured::measured))]
#[test]
fn a_document_of_every_type_is_written_byte_by_byte(rt: HostRuntime) -> Result<(), Fail> {
    let front = read(rt.alloc(), &ALL)?;
    assert!(rt; front.doc.size() == 121);
    let mut out = Bytes::new(rt.alloc());
    write(&front.doc, &mut out)?;
    assert_eq!(rt; out.as_slice(), &ALL[..121]);
    Ok(())
}

#[tactic(auto, using(bson_wire::proofs::Measured::measured))]
#[test]
fn a_room_of_its_size_takes_a_document_of_every_type(rt: HostRuntime) -> Result<(), Fail> {
    let front = read(rt.alloc(), &ALL)?;
    assert!(rt; front.doc.size() == 121);
    let mut out = Room::new(rt.alloc(), 121)?;
    write_in(&front.doc, &mut out);
    assert_eq!(rt; out.items(), &ALL[..121]);
    Ok(())
}

#[test]
fn the_names_in_an_array_say_nothing(rt: HostRuntime) -> Result<(), Fail> {
    let bytes = [
        20, 0, 0, 0, 0x04, 100, 0, 12, 0, 0, 0, 0x0a, 55, 0, 0x08, 55, 0, 1, 0, 0,
    ];
    let front = read(rt.alloc(), &bytes)?;
    let Some(items) = front.doc.get("d") else {
        panic!(rt; "no array");
    };
    assert!(rt; stands(items));
    Ok(())
}

/// Documents of no name in one another, and the innermost empty.
fn nested(alloc: Global, levels: u32) -> Result<Bytes, NoMemory>
    requires { levels < 200 }
{
    let mut bytes = Bytes::new(alloc);
    for outer in 1..levels {
        bytes.extend(&(5 + 7 * (levels - outer)).to_le_bytes())?;
        bytes.extend(&[3, 0])?;
    }
    bytes.extend(&[5, 0, 0, 0])?;
    let ends = [0; 200];
    bytes.extend(&ends[..levels as usize])?;
    Ok(bytes)
}

#[test]
fn documents_are_nested_128_deep(rt: HostRuntime) -> Result<(), Fail> {
    let bytes = nested(rt.alloc(), 128)?;
    assert_eq!(rt; read(rt.alloc(), bytes.as_slice())?.used, 894);
    Ok(())
}

#[test]
fn a_level_more_is_a_fault_of_the_innermost_document(rt: HostRuntime) -> Result<(), Fail> {
    let bytes = nested(rt.alloc(), 129)?;
    let refused = read(rt.alloc(), bytes.as_slice()).err();
    assert_eq!(rt; refused, Some(ReadRefused::Malformed(768)));
    Ok(())
}
