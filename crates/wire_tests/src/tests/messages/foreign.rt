use super::samples::{MAX_KEY, PING, UNDEFINED, message};
use super::seen::{Seen, seen};
use bson_wire::Foreign;
use std::test::Fail;

fn told(code: u8, place: u64) -> Option<Foreign> {
    Some(Foreign { code, place })
}

#[test]
fn the_first_foreign_element_is_told_by_its_place_in_the_message(
    rt: HostRuntime,
) -> Result<(), Fail> {
    let max_key: Seen = (1, 2, 0, told(0x7f, 25), 47);
    assert_eq!(rt; seen(rt.alloc(), &MAX_KEY), Some(max_key));
    let undefined: Seen = (1, 2, 0, told(6, 39), 44);
    assert_eq!(rt; seen(rt.alloc(), &UNDEFINED), Some(undefined));
    let none: Seen = (1, 2, 0, None, 51);
    assert_eq!(rt; seen(rt.alloc(), &PING), Some(none));
    Ok(())
}

/// A sequence `a` of `{}` and `{x: maxKey}`, then the body `{y: undefined}`.
static IN_THE_SEQUENCE: [u8; 29] = [
    1, 0x13, 0, 0, 0, 0x61, 0, 5, 0, 0, 0, 0, 8, 0, 0, 0, 0x7f, 0x78, 0, 0, 0, 8, 0, 0, 0, 6, 0x79,
    0, 0,
];

/// The same two the other way round.
static IN_THE_BODY: [u8; 29] = [
    0, 8, 0, 0, 0, 6, 0x79, 0, 0, 1, 0x13, 0, 0, 0, 0x61, 0, 5, 0, 0, 0, 0, 8, 0, 0, 0, 0x7f, 0x78,
    0, 0,
];

#[test]
fn the_first_foreign_element_is_told_wherever_it_stands(rt: HostRuntime) -> Result<(), Fail> {
    let first = message(rt.alloc(), &IN_THE_SEQUENCE)?;
    let max_key: Seen = (1, 0, 1, told(0x7f, 36), 49);
    assert_eq!(rt; seen(rt.alloc(), first.as_slice()), Some(max_key));
    let first = message(rt.alloc(), &IN_THE_BODY)?;
    let undefined: Seen = (1, 0, 1, told(6, 25), 49);
    assert_eq!(rt; seen(rt.alloc(), first.as_slice()), Some(undefined));
    Ok(())
}
