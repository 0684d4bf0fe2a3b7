//! Pairs of values, each with how the first stands beside the second.

use super::samples::{Sample, value};
use Ordering::{Equal, Greater, Less};
use Sample::{Arr, Bin, Bool, Date, Doc, Id, Int, Long, Null, Regex as Pattern, Stamp, Str};
use bson_order::compare;
use bson_values::NoMemory;
use std::alloc::Global;
use std::cmp::Ordering;
use std::test::Fail;

static ROWS: [(Sample, Sample, Ordering); 52] = [
    // By rank, whatever the values.
    (Null, Int(-1), Less),
    (Long(9), Str(""), Less),
    (Str("z"), Doc(&[]), Less),
    (Doc(&[("z", Null)]), Arr(&[]), Less),
    (Arr(&[Pattern("z", "z")]), Bin(0, &[]), Less),
    (Bin(255, &[255; 13]), Id([0; 12]), Less),
    (Id([255; 12]), Bool(false), Less),
    (Bool(true), Date(-1), Less),
    (Date(1), Stamp(0), Less),
    (Stamp(u64::MAX), Pattern("", ""), Less),
    (Pattern("", ""), Null, Greater),
    (Null, Null, Equal),
    // Numbers by value.
    (Long(2_147_483_648), Long(2_147_483_647), Greater),
    (Int(1), Long(1), Equal),
    (Long(-1), Int(-1), Equal),
    (Int(2), Long(1), Greater),
    (Long(-2_147_483_649), Int(i32::MIN), Less),
    (Int(-1), Int(0), Less),
    (Long(i64::MIN), Long(i64::MAX), Less),
    // Texts by bytes.
    (Str("a"), Str("aa"), Less),
    (Str("b"), Str("aa"), Greater),
    (Str("Z"), Str("a"), Less),
    (Str("z"), Str("\u{e9}"), Less),
    (Str("a\0"), Str("a"), Greater),
    (Str("ferret"), Str("ferret"), Equal),
    // Binaries by length, then subtype, then bytes.
    (Bin(0, &[0, 0]), Bin(0, &[255]), Greater),
    (Bin(0, &[0, 0]), Bin(9, &[255]), Greater),
    (Bin(1, &[0]), Bin(0, &[255]), Greater),
    (Bin(5, &[1, 2]), Bin(5, &[1, 3]), Less),
    (Bin(5, &[1, 2]), Bin(5, &[1, 2]), Equal),
    // ObjectIds by bytes.
    (
        Id([0, 1, 0, 0, 0, 0, 0, 0, 0, 0, 0, 0]),
        Id([0, 0, 255, 255, 255, 255, 255, 255, 255, 255, 255, 255]),
        Greater,
    ),
    (Id([7; 12]), Id([7; 12]), Equal),
    // Bools, dates and timestamps.
    (Bool(false), Bool(true), Less),
    (Bool(true), Bool(true), Equal),
    (Date(-1), Date(0), Less),
    (Date(-1), Date(-2), Greater),
    (Stamp(9_223_372_036_854_775_808), Stamp(1), Greater),
    (Stamp(1), Stamp(1), Equal),
    // Regexes by pattern, then options.
    (Pattern("a", "x"), Pattern("b", "i"), Less),
    (Pattern("a", "i"), Pattern("a", "x"), Less),
    (Pattern("a", ""), Pattern("a", ""), Equal),
    // Documents pair by pair: rank, name, value.
    (Doc(&[("a", Int(1))]), Doc(&[("b", Int(0))]), Less),
    (Doc(&[("a", Int(1))]), Doc(&[("b", Null)]), Greater),
    (Doc(&[("a", Int(1))]), Doc(&[("a", Long(1))]), Equal),
    (
        Doc(&[("a", Int(1)), ("b", Int(2))]),
        Doc(&[("b", Int(2)), ("a", Int(1))]),
        Less,
    ),
    (
        Doc(&[("a", Int(2))]),
        Doc(&[("a", Int(1)), ("b", Null)]),
        Greater,
    ),
    (
        Doc(&[("a", Int(1))]),
        Doc(&[("a", Int(1)), ("b", Null)]),
        Less,
    ),
    (
        Doc(&[("a", Doc(&[("x", Int(2))]))]),
        Doc(&[("a", Doc(&[("x", Long(1))]))]),
        Greater,
    ),
    // Arrays element by element.
    (Arr(&[]), Arr(&[Null]), Less),
    (Arr(&[Int(2)]), Arr(&[Int(1), Int(3)]), Greater),
    (Arr(&[Str("a"), Int(1)]), Arr(&[Str("a"), Long(1)]), Equal),
    (Arr(&[Arr(&[]), Null]), Arr(&[Arr(&[Null])]), Less),
];

fn stand(alloc: Global, one: &Sample, other: &Sample) -> Result<Ordering, NoMemory> {
    let one = value(alloc, one)?;
    let other = value(alloc, other)?;
    Ok(compare(&one, &other))
}

#[test]
fn values_stand_as_the_table_says(rt: HostRuntime) -> Result<(), Fail> {
    for (place, (one, other, stands)) in ROWS.iter().enumerate() {
        let found = stand(rt.alloc(), one, other)?;
        assert!(rt; found == *stands, "row {place}");
    }
    Ok(())
}
