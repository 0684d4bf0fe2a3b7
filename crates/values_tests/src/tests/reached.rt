//! Documents with what paths reach in them.

use super::samples::{Sample, value};
use Sample::{Arr, Doc, Int};
use bson_values::{List, NoMemory, Value};
use doc_paths::{Path, Reached, reach};
use std::alloc::Global;
use std::test::Fail;

/// What was reached: the number of an int, a hundred more than its length of an array, -1 of a document, and None where it is missing.
static ROWS: [(&str, Sample, &[Option<i32>]); 14] = [
    ("a", Doc(&[("a", Int(1)), ("a", Int(2))]), &[Some(1)]),
    ("b", Doc(&[("a", Int(1))]), &[None]),
    ("a", Doc(&[("a", Arr(&[Int(1), Int(2)]))]), &[Some(102)]),
    ("a.b", Doc(&[("a", Int(1))]), &[None]),
    ("a.b", Doc(&[("a", Arr(&[]))]), &[]),
    ("a.b", Doc(&[("a", Arr(&[Int(1), Arr(&[Int(2)])]))]), &[]),
    (
        "a.b",
        Doc(&[(
            "a",
            Arr(&[Doc(&[("b", Int(1))]), Doc(&[]), Doc(&[("b", Arr(&[]))])]),
        )]),
        &[Some(1), None, Some(100)],
    ),
    ("a.0", Doc(&[("a", Arr(&[Int(1), Int(2)]))]), &[Some(1)]),
    ("a.2", Doc(&[("a", Arr(&[Int(1), Int(2)]))]), &[]),
    ("a.00", Doc(&[("a", Arr(&[Int(1)]))]), &[]),
    ("a.0", Doc(&[("a", Doc(&[("0", Int(1))]))]), &[Some(1)]),
    (
        "a.1",
        Doc(&[("a", Arr(&[Doc(&[("1", Int(5))]), Doc(&[])]))]),
        &[Some(-1), Some(5), None],
    ),
    (
        "a.1.0",
        Doc(&[("a", Arr(&[Int(1), Arr(&[Int(7)])]))]),
        &[Some(7)],
    ),
    ("a.18446744073709551616", Doc(&[("a", Arr(&[Int(1)]))]), &[]),
];

fn told(one: &Reached) -> Option<i32> {
    match one {
        Reached::Missing => None,
        Reached::Found(Value::Int(number)) => Some(*number),
        Reached::Found(Value::Arr(items)) if items.len() < 9 => Some(100 + items.len() as i32),
        Reached::Found(_) => Some(-1),
    }
}

fn are(all: &[Reached], wanted: &[Option<i32>]) -> bool {
    for (place, one) in wanted.iter().enumerate() {
        match all.get(place) {
            Some(found) => {
                if told(found) != *one {
                    return false;
                }
            }
            None => return false,
        }
    }
    all.len() == wanted.len()
}

fn reached(alloc: Global, path: &Path, sample: &Sample) -> Result<List<Reached>, NoMemory> {
    match value(alloc, sample)? {
        Value::Doc(doc) => reach(alloc, &doc, path),
        _ => Ok(List::new(alloc)),
    }
}

#[test]
fn paths_reach_what_the_table_says(rt: HostRuntime) -> Result<(), Fail> {
    for (place, (text, sample, wanted)) in ROWS.iter().enumerate() {
        let path = Path::read(rt.alloc(), text)?;
        let all = reached(rt.alloc(), &path, sample)?;
        assert!(rt; are(all.as_slice(), wanted), "row {place}");
    }
    Ok(())
}
