//! Keys and rows, with whether they meet a condition.

use bson_values::{Bytes, List, NoMemory, Text};
use jsonb_contain::{Cond, Json, TextRefused, meets, read_text};
use std::alloc::Global;
use std::test::Fail;

static ROWS: [(&[u8], &str, bool); 6] = [
    (b"k", "{}", true),
    (b"", "{}", false),
    (b"", r#"{"a":1}"#, true),
    (b"", r#"{"a":[2,1]}"#, true),
    (b"", r#"{"a":[[1]]}"#, false),
    (b"", r#"{"b":1}"#, false),
];

/// The key is `k`, or the row has 1 under `a`.
fn either(alloc: Global) -> Result<List<Cond>, NoMemory> {
    let key = Cond::KeyIs(Bytes::of(alloc, b"k")?);
    let value = Cond::AtKey(Text::of(alloc, "a")?, Json::Whole(1));
    Ok(List::from_vec(vec![in alloc; key, value]?))
}

/// The same, and all of no conditions.
fn cond(alloc: Global) -> Result<Cond, NoMemory> {
    let either = Cond::Any(either(alloc)?);
    let every = Cond::All(List::new(alloc));
    let cond = Cond::All(List::from_vec(vec![in alloc; either, every]?));
    cond.copy(alloc)
}

fn is_met(alloc: Global, key: &[u8], row: &str) -> Result<bool, TextRefused> {
    let cond = cond(alloc)?;
    let key = Bytes::of(alloc, key)?;
    let row = read_text(alloc, row)?;
    Ok(meets(&cond, &key, &row))
}

#[test]
fn keys_and_rows_meet_the_condition_as_told(rt: HostRuntime) -> Result<(), Fail> {
    for (place, (key, row, expected)) in ROWS.iter().enumerate() {
        let met = is_met(rt.alloc(), key, row)?;
        assert!(rt; met == *expected, "row {place}");
    }
    Ok(())
}
