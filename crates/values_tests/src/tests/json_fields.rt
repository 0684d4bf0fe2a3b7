//! Fields of pairs in any order.

use bson_values::{List, NoMemory, Pair, Text};
use jsonb_contain::{Fields, Json, TextRefused, equal, read_text};
use std::alloc::Global;
use std::test::Fail;

/// The last of a name counts.
static GIVEN: [(&str, i128); 5] = [("b", 1), ("", 2), ("b", 3), ("aa", 4), ("a", 5)];

static EXPECTED: &str = r#"{"":2,"a":5,"aa":4,"b":3}"#;

fn pairs(alloc: Global) -> Result<List<Pair<Json>>, NoMemory> {
    let mut pairs = List::new(alloc);
    for (name, number) in &GIVEN {
        let name = Text::of(alloc, name)?;
        let value = Json::Whole(*number);
        pairs.push(Pair { name, value }).map_err(|_| NoMemory)?;
    }
    Ok(pairs)
}

fn is_as_expected(alloc: Global) -> Result<bool, TextRefused> {
    let fields = Fields::of(alloc, pairs(alloc)?)?;
    let expected = read_text(alloc, EXPECTED)?;
    Ok(equal(&Json::Object(fields), &expected))
}

#[test]
fn fields_of_pairs_with_ample_memory_are_in_order(rt: HostRuntime) -> Result<(), Fail> {
    assert!(rt; is_as_expected(rt.alloc())?);
    Ok(())
}
