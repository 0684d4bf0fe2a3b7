//! Pairs of JSON values, with whether the first contains the second (PostgreSQL manual, "jsonb Containment and Existence").

use jsonb_contain::{TextRefused, contains, read_text};
use std::alloc::Global;
use std::test::Fail;

static ROWS: [(&str, &str, bool); 16] = [
    ("[1,2,3]", "[1,2,2]", true),
    ("[1,2,[1,3]]", "[1,3]", false),
    ("[1,2,[1,3]]", "[[1,3]]", true),
    (r#"{"foo":{"bar":"baz"}}"#, r#"{"bar":"baz"}"#, false),
    (r#"{"foo":{"bar":"baz"}}"#, r#"{"foo":{}}"#, true),
    ("[1,2]", "2", true),
    ("2", "[2]", false),
    (r#"{"a":[1,2]}"#, r#"{"a":1}"#, false),
    (r#"{"a":1,"b":null}"#, r#"{"b":null}"#, true),
    (r#"{"a":1,"b":null}"#, r#"{"c":null}"#, false),
    (r#"{"a":"x"}"#, r#"{"a":"y"}"#, false),
    ("[[1,2]]", "[[2]]", true),
    ("[[1,2]]", "[2]", false),
    ("[]", "null", false),
    ("true", "true", true),
    ("[{}]", "{}", false),
];

fn contains_text(alloc: Global, all: &str, one: &str) -> Result<bool, TextRefused> {
    let all = read_text(alloc, all)?;
    let one = read_text(alloc, one)?;
    Ok(contains(&all, &one))
}

#[test]
fn the_first_contains_the_second_as_told(rt: HostRuntime) -> Result<(), Fail> {
    for (all, one, expected) in &ROWS {
        let found = contains_text(rt.alloc(), all, one)?;
        assert!(rt; found == *expected, "{all} {one}");
    }
    Ok(())
}
