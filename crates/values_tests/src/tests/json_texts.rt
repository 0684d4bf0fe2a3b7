//! Texts that are read, with what is printed of them, and texts that are refused.

use bson_values::Text;
use jsonb_contain::{TextRefused, read_text, text};
use std::alloc::Global;
use std::test::Fail;

static READ: [(&str, &str); 6] = [
    ("null", "null"),
    // The last of a name counts, and names are printed in order.
    (r#" { "b" : 1 , "a" : 2 , "b" : 3 } "#, r#"{"a":2,"b":3}"#),
    (
        "[-9223372036854775808, 18446744073709551615, 0]",
        "[-9223372036854775808,18446744073709551615,0]",
    ),
    (
        r#""\u00e9\n\ud83d\ude00\u0001""#,
        "\"\u{e9}\\n\u{1f600}\\u0001\"",
    ),
    (
        r#"{"a":[true,false,{}],"":[]}"#,
        r#"{"":[],"a":[true,false,{}]}"#,
    ),
    (
        r#""a text of more than twenty-two bytes""#,
        r#""a text of more than twenty-two bytes""#,
    ),
];

static REFUSED: [&str; 9] = [
    "",
    "1.5",
    "1e3",
    "-0",
    // 2^64, and below -2^63.
    "18446744073709551616",
    "-9223372036854775809",
    r#""\ud800""#,
    "[1,]",
    "1 2",
];

/// 129 levels.
static NESTED: &str =
    "[[[[[[[[[[[[[[[[[[[[[[[[[[[[[[[[[[[[[[[[[[[[[[[[[[[[[[[[[[[[[[[[[[[[[[[[[[[[[[[[[[[[[[[[[[[[[[[[[[[[\
    [[[[[[[[[[[[[[[[[[[[[[[[[[[[[\
    ]]]]]]]]]]]]]]]]]]]]]]]]]]]]]]]]]]]]]]]]]]]]]]]]]]]]]]]]]]]]]]]]]]]]]]]]]]]]]]]]]]]]]]]]]]]]]]]]]]]]\
    ]]]]]]]]]]]]]]]]]]]]]]]]]]]]]";

fn again(alloc: Global, given: &str) -> Result<Text, TextRefused> {
    let json = read_text(alloc, given)?;
    let copied = json.copy(alloc)?;
    Ok(text(alloc, &copied)?)
}

#[test]
fn what_is_read_is_printed_so(rt: HostRuntime) -> Result<(), Fail> {
    for (given, printed) in &READ {
        let text = again(rt.alloc(), given)?;
        assert!(rt; text.as_str() == *printed, "{given}");
    }
    Ok(())
}

fn is_refused(alloc: Global, given: &str) -> bool {
    match read_text(alloc, given) {
        Ok(_) => false,
        Err(refused) => refused == TextRefused::NotJson,
    }
}

#[test]
fn other_texts_are_no_json(rt: HostRuntime) {
    for given in &REFUSED {
        assert!(rt; is_refused(rt.alloc(), given), "{given}");
    }
}

#[test]
fn at_most_127_levels_are_read(rt: HostRuntime) {
    assert!(rt; is_refused(rt.alloc(), NESTED));
    assert!(rt; is_refused(rt.alloc(), &NESTED[1..257]));
    assert!(rt; !is_refused(rt.alloc(), &NESTED[2..256]));
}
