//! Documents with the texts of their rows, both ways.

use super::samples::Sample::{
    self, Arr, Bin, Bool, Date, Doc, Id, Int, Long, Null, Regex as Pattern, Stamp, Str,
};
use super::samples::document;
use bson_values::{NoMemory, Text, Value};
use jsonb_contain::{read_text, text};
use std::alloc::Global;
use std::test::Fail;
use typed_json::{from_row, plain, to_row};

static ROWS: [(&[(&str, Sample)], &str); 7] = [
    (&[], r#"{"$s":{"$k":[],"p":{}}}"#),
    (
        &[("_id", Int(1)), ("v", Str("a"))],
        r#"{"$s":{"$k":["_id","v"],"p":{"_id":{"t":"int"},"v":{"t":"string"}}},"_id":1,"v":"a"}"#,
    ),
    (
        &[("v", Str("a")), ("_id", Int(1))],
        r#"{"$s":{"$k":["v","_id"],"p":{"_id":{"t":"int"},"v":{"t":"string"}}},"_id":1,"v":"a"}"#,
    ),
    (
        &[("_id", Int(1)), ("b", Bin(0, b"\x00\xff"))],
        r#"{"$s":{"$k":["_id","b"],"p":{"_id":{"t":"int"},"b":{"s":0,"t":"binData"}}},"_id":1,"b":"AP8="}"#,
    ),
    (
        &[
            ("_id", Int(1)),
            ("a", Arr(&[Int(1), Doc(&[("b", Bool(true))])])),
        ],
        r#"{"$s":{"$k":["_id","a"],"p":{"_id":{"t":"int"},"a":{"i":[{"t":"int"},{"$s":{"$k":["b"],"p":{"b":{"t":"bool"}}},
            "t":"object"}],"t":"array"}}},"_id":1,"a":[1,{"b":true}]}"#,
    ),
    // A name before `$s`, and the ends of the numbers.
    (
        &[
            ("", Long(i64::MIN)),
            ("!", Stamp(u64::MAX)),
            ("d", Date(i64::MAX)),
            ("i", Int(i32::MIN)),
        ],
        r#"{"":-9223372036854775808,"!":18446744073709551615,"$s":{"$k":["","!","d","i"],"p":{"":{"t":"long"},
            "!":{"t":"timestamp"},"d":{"t":"date"},"i":{"t":"int"}}},"d":9223372036854775807,"i":-2147483648}"#,
    ),
    // All twelve types.
    (
        &[
            ("_id", Int(1)),
            ("s", Str("x")),
            ("d", Doc(&[("z", Int(2)), ("a", Null)])),
            ("l", Arr(&[Long(3), Str("y")])),
            ("b", Bin(5, b"\x01\x02")),
            ("o", Id([1, 2, 3, 4, 5, 6, 7, 8, 9, 10, 11, 12])),
            ("t", Bool(true)),
            ("w", Date(-2)),
            ("n", Null),
            ("r", Pattern("^x", "i")),
            ("u", Stamp(4_294_967_299)),
            ("g", Long(5)),
        ],
        r#"{"$s":{"$k":["_id","s","d","l","b","o","t","w","n","r","u","g"],"p":{"_id":{"t":"int"},"b":{"s":5,"t":"binData"},
            "d":{"$s":{"$k":["z","a"],"p":{"a":{"t":"null"},"z":{"t":"int"}}},"t":"object"},"g":{"t":"long"},
            "l":{"i":[{"t":"long"},{"t":"string"}],"t":"array"},"n":{"t":"null"},"o":{"t":"objectId"},"r":{"o":"i","t":"regex"},
            "s":{"t":"string"},"t":{"t":"bool"},"u":{"t":"timestamp"},"w":{"t":"date"}}},"_id":1,"b":"AQI=","d":{"a":null,"z":2},
            "g":5,"l":[3,"y"],"n":null,"o":"0102030405060708090a0b0c","r":"^x","s":"x","t":true,"u":4294967299,"w":-2}"#,
    ),
];

/// The text as a table writes it, on several lines.
fn is(found: &str, wanted: &str) -> bool {
    let wanted = wanted
        .as_bytes()
        .iter()
        .filter(|byte| !byte.is_ascii_whitespace());
    found.as_bytes().iter().eq(wanted)
}

fn written(alloc: Global, pairs: &[(&str, Sample)]) -> Result<Text, NoMemory> {
    let doc = document(alloc, pairs)?;
    let row = to_row(alloc, &doc)?;
    text(alloc, &row)
}

#[test]
fn a_row_with_ample_memory_has_this_text(rt: HostRuntime) -> Result<(), Fail> {
    for (place, (pairs, wanted)) in ROWS.iter().enumerate() {
        let found = written(rt.alloc(), pairs)?;
        assert!(rt; is(found.as_str(), wanted), "row {place}");
    }
    Ok(())
}

/// The text once more, by way of its document.
fn again(alloc: Global, row: &str) -> Option<Text> {
    let row = read_text(alloc, row).ok()?;
    let doc = from_row(alloc, &row).ok()?;
    let row = to_row(alloc, &doc).ok()?;
    text(alloc, &row).ok()
}

#[test]
fn a_text_gives_its_document_back(rt: HostRuntime) -> Result<(), Fail> {
    for (place, (_, row)) in ROWS.iter().enumerate() {
        let same = match again(rt.alloc(), row) {
            Some(found) => is(found.as_str(), row),
            None => false,
        };
        assert!(rt; same, "row {place}");
    }
    Ok(())
}

/// A row's first field, by its name and type.
fn begins_with_an_int(alloc: Global, row: &str, name: &str) -> Option<bool> {
    let row = read_text(alloc, row).ok()?;
    let doc = from_row(alloc, &row).ok()?;
    match doc.pair(0) {
        Some((found, Value::Int(1))) => Some(found == name),
        _ => None,
    }
}

#[test]
fn fields_come_back_in_their_order(rt: HostRuntime) -> Result<(), Fail> {
    let row =
        r#"{"$s":{"$k":["v","_id"],"p":{"_id":{"t":"string"},"v":{"t":"int"}}},"_id":"a","v":1}"#;
    assert!(rt; begins_with_an_int(rt.alloc(), row, "v") == Some(true));
    Ok(())
}

fn plain_text(alloc: Global, text_of: &str) -> Result<Text, NoMemory> {
    let value = Value::Str(Text::of(alloc, text_of)?);
    let json = plain(alloc, &value)?;
    text(alloc, &json)
}

#[test]
fn a_plain_value_has_this_text(rt: HostRuntime) -> Result<(), Fail> {
    let found = plain_text(rt.alloc(), "a")?;
    assert!(rt; found.as_str() == "\"a\"");
    Ok(())
}
