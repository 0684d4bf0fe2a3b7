//! Texts that are the row of no document that may be stored.

use jsonb_contain::read_text;
use std::alloc::Global;
use std::test::Fail;
use typed_json::{RowRefused, from_row};

static REFUSED: [&str; 36] = [
    // No schema, or no object.
    r#"{"_id":1}"#,
    "1",
    r#"[{"$s":{"$k":[],"p":{}}}]"#,
    r#"{"$s":{"$k":[]}}"#,
    r#"{"$s":{"$k":[],"p":{},"v":2}}"#,
    r#"{"$s":{"$k":{},"p":{}}}"#,
    r#"{"$s":[[],{}]}"#,
    // `$k` has a name too many, too few, twice, or what is no name.
    r#"{"$s":{"$k":["_id","v","w"],"p":{"_id":{"t":"int"},"v":{"t":"string"}}},"_id":1,"v":"a"}"#,
    r#"{"$s":{"$k":["_id"],"p":{"_id":{"t":"int"},"v":{"t":"string"}}},"_id":1,"v":"a"}"#,
    r#"{"$s":{"$k":["_id","_id"],"p":{"_id":{"t":"int"},"v":{"t":"string"}}},"_id":1,"v":"a"}"#,
    r#"{"$s":{"$k":["_id","_id"],"p":{"_id":{"t":"int"}}},"_id":1}"#,
    r#"{"$s":{"$k":["_id",1],"p":{"_id":{"t":"int"},"v":{"t":"string"}}},"_id":1,"v":"a"}"#,
    // It names other fields than there are, or fewer or more.
    r#"{"$s":{"$k":["_id","w"],"p":{"_id":{"t":"int"},"w":{"t":"string"}}},"_id":1,"v":"a"}"#,
    r#"{"$s":{"$k":["_id"],"p":{"_id":{"t":"int"}}},"_id":1,"v":"a"}"#,
    r#"{"$s":{"$k":["v","_id"],"p":{"_id":{"t":"int"},"v":{"t":"string"}}},"_id":1}"#,
    r#"{"$s":{"$k":["d"],"p":{"d":{"$s":{"$k":[],"p":{}},"t":"object"}}},"d":{"a":1}}"#,
    r#"{"$s":{"$k":["d"],"p":{"d":{"$s":{"$k":[],"p":{}},"t":"object"}}},"d":{"$s":{"$k":[],"p":{}}}}"#,
    // A type that does not fit its value, or is none.
    r#"{"$s":{"$k":["a"],"p":{"a":{"t":"string"}}},"a":1}"#,
    r#"{"$s":{"$k":["a"],"p":{"a":{"t":"int"}}},"a":"1"}"#,
    r#"{"$s":{"$k":["a"],"p":{"a":{"t":"bool"}}},"a":null}"#,
    r#"{"$s":{"$k":["a"],"p":{"a":{"t":"null"}}},"a":false}"#,
    r#"{"$s":{"$k":["a"],"p":{"a":{"i":[{"t":"int"}],"t":"array"}}},"a":{"0":1}}"#,
    r#"{"$s":{"$k":["a"],"p":{"a":{"i":[{"t":"int"}],"t":"array"}}},"a":[1,2]}"#,
    r#"{"$s":{"$k":["a"],"p":{"a":{"t":"double"}}},"a":1}"#,
    r#"{"$s":{"$k":["a"],"p":{"a":{"t":"int","u":1}}},"a":1}"#,
    // ObjectIds in capitals, base64 without its padding or with bits left over, numbers past their types.
    r#"{"$s":{"$k":["a"],"p":{"a":{"t":"objectId"}}},"a":"0102030405060708090A0B0C"}"#,
    r#"{"$s":{"$k":["a"],"p":{"a":{"t":"objectId"}}},"a":"0102030405060708090a0b"}"#,
    r#"{"$s":{"$k":["a"],"p":{"a":{"s":0,"t":"binData"}}},"a":"AP8"}"#,
    r#"{"$s":{"$k":["a"],"p":{"a":{"s":0,"t":"binData"}}},"a":"AP9="}"#,
    r#"{"$s":{"$k":["a"],"p":{"a":{"s":256,"t":"binData"}}},"a":"AP8="}"#,
    r#"{"$s":{"$k":["a"],"p":{"a":{"t":"int"}}},"a":2147483648}"#,
    r#"{"$s":{"$k":["a"],"p":{"a":{"t":"long"}}},"a":9223372036854775808}"#,
    r#"{"$s":{"$k":["a"],"p":{"a":{"t":"timestamp"}}},"a":-1}"#,
    // Rows of documents that may not be stored.
    r#"{"$s":{"$k":["$a"],"p":{"$a":{"t":"int"}}},"$a":1}"#,
    r#"{"$s":{"$k":["a.b"],"p":{"a.b":{"t":"int"}}},"a.b":1}"#,
    r#"{"$s":{"$k":["a"],"p":{"a":{"t":"string"}}},"a":"\u0000"}"#,
];

fn refused(alloc: Global, row: &str) -> Option<RowRefused> {
    let row = read_text(alloc, row).ok()?;
    match from_row(alloc, &row) {
        Ok(_) => None,
        Err(refused) => Some(refused),
    }
}

#[test]
fn a_text_that_is_no_row_is_refused(rt: HostRuntime) -> Result<(), Fail> {
    for (place, row) in REFUSED.iter().enumerate() {
        assert!(rt;
            refused(rt.alloc(), row) == Some(RowRefused::NotRow),
            "row {place}"
        );
    }
    Ok(())
}
