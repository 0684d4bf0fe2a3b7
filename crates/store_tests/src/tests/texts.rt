//! The rows of documents, with their keys: the code of a long, and the number in eight bytes.

/// The key of `{_id: 1}`, and its row.
pub const KEY_ONE: &[u8] = b"\x12\x01\0\0\0\0\0\0\0";

pub const ONE: &str = r#"{"$s":{"$k":["_id"],"p":{"_id":{"t":"int"}}},"_id":1}"#;

pub const KEY_TWO: &[u8] = b"\x12\x02\0\0\0\0\0\0\0";

pub const TWO: &str = r#"{"$s":{"$k":["_id"],"p":{"_id":{"t":"int"}}},"_id":2}"#;

pub const KEY_THREE: &[u8] = b"\x12\x03\0\0\0\0\0\0\0";

pub const THREE: &str = r#"{"$s":{"$k":["_id"],"p":{"_id":{"t":"int"}}},"_id":3}"#;

/// The row of `{_id: 2, a: 9}`.
pub const TWO_WITH_NINE: &str =
    r#"{"$s":{"$k":["_id","a"],"p":{"_id":{"t":"int"},"a":{"t":"int"}}},"_id":2,"a":9}"#;
