use crate::fields::Fields;
use bson_values::{List, Text};

/// A JSON value (RFC 8259) whose numbers are whole.
#[derive(Drop)]
pub enum Json {
    Null,
    Bool(bool),
    Whole(i128),
    Text(Text),
    Array(List<Json>),
    Object(Fields<Json>),
}
