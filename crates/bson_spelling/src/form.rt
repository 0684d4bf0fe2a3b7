/// How the values of a spelling are written.
#[derive(Clone, Copy)]
pub enum Form {
    /// As BSON 1.1 has them (bsonspec.org).
    Bson,
    /// As BSON 1.1 has them, but for each int, which is spelled as a long, and each length, which is an int64 of the bytes that are
    /// there: so values that compare as the same have the same bytes.
    Key,
}
