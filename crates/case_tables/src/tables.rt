use crate::case_table::{Case, CaseTable};

/// A table of rows `code => name`.
macro_rules! table {
    ($($code:expr => $name:literal,)*) => {
        CaseTable { rows: &[$(Case { code: $code, name: $name }),*] }
    };
}

/// The type byte of a type of BSON 1.1, by the name that `$type` has for it: `type_byte!(string)` is `0x02`.
/// It is a pattern or a value. Minkey's byte -1 is `0xff` here.
#[macro_export]
macro_rules! type_byte {
    (double) => { 0x01 };
    (string) => { 0x02 };
    (object) => { 0x03 };
    (array) => { 0x04 };
    (binData) => { 0x05 };
    (undefined) => { 0x06 };
    (objectId) => { 0x07 };
    (bool) => { 0x08 };
    (date) => { 0x09 };
    (null) => { 0x0a };
    (regex) => { 0x0b };
    (dbPointer) => { 0x0c };
    (javascript) => { 0x0d };
    (symbol) => { 0x0e };
    (javascriptWithScope) => { 0x0f };
    (int) => { 0x10 };
    (timestamp) => { 0x11 };
    (long) => { 0x12 };
    (decimal) => { 0x13 };
    (minKey) => { 0xff };
    (maxKey) => { 0x7f };
}

/// Rows of the types of these names.
macro_rules! types {
    ($($name:ident,)*) => {
        CaseTable { rows: &[$(Case { code: type_byte!($name), name: stringify!($name) }),*] }
    };
}

/// The types of BSON 1.1, each with its type byte and its name.
pub const TYPES: CaseTable = types! {
    double,
    string,
    object,
    array,
    binData,
    undefined,
    objectId,
    bool,
    date,
    null,
    regex,
    dbPointer,
    javascript,
    symbol,
    javascriptWithScope,
    int,
    timestamp,
    long,
    decimal,
    minKey,
    maxKey,
};

/// MongoDB's error codes, each with its code name. Those from 20001 on are this server's own.
pub const CODES: CaseTable = table! {
    1 => "InternalError",
    2 => "BadValue",
    9 => "FailedToParse",
    13 => "Unauthorized",
    14 => "TypeMismatch",
    26 => "NamespaceNotFound",
    28 => "PathNotViable",
    40 => "ConflictingUpdateOperators",
    43 => "CursorNotFound",
    48 => "NamespaceExists",
    59 => "CommandNotFound",
    66 => "ImmutableField",
    73 => "InvalidNamespace",
    146 => "ExceededMemoryLimit",
    238 => "NotImplemented",
    10334 => "BSONObjectTooLarge",
    11000 => "DuplicateKey",
    20001 => "TooManyCursors",
    20002 => "NumbersSpent",
    20003 => "TooManyCollections",
};
