use crate::case_table::{Case, CaseTable};

/// The row number of a refusal in `KINDS`.
pub type Kind = u32;

/// The store could not keep a change.
pub const INTERNAL_ERROR: Kind = 1;
/// A type of BSON 1.1 that this profile leaves out.
pub const UNSUPPORTED_TYPE: Kind = 2;
/// No operator has that name.
pub const UNKNOWN_OPERATOR: Kind = 3;
/// An operator is given a value that it does not take.
pub const BAD_OPERAND: Kind = 4;
/// The value of `_id` has a type that no `_id` has.
pub const BAD_ID: Kind = 5;
/// The document has a name or a depth that none in the store has.
pub const NOT_STORABLE: Kind = 6;
/// A sum or a product is past the last number of its type.
pub const NUMBER_OUT_OF_RANGE: Kind = 7;
/// A field of a command has a number that the command does not take.
pub const FIELD_OUT_OF_RANGE: Kind = 8;
/// What stands where a path is wanted is none.
pub const BAD_PATH: Kind = 9;
/// An update's operator meets a value of a type that it does not change.
pub const WRONG_OPERAND_TYPE: Kind = 10;
/// A projection takes in and leaves out, or one of its paths leads through another.
pub const BAD_PROJECTION: Kind = 11;
/// A field that the command does not have.
pub const UNKNOWN_FIELD: Kind = 12;
/// A field stands twice in a message.
pub const FIELD_GIVEN_TWICE: Kind = 13;
/// A field that the command needs is absent.
pub const FIELD_MISSING: Kind = 14;
/// An update that is neither a replacement nor operators.
pub const BAD_UPDATE: Kind = 15;
/// The cursor was opened on another collection.
pub const FOREIGN_CURSOR: Kind = 16;
/// A field's value has another type than the command takes.
pub const WRONG_TYPE: Kind = 17;
/// A number with a fraction, or none at all.
pub const NOT_A_WHOLE_NUMBER: Kind = 18;
/// There is no such collection.
pub const NAMESPACE_NOT_FOUND: Kind = 19;
/// There is such a collection already.
pub const NAMESPACE_EXISTS: Kind = 20;
/// A path leads through a value that holds no fields.
pub const PATH_NOT_VIABLE: Kind = 21;
/// Two operators of an update change one place.
pub const PATHS_CONFLICT: Kind = 22;
/// There is no such cursor, or it is spent.
pub const CURSOR_NOT_FOUND: Kind = 23;
/// Memory ran out.
pub const OUT_OF_MEMORY: Kind = 24;
/// The first name of the body is no command's.
pub const NO_SUCH_COMMAND: Kind = 25;
/// An update would give the document another `_id`.
pub const ID_CANNOT_CHANGE: Kind = 26;
/// The name of a database or of a collection has a character, a length or a beginning that none has.
pub const INVALID_NAMESPACE: Kind = 27;
/// A second number of `DOCUMENT_TOO_LARGE`, which nothing tells.
pub const RESERVED: Kind = 28;
/// Left out of this profile.
pub const NOT_SUPPORTED: Kind = 29;
/// The document has more bytes than one may have.
pub const DOCUMENT_TOO_LARGE: Kind = 30;
/// The collection has a document with the same `_id`.
pub const DUPLICATE_KEY: Kind = 31;
/// There are as many open cursors as there may be.
pub const TOO_MANY_CURSORS: Kind = 32;
/// The next number is past the last.
pub const NUMBERS_SPENT: Kind = 33;
/// There are as many collections as there may be.
pub const TOO_MANY_COLLECTIONS: Kind = 34;

/// A kind of refusal, and the error code that is told with it.
#[derive(Clone, Copy)]
pub(crate) struct Coded {
    pub(crate) kind: Kind,
    pub(crate) code: u32,
}

/// The kinds as rows `kind => error code, sentence`, which it hands to a macro that takes what it wants of them.
macro_rules! kinds {
    ($rows:ident) => {
        $rows! {
            INTERNAL_ERROR => 1, "the store could not keep the change";
            UNSUPPORTED_TYPE => 2, "unsupported BSON type";
            UNKNOWN_OPERATOR => 2, "unknown operator";
            BAD_OPERAND => 2, "bad operand";
            BAD_ID => 2, "value cannot be an _id";
            NOT_STORABLE => 2, "document cannot be stored";
            NUMBER_OUT_OF_RANGE => 2, "number out of range";
            FIELD_OUT_OF_RANGE => 2, "field value out of range";
            BAD_PATH => 2, "bad path";
            WRONG_OPERAND_TYPE => 2, "operator does not apply to the value";
            BAD_PROJECTION => 2, "bad projection";
            UNKNOWN_FIELD => 9, "unknown field";
            FIELD_GIVEN_TWICE => 9, "field given twice";
            FIELD_MISSING => 9, "field missing";
            BAD_UPDATE => 9, "bad update";
            FOREIGN_CURSOR => 13, "cursor belongs to another namespace";
            WRONG_TYPE => 14, "field has the wrong type";
            NOT_A_WHOLE_NUMBER => 14, "value is not a whole number";
            NAMESPACE_NOT_FOUND => 26, "ns not found";
            NAMESPACE_EXISTS => 48, "collection exists";
            PATH_NOT_VIABLE => 28, "path cannot be created";
            PATHS_CONFLICT => 40, "update paths conflict";
            CURSOR_NOT_FOUND => 43, "cursor not found";
            OUT_OF_MEMORY => 146, "out of memory";
            NO_SUCH_COMMAND => 59, "no such command";
            ID_CANNOT_CHANGE => 66, "_id cannot change";
            INVALID_NAMESPACE => 73, "invalid namespace";
            RESERVED => 10334, "reserved, same as 30";
            NOT_SUPPORTED => 238, "not supported";
            DOCUMENT_TOO_LARGE => 10334, "document too large";
            DUPLICATE_KEY => 11000, "duplicate key";
            TOO_MANY_CURSORS => 20001, "too many cursors";
            NUMBERS_SPENT => 20002, "store numbers are spent";
            TOO_MANY_COLLECTIONS => 20003, "too many collections";
        }
    };
}

macro_rules! sentences {
    ($($kind:ident => $code:literal, $text:literal;)*) => {
        &[$(Case { code: $kind, name: $text }),*]
    };
}

macro_rules! error_codes {
    ($($kind:ident => $code:literal, $text:literal;)*) => {
        [$(Coded { kind: $kind, code: $code }),*]
    };
}

/// The kinds of refusals, each with its sentence.
pub const KINDS: CaseTable = CaseTable {
    rows: kinds!(sentences),
};

/// The error code of each kind: MongoDB's, and from 20001 on this server's own.
pub(crate) const CODED: [Coded; 34] = kinds!(error_codes);
