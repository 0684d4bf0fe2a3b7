//! Values: the tables of the public surface: numbers and their names.
#![tactic(auto)]

mod case_table;
mod kinds;
mod laws;
mod refusals;
mod tables;

pub use case_table::{Case, CaseTable};
pub use kinds::{
    BAD_ID, BAD_OPERAND, BAD_PATH, BAD_PROJECTION, BAD_UPDATE, CURSOR_NOT_FOUND,
    DOCUMENT_TOO_LARGE, DUPLICATE_KEY, FIELD_GIVEN_TWICE, FIELD_MISSING, FIELD_OUT_OF_RANGE,
    FOREIGN_CURSOR, ID_CANNOT_CHANGE, INTERNAL_ERROR, INVALID_NAMESPACE, KINDS, Kind,
    NAMESPACE_EXISTS, NAMESPACE_NOT_FOUND, NO_SUCH_COMMAND, NOT_A_WHOLE_NUMBER, NOT_STORABLE,
    NOT_SUPPORTED, NUMBER_OUT_OF_RANGE, NUMBERS_SPENT, OUT_OF_MEMORY, PATH_NOT_VIABLE,
    PATHS_CONFLICT, RESERVED, TOO_MANY_COLLECTIONS, TOO_MANY_CURSORS, UNKNOWN_FIELD,
    UNKNOWN_OPERATOR, UNSUPPORTED_TYPE, WRONG_OPERAND_TYPE, WRONG_TYPE,
};
pub use laws::{a_distinct_table_gives_back_each_row, kinds_are_as_listed};
pub use refusals::{code_name_of, code_of, tables_are_distinct, text_of, type_name_of};
pub use tables::{CODES, TYPES};
