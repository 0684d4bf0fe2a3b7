use bson_values::{Bytes, List, Space, Text};
use jsonb_contain::Cond;
use table_rows::Row;

/// A change of one row. Where no row has the key, it does nothing.
#[derive(Drop)]
pub enum Edit {
    /// The row of the same key becomes this one, at its place.
    Replace(Row),
    /// The row of the key goes.
    Remove(Bytes),
}

/// What is asked of the tables. A table is asked for by the name of its space, or by its number.
#[derive(Drop)]
pub enum TableCall {
    /// The rows of the space's table that meet the condition.
    SelectNamed {
        space: Space,
        cond: Cond,
    },
    /// The rows of the table that meet the condition.
    Select {
        table: u64,
        cond: Cond,
    },
    /// To add a row to the space's table, which is created where there is none.
    InsertNamed {
        space: Space,
        row: Row,
    },
    /// To add a row to the table.
    Insert {
        table: u64,
        row: Row,
    },
    /// To make the edits in order, and then to add a row, where the table has that stamp still.
    Commit {
        table: u64,
        stamp: u64,
        edits: List<Edit>,
        added: Option<Row>,
    },
    /// To create the space's table.
    Create {
        space: Space,
    },
    /// To drop the space's table.
    Drop {
        space: Space,
    },
    /// To drop all tables of the database.
    DropDatabase {
        db: Text,
    },
    /// The names of the database's collections.
    ListTables {
        db: Text,
    },
    /// The names of the databases.
    ListDatabases,
}

/// What the tables reply.
#[derive(Drop)]
pub enum TableReply {
    /// The rows that were asked for, in order, and the number and the stamp of their table.
    Rows {
        table: u64,
        stamp: u64,
        rows: List<Row>,
    },
    /// The space has no table.
    Absent,
    /// There is no table of that number.
    Gone,
    /// The table has another stamp, which is this.
    Moved(u64),
    /// A row has the key of the row that was to be added.
    Duplicate,
    /// The row was added, or the table created: the table's number, and its stamp now.
    Inserted {
        table: u64,
        stamp: u64,
    },
    /// The commit was made: the table's stamp now.
    Done(u64),
    /// So many tables were dropped.
    Dropped(u64),
    /// The space has a table.
    Exists,
    /// Names, in the order of creation.
    Names(List<Text>),
    /// The numbers of the store are used up.
    Spent,
    /// There are as many tables as there may be.
    Full,
    /// The keeper failed. Nothing was changed.
    Fault,
    /// Memory was wanting. Nothing was changed.
    NoMemory,
}
