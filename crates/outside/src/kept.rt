ghost use Rattle.std.specs.Prelude.{◌≡◌, IfOk};

use bson_values::{Bytes, List, NoMemory, Space, Text};
use std::alloc::Global;

/// A row of a table: the text stands under its key, at a place among the other rows.
#[derive(Drop)]
pub struct KeptRow {
    pub place: u64,
    pub key: Bytes,
    pub text: Text,
}

/// A table: its number, the name of its collection, and its rows in order.
#[derive(Drop)]
pub struct KeptTable {
    pub number: u64,
    pub space: Space,
    pub rows: List<KeptRow>,
}

/// All tables of a keeper, in order of creation.
#[derive(Drop)]
pub struct Kept {
    pub tables: List<KeptTable>,
}

/// What is done to kept tables. The first table of a number counts, and in it the first row of a key; where there is none, nothing
/// is done by the last three.
#[derive(Drop)]
pub enum Change {
    /// Adds an empty table last.
    Create {
        number: u64,
        space: Space,
    },
    /// Takes the table out.
    Drop {
        number: u64,
    },
    /// Replaces the text under a key that the table has, and keeps its place. Adds a row last for a key that it lacks.
    Put {
        number: u64,
        place: u64,
        key: Bytes,
        text: Text,
    },
    /// Takes the row out.
    Cut {
        number: u64,
        key: Bytes,
    },
}

impl KeptRow {
    pub(crate) fn copy(&self, alloc: Global) -> Result<KeptRow, NoMemory>
        ensures { IfOk result (λ copied. copied ≡ self.now) }
    {
        let key = self.key.copy(alloc)?;
        let text = self.text.copy(alloc)?;
        Ok(KeptRow {
            place: self.place,
            key,
            text,
        })
    }
}
