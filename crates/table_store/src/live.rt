ghost use Rattle.std.specs.Prelude.{◌≡◌};
ghost use Rattle.table_store.specs.Ran.{refusal_of};

use bson_values::Space;
use outside::KeepError;
use std::alloc::Global;
use table_rows::Table;
use table_words::TableReply;

/// The most tables that there may be.
pub(crate) const MOST_TABLES: usize = 10_000;

/// The last number that is given: 2^63 - 1.
pub(crate) const LAST_NUMBER: u64 = 0x7fff_ffff_ffff_ffff;

/// A live table with its name.
#[derive(Drop)]
pub struct Live {
    pub space: Space,
    pub table: Table,
}

/// The live tables in the order of their creation, the number that is given next, and the keeper.
#[derive(Drop)]
pub struct LiveTables<K> {
    pub live: Vec<Live>,
    pub next: u64,
    pub keeper: K,
    pub alloc: Global,
}

/// What is replied where the keeper refuses.
pub(crate) fn refusal_of(refused: KeepError) -> TableReply
    ensures { result ≡ refusal_of refused }
{
    match refused {
        KeepError::Failed => TableReply::Fault,
        KeepError::NoMemory => TableReply::NoMemory,
    }
}
