ghost use Rattle.std.specs.Prelude.{◌≡◌, IfOk};
ghost use Rattle.table_rows.specs.Kept.{row_of};

use crate::row::Row;
use crate::shared::SharedJson;
use bson_values::{NoMemory, Text};
use keyed_rows::Entry;
use std::alloc::Global;

/// What is kept under the key of a row.
#[derive(Drop)]
pub(crate) struct Body {
    pub(crate) json: SharedJson,
    pub(crate) text: Text,
}

/// A copy of the row that is kept, which shares its JSON and its text.
pub(crate) fn row_of(alloc: Global, kept: &Entry<Body>) -> Result<Row, NoMemory>
    ensures { IfOk result (λ row. row ≡ row_of kept.now) }
{
    let key = kept.key.copy(alloc)?;
    let json = kept.value.json.copy()?;
    let text = kept.value.text.copy(alloc)?;
    Ok(Row { key, json, text })
}
