ghost use Rattle.std.specs.Prelude.{◌≡◌, ◌≤◌, IfOk, Some, true};
ghost use Rattle.serde_json.specs.Data.{depth};
ghost use Rattle.serde_json.specs.Read.{max_depth};
ghost use Rattle.serde_json.specs.Written.{compact_text};
ghost use Rattle.jsonb_contain.specs.Texts.{data_of, fits, read_json};

use crate::shared::SharedJson;
use bson_values::{Bytes, NoMemory, Text};
use jsonb_contain::{Json, text};
use std::alloc::Global;

/// JSON under a key, with its text.
#[derive(Drop)]
pub struct Row {
    pub key: Bytes,
    pub json: SharedJson,
    pub text: Text,
}

impl Row {
    /// The row of a JSON, with its compact text.
    pub fn new(alloc: Global, key: Bytes, json: Json) -> Result<Row, NoMemory>
        ensures key { IfOk result (λ row. row.key ≡ key) }
        ensures json { IfOk result (λ row. row.json ≡ json) }
        ensures text { IfOk result (λ row. row.text ≡ compact_text (data_of json)) }
        ensures read_again { IfOk result (λ row. fits json ≡ true → depth (data_of json) ≤ max_depth
            → read_json row.text ≡ Some json) }
    {
        let text = text(alloc, &json)?;
        let json = SharedJson::new(alloc, json)?;
        Ok(Row { key, json, text })
    }

    /// A copy that shares the JSON and the text.
    pub fn copy(&self, alloc: Global) -> Result<Row, NoMemory>
        ensures { IfOk result (λ copied. copied ≡ self.now) }
    {
        let key = self.key.copy(alloc)?;
        let json = self.json.copy()?;
        let text = self.text.copy(alloc)?;
        Ok(Row { key, json, text })
    }
}
