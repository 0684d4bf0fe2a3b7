ghost use Rattle.std.specs.Prelude.{◌≡◌, IfOk};

use bson_values::NoMemory;
use jsonb_contain::Json;
use std::alloc::Global;
use std::marker::Model;
use std::sync::Arc;

/// A JSON that its copies share.
#[derive(Drop)]
pub struct SharedJson {
    json: Arc<Json>,
}

impl Model for SharedJson {
    ghost use Rattle.jsonb_contain.specs.contracts.value.Json as held;
    ghost use Rattle.jsonb_contain.specs.declared.value.Json.{Json as It};

    ghost Value = { It };

    ghost coded = { held.the_row.coded };

    ghost view = { λ it. it.json.value };
}

impl SharedJson {
    pub fn new(alloc: Global, json: Json) -> Result<SharedJson, NoMemory>
        ensures { IfOk result (λ shared. shared ≡ json) }
    {
        let json = Arc::new(alloc, json)?;
        Ok(SharedJson { json })
    }

    pub fn get(&self) -> &Json
        ensures { result.now ≡ self.now }
    {
        &self.json
    }

    pub fn copy(&self) -> Result<SharedJson, NoMemory>
        ensures { IfOk result (λ copied. copied ≡ self.now) }
    {
        let json = Arc::try_clone(&self.json)?;
        Ok(SharedJson { json })
    }
}
