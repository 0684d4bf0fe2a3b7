ghost use Rattle.std.specs.Prelude.{◌≡◌, IfOk};

use crate::cond::Cond;
use crate::fields::Fields;
use crate::value::Json;
use bson_values::{List, NoMemory, Pair};
use std::alloc::Global;

impl Json {
    #[cycle(copy)]
    pub fn copy(&self, alloc: Global) -> Result<Json, NoMemory>
        ensures { IfOk result (λ copied. copied ≡ self.now) }
    {
        match self {
            Json::Null => Ok(Json::Null),
            Json::Bool(truth) => Ok(Json::Bool(*truth)),
            Json::Whole(number) => Ok(Json::Whole(*number)),
            Json::Text(text) => Ok(Json::Text(text.copy(alloc)?)),
            Json::Array(items) => Ok(Json::Array(copy_items(items, alloc)?)),
            Json::Object(fields) => Ok(Json::Object(fields.copy(alloc)?)),
        }
    }
}

#[cycle(copy)]
fn copy_items(items: &List<Json>, alloc: Global) -> Result<List<Json>, NoMemory>
    ensures { IfOk result (λ copied. copied ≡ items.now) }
{
    let mut copied = List::from_vec(Vec::with_capacity(alloc, items.len())?);
    for item in items.as_slice() {
        let again = item.copy(alloc)?;
        copied.add(again)?;
    }
    Ok(copied)
}

impl Fields<Json> {
    #[cycle(copy)]
    pub fn copy(&self, alloc: Global) -> Result<Fields<Json>, NoMemory>
        ensures { IfOk result (λ copied. copied ≡ self.now) }
    {
        let mut copied = List::from_vec(Vec::with_capacity(alloc, self.len())?);
        for pair in self.as_slice() {
            let name = pair.name.copy(alloc)?;
            let value = pair.value.copy(alloc)?;
            copied.add(Pair { name, value })?;
        }
        Ok(Fields::from_list(copied))
    }
}

impl Cond {
    #[cycle(copy_cond)]
    pub fn copy(&self, alloc: Global) -> Result<Cond, NoMemory>
        ensures { IfOk result (λ copied. copied ≡ self.now) }
    {
        match self {
            Cond::KeyIs(key) => Ok(Cond::KeyIs(key.copy(alloc)?)),
            Cond::AtKey(name, json) => {
                let name = name.copy(alloc)?;
                let json = json.copy(alloc)?;
                Ok(Cond::AtKey(name, json))
            }
            Cond::Any(conds) => Ok(Cond::Any(copy_conds(conds, alloc)?)),
            Cond::All(conds) => Ok(Cond::All(copy_conds(conds, alloc)?)),
        }
    }
}

#[cycle(copy_cond)]
fn copy_conds(conds: &List<Cond>, alloc: Global) -> Result<List<Cond>, NoMemory>
    ensures { IfOk result (λ copied. copied ≡ conds.now) }
{
    let mut copied = List::new(alloc);
    for cond in conds.as_slice() {
        let again = cond.copy(alloc)?;
        copied.add(again)?;
    }
    Ok(copied)
}
