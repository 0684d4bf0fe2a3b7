ghost use Rattle.std.specs.Prelude.{◌≡◌, ◌∷◌, ◌++◌, [], IfOk, OnOk};
ghost use Rattle.typed_json.specs.Row.{field};

use bson_values::{List, NoMemory, Pair, Text};
use jsonb_contain::Json;
use std::alloc::Global;

/// An empty list with room for so many items.
pub(crate) fn room<T: Drop>(alloc: Global, len: usize) -> Result<List<T>, NoMemory>
    ensures { IfOk result (λ it. it ≡ []) }
{
    let items = Vec::with_capacity(alloc, len)?;
    Ok(List::from_vec(items))
}

pub(crate) fn add_field(
    fields: &mut List<Pair<Json>>,
    alloc: Global,
    name: &str,
    value: Json,
) -> Result<(), NoMemory>
    ensures { OnOk result (fields.new ≡ fields.old ++ field name.now value ∷ []) }
{
    let name = Text::of(alloc, name)?;
    fields.add(Pair { name, value })
}
