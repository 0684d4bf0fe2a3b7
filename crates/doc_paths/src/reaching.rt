ghost use Rattle.std.specs.Prelude.{◌≡◌, ◌≤◌, ◌++◌, ◌∷◌, [], length, OnOk, IfOk};
ghost use Rattle.std.specs.List.{flat_map};
ghost use Rattle.std.specs.Option.{option_copied};
ghost use Rattle.doc_paths.specs.Reach.{reached, behind_field, behind_item, in_element};
ghost use Rattle.bson_values.specs.declared.value.Value.{out-Value};
ghost use Rattle.bson_values.specs.declared.value.Value.TheVariants as value;

use crate::items::item_at;
use crate::path::Path;
use crate::reached::Reached;
use bson_values::{Document, List, NoMemory, Text, Value};
use std::alloc::Global;

/// What a walk has reached, and how many steps are left to it. Nested arrays can be walked in more ways than anyone can wait for.
#[derive(Drop)]
struct Walk {
    all: List<Reached>,
    steps: u64,
}

impl Walk {
    /// Takes steps from those that are left. A walk of more would reach more than there is memory for.
    fn step(&mut self, steps: usize) -> Result<(), NoMemory>
        ensures { self.new.all ≡ self.old.all }
    {
        let steps = steps as u64;
        if self.steps < steps {
            return Err(NoMemory);
        }
        self.steps -= steps;
        Ok(())
    }
}

/// Adds what the parts reach from a value.
#[cycle(reach)]
fn reach_in(alloc: Global, value: &Value, parts: &[Text], walk: &mut Walk) -> Result<(), NoMemory>
    ensures { OnOk result (walk.new.all ≡ walk.old.all ++ reached parts.now value.now) }
{
    walk.step(1)?;
    match parts.split_first() {
        None => {
            let found = value.copy(alloc)?;
            walk.all.add(Reached::Found(found))
        }
        Some((part, rest)) => match value {
            Value::Doc(document) => reach_field(alloc, document.get(part.as_str()), rest, walk),
            Value::Arr(items) => {
                walk.step(items.len())?;
                reach_item(alloc, item_at(items, part.as_str()), rest, walk)?;
                reach_documents(alloc, items.as_slice(), part.as_str(), rest, walk)
            }
            _ => walk.all.add(Reached::Missing),
        },
    }
}

#[cycle(reach)]
fn reach_field(
    alloc: Global,
    value: Option<&Value>,
    rest: &[Text],
    walk: &mut Walk,
) -> Result<(), NoMemory>
    ensures { OnOk result (walk.new.all ≡ walk.old.all ++ behind_field (reached rest.now) (option_copied value.entry)) }
{
    match value {
        None => walk.all.add(Reached::Missing),
        Some(value) => reach_in(alloc, value, rest, walk),
    }
}

#[cycle(reach)]
fn reach_item(
    alloc: Global,
    value: Option<&Value>,
    rest: &[Text],
    walk: &mut Walk,
) -> Result<(), NoMemory>
    ensures { OnOk result (walk.new.all ≡ walk.old.all ++ behind_item (reached rest.now) (option_copied value.entry)) }
{
    match value {
        None => Ok(()),
        Some(value) => reach_in(alloc, value, rest, walk),
    }
}

/// Adds what is reached in the elements that are documents.
#[cycle(reach)]
fn reach_documents(
    alloc: Global,
    items: &[Value],
    part: &str,
    rest: &[Text],
    walk: &mut Walk,
) -> Result<(), NoMemory>
    ensures { OnOk result (walk.new.all ≡ walk.old.all ++ flat_map (λ item. in_element part.now (reached rest.now) (out-Value item)) items.now) }
{
    for item in items {
        if let Value::Doc(document) = item {
            reach_field(alloc, document.get(part), rest, walk)?;
        }
    }
    Ok(())
}

/// Everything that a path reaches in a document, in order, each value a copy that shares what it can.
///
/// It takes at most as many steps as the document has bytes for each part of the path. That is enough to see each value once with each
/// part; a walk that comes to values again and again, as nested arrays can make it, ends as one that finds no memory.
pub fn reach(alloc: Global, doc: &Document, path: &Path) -> Result<List<Reached>, NoMemory>
    ensures { IfOk result (λ all. all ≡ reached path.now (value.Doc doc.now)) }
{
    let mut walk = Walk {
        all: List::new(alloc),
        steps: doc.size().saturating_mul(path.parts().len() as u64),
    };
    if let Some((part, rest)) = path.parts().split_first() {
        reach_field(alloc, doc.get(part.as_str()), rest, &mut walk)?;
    }
    Ok(walk.all)
}
