ghost use Rattle.std.specs.Prelude.{◌≡◌, [], true, false, length, IfOk, OnOk, OnErr};
ghost use Rattle.std.specs.List.{All, fold};
ghost use Rattle.bson_order.specs.Plain.{IsPlain};
ghost use Rattle.bson_values.specs.declared.value.Value.TheVariants as value;
ghost use Rattle.keyed_rows.specs.Entries.{above, has_key};
ghost use Rattle.distinct_values.specs.Distinct.{joined, values_at, values_of};
ghost use Rattle.distinct_values.specs.Kept.{one_more};

use bson_order::id_key;
use bson_values::{Bytes, Document, List, NoMemory, Value};
use doc_paths::{Path, Reached, reach};
use keyed_rows::Keyed;
use std::alloc::Global;
use std::marker::Model;

/// Values of which no two are the same, in the order in which they came first.
///
/// They are told apart by keys in an ordered map, so n values take n log n comparisons.
#[derive(Drop)]
pub struct Distinct {
    alloc: Global,
    kept: Keyed<Value>,
}

impl Model for Distinct {
    ghost use Rattle.std.specs.Prelude.{List as Seq};
    ghost use Rattle.std.specs.Coded.{codes};
    ghost use Rattle.bson_values.specs.declared.value.Value.{Value as Item};
    ghost use Rattle.bson_values.specs.contracts.value.Value as item;
    ghost use Rattle.distinct_values.specs.Kept.{AreKept, kept_values};

    ghost Value = { Seq Item };

    ghost coded = { Prim.hlevel (codes, item.the_row.coded) };

    ghost view = { λ it. kept_values it.kept };

    ghost invariant = { λ it. AreKept it.kept };
}

/// Keeps a value under its key, last.
fn keep(kept: &mut Keyed<Value>, key: Bytes, value: Value) -> Result<(), NoMemory>
    requires absent { has_key key kept.old ≡ false }
    requires room { above (length kept.old) kept.old ≡ true }
    ensures ok { OnOk result (kept.new ≡ one_more kept.old key value) }
    ensures err { OnErr result (kept.new ≡ kept.old) }
{
    match kept.insert(kept.len() as u64, key, value) {
        Ok(()) => Ok(()),
        Err(_) => Err(NoMemory),
    }
}

impl Distinct {
    pub fn new(alloc: Global) -> Distinct
        ensures { result ≡ [] }
    {
        Distinct {
            alloc,
            kept: Keyed::new(alloc),
        }
    }

    /// Adds a value, unless it is the same as one that is here.
    fn add(&mut self, value: Value) -> Result<(), NoMemory>
        requires { IsPlain value }
        ensures { OnOk result (self.new ≡ joined self.old value) }
    {
        let key = id_key(self.alloc, &value)?;
        if self.kept.has(&key) {
            return Ok(());
        }
        keep(&mut self.kept, key, value)
    }

    fn add_items(&mut self, items: List<Value>) -> Result<(), NoMemory>
        requires { All IsPlain items }
        ensures { OnOk result (self.new ≡ fold joined self.old items) }
    {
        for item in items.into_vec() {
            self.add(item)?;
        }
        Ok(())
    }

    fn add_reached(&mut self, reached: Reached) -> Result<(), NoMemory>
        requires { All IsPlain (values_of reached) }
        ensures { OnOk result (self.new ≡ fold joined self.old (values_of reached)) }
    {
        match reached {
            Reached::Missing => Ok(()),
            Reached::Found(Value::Arr(items)) => self.add_items(items),
            Reached::Found(value) => self.add(value),
        }
    }

    /// Adds the values that stand at a path of a document.
    pub fn add_at(&mut self, path: &Path, doc: &Document) -> Result<(), NoMemory>
        requires { IsPlain (value.Doc doc.now) }
        ensures { OnOk result (self.new ≡ fold joined self.old (values_at path.now doc.now)) }
    {
        for reached in reach(self.alloc, doc, path)?.into_vec() {
            self.add_reached(reached)?;
        }
        Ok(())
    }

    /// The values.
    pub fn values(&self) -> Result<List<Value>, NoMemory>
        ensures { IfOk result (λ values. values ≡ self.now) }
    {
        let mut values = List::new(self.alloc);
        for entry in self.kept.iter() {
            let value = entry.value.copy(self.alloc)?;
            values.add(value)?;
        }
        Ok(values)
    }
}
