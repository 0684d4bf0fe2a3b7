ghost use Rattle.std.specs.Prelude.{◌≡◌, ◌∷◌, ◌++◌, ◌-◌, ◌≤◌, [], Some, None, Ok, length, replicate, IfOk, OnOk, OnErr};
ghost use Rattle.bson_values.specs.declared.value.Value.{out-Value};
ghost use Rattle.bson_values.specs.declared.value.Value.TheVariants as value;
ghost use Rattle.doc_paths.specs.Changes.{put_below, put_in, put_field, put_item, put_doc};
ghost use Rattle.doc_paths.specs.Answers.{Puts, last_field};

use crate::path::Path;
use crate::places::place_of;
use crate::refused::PutRefused;
use bson_values::{Document, List, NoMemory, Text, Value};
use std::alloc::Global;

fn add_field(doc: &mut Document, name: Text, it: Value) -> Result<(), NoMemory>
    ensures ok { OnOk result (doc.new ≡ doc.old ++ (record { name = name; value = it }) ∷ []) }
    ensures err { OnErr result (doc.new ≡ doc.old) }
{
    match doc.push(name, it) {
        Ok(()) => Ok(()),
        Err(_) => Err(NoMemory),
    }
}

/// The value within documents whose only fields are the parts.
fn nested(alloc: Global, parts: &[Text], new: Value) -> Result<Value, NoMemory>
    ensures { IfOk result (λ it. put_below parts.now new None ≡ Ok it) }
{
    match parts.split_first() {
        None => Ok(new),
        Some((part, rest)) => {
            let name = part.copy(alloc)?;
            let it = nested(alloc, rest, new)?;
            let mut doc = Document::new(alloc);
            add_field(&mut doc, name, it)?;
            Ok(Value::Doc(doc))
        }
    }
}

fn repeated(alloc: Global, it: &Value, count: usize) -> Result<List<Value>, NoMemory>
    ensures { IfOk result (λ items. items ≡ replicate count it.now) }
{
    let mut items = List::new(alloc);
    for _ in 0..count {
        let it = it.copy(alloc)?;
        items.add(it)?;
    }
    Ok(items)
}

/// Puts an item behind all others, with nulls before it.
fn put_behind(
    alloc: Global,
    items: &mut List<Value>,
    place: usize,
    it: Value,
) -> Result<(), NoMemory>
    requires { length items.old ≤ place }
    ensures ok { OnOk result (items.new ≡ items.old ++ (replicate (place - length items.old) value.Null ++ it ∷ [])) }
    ensures err { OnErr result (items.new ≡ items.old) }
{
    let mut tail = repeated(alloc, &Value::Null, place - items.len())?;
    tail.add(it)?;
    items.append(tail)
}

/// Puts a field behind all others.
fn put_last(
    alloc: Global,
    doc: &mut Document,
    part: &str,
    rest: &[Text],
    new: Value,
) -> Result<(), NoMemory>
    ensures ok { OnOk result (last_field part.now (put_below rest.now new None) doc.old ≡ Ok doc.new) }
    ensures err { OnErr result (doc.new ≡ doc.old) }
{
    let name = Text::of(alloc, part)?;
    let it = nested(alloc, rest, new)?;
    add_field(doc, name, it)
}

#[cycle(put)]
fn put_there(alloc: Global, it: &mut Value, parts: &[Text], new: Value) -> Result<(), PutRefused>
    ensures { Puts result (put_below parts.now new (Some it.old)) it.old it.new }
{
    match parts.split_first() {
        None => {
            *it = new;
            Ok(())
        }
        Some((part, rest)) => match it {
            Value::Doc(doc) => put_into_doc(alloc, doc, part.as_str(), rest, new),
            Value::Arr(items) => put_into_array(alloc, items, part.as_str(), rest, new),
            _ => Err(PutRefused::NotViable),
        },
    }
}

#[cycle(put)]
fn put_into_doc(
    alloc: Global,
    doc: &mut Document,
    part: &str,
    rest: &[Text],
    new: Value,
) -> Result<(), PutRefused>
    ensures { Puts result (put_field part.now (put_below rest.now new) doc.old) doc.old doc.new }
{
    match doc.place(part) {
        Some(place) => match doc.get_mut(place) {
            Ok(it) => put_there(alloc, it, rest, new),
            Err(NoMemory) => Err(PutRefused::NoMemory),
        },
        None => match put_last(alloc, doc, part, rest, new) {
            Ok(()) => Ok(()),
            Err(NoMemory) => Err(PutRefused::NoMemory),
        },
    }
}

#[cycle(put)]
fn put_into_array(
    alloc: Global,
    items: &mut List<Value>,
    part: &str,
    rest: &[Text],
    new: Value,
) -> Result<(), PutRefused>
    ensures { Puts result (put_item part.now (put_below rest.now new) items.old) items.old items.new }
{
    let place = place_of(items, part)?;
    match items.get_mut(place) {
        Some(it) => put_there(alloc, it, rest, new),
        None => match nested(alloc, rest, new) {
            Ok(it) => match put_behind(alloc, items, place, it) {
                Ok(()) => Ok(()),
                Err(NoMemory) => Err(PutRefused::NoMemory),
            },
            Err(NoMemory) => Err(PutRefused::NoMemory),
        },
    }
}

/// Puts a value at a path: in the place of what stands there, or last. What is absent on the way becomes documents, and an
/// absent place of an array is made behind nulls. What is shared is copied a level deep before it is changed.
pub fn put(alloc: Global, doc: &mut Document, path: &Path, value: Value) -> Result<(), PutRefused>
    ensures { Puts result (put_doc path.now value doc.old) doc.old doc.new }
{
    match path.parts().split_first() {
        Some((part, rest)) => put_into_doc(alloc, doc, part.as_str(), rest, value),
        None => Ok(()),
    }
}
