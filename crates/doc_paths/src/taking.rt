ghost use Rattle.std.specs.Prelude.{◌≡◌, take, drop, ◌++◌, ◌+◌, ◌<◌, length, option_map, slice_get, IsSome, OnErr};
ghost use Rattle.bson_values.specs.Names.{first_of};
ghost use Rattle.bson_values.specs.declared.value.Value.{out-Value};
ghost use Rattle.bson_values.specs.declared.value.Value.TheVariants as value;
ghost use Rattle.doc_paths.specs.Reach.{item_at};
ghost use Rattle.doc_paths.specs.Changes.{left, left_in, left_fields, left_items, place_there, taken, peeked, peeked_in, behind};
ghost use Rattle.doc_paths.specs.Answers.{Takes};

use crate::path::Path;
use crate::peeking::peek;
use crate::places::place_here;
use bson_values::{Document, List, NoMemory, Pair, Text, Value};
use std::mem;

#[cycle(take)]
fn take_in(it: &mut Value, part: &str, rest: &[Text]) -> Result<Option<Value>, NoMemory>
    ensures { Takes result (left_in part.now (left rest.now) it.old (out-Value it.old))
        (peeked_in part.now (peeked rest.now) (out-Value it.old)) it.old it.new }
{
    match it {
        Value::Doc(doc) => take_field(doc, part, rest),
        Value::Arr(items) => take_item(items, part, rest),
        _ => Ok(None),
    }
}

/// The value at a place, whose pair is removed.
fn remove_field(doc: &mut Document, place: usize) -> Result<Option<Value>, NoMemory>
    requires { place < length doc.old }
    ensures { Takes result (take place doc.old ++ drop (place + 1) doc.old)
        (option_map (λ pair. pair.value) (slice_get doc.old place)) doc.old doc.new }
{
    match doc.remove(place) {
        Ok(pair) => {
            let Pair { value, .. } = pair;
            Ok(Some(value))
        }
        Err(NoMemory) => Err(NoMemory),
    }
}

#[cycle(take)]
fn take_field(doc: &mut Document, part: &str, rest: &[Text]) -> Result<Option<Value>, NoMemory>
    ensures { Takes result (left_fields part.now (left rest.now) doc.old)
        (behind (peeked rest.now) (first_of part.now doc.old)) doc.old doc.new }
{
    match doc.place(part) {
        None => Ok(None),
        Some(place) => match rest.split_first() {
            None => remove_field(doc, place),
            Some((next, others)) => match doc.get_mut(place) {
                Ok(it) => take_in(it, next.as_str(), others),
                Err(NoMemory) => Err(NoMemory),
            },
        },
    }
}

#[cycle(take)]
fn take_item(items: &mut List<Value>, part: &str, rest: &[Text]) -> Result<Option<Value>, NoMemory>
    ensures { Takes result (left_items (left rest.now) (place_there part.now items.old) items.old)
        (behind (peeked rest.now) (item_at part.now items.old)) items.old items.new }
{
    match place_here(items, part) {
        None => Ok(None),
        Some(place) => match items.get_mut(place) {
            None => Ok(None),
            Some(it) => match rest.split_first() {
                None => Ok(Some(mem::replace(it, Value::Null))),
                Some((next, others)) => take_in(it, next.as_str(), others),
            },
        },
    }
}

fn take_there(doc: &mut Document, path: &Path) -> Result<Option<Value>, NoMemory>
    ensures { Takes result (taken path.now doc.old) (peeked path.now (value.Doc doc.old)) doc.old doc.new }
{
    match path.parts().split_first() {
        Some((part, rest)) => take_field(doc, part.as_str(), rest),
        None => Ok(None),
    }
}

/// Takes what stands at a path: the field goes, and in the place of an array's item there stands null. What is shared is copied
/// a level deep before it is changed; where nothing stands, nothing is copied.
pub fn take(doc: &mut Document, path: &Path) -> Result<Option<Value>, NoMemory>
    ensures took { Takes result (taken path.now doc.old) (peeked path.now (value.Doc doc.old)) doc.old doc.new }
    ensures there { OnErr result (IsSome (peeked path.now (value.Doc doc.old))) }
{
    if peek(doc, path).is_none() {
        return Ok(None);
    }
    take_there(doc, path)
}
