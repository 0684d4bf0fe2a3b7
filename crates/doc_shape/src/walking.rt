//! The first of the keys that a path reaches in a document. Each value is visited at most once, with all tails of the path that may be
//! open there, since an array leads on by a place and by its documents: one by one they would be followed in every way that leads to it.

ghost use Rattle.std.specs.Prelude.{ℕ, ◌≡◌, ◌≤◌, ◌<◌, ◌^◌, length, map, Some, None, ◌||◌, nat_eq, replicate, if◌then◌else◌};
ghost use Rattle.std.specs.List.{list_any};
ghost use Rattle.bson_values.specs.declared.value.Value.{out-Value};
ghost use Rattle.bson_values.specs.declared.value.Value.TheVariants as value;
ghost use Rattle.doc_shape.specs.declared.bests.Best.TheVariants as best;
ghost use Rattle.doc_shape.specs.Keys.{first_key, value_keys};
ghost use Rattle.doc_shape.specs.Bests.{best_at, is_at, is_doc, kept, told};

use crate::bests::{Best, Bests, at_place, joined, sooner_of, was_unasked, with_name};
use crate::order::Way;
use crate::place::Places;
use bson_values::{Document, List, Value};

fn best_item<'a>(ascends: bool, items: &'a [Value]) -> Best<'a>
    ensures { kept result ≡ first_key ascends (map Some items.now) }
{
    let mut best = Best::Nothing;
    for item in items {
        best = sooner_of(ascends, best, Best::At(item));
    }
    best
}

/// The first of the keys of a value that is reached.
fn own_key<'a>(ascends: bool, value: &'a Value) -> Best<'a>
    ensures { kept result ≡ first_key ascends (value_keys value.now (out-Value value.now)) }
{
    match value {
        Value::Arr(items) => if items.len() == 0 {
            Best::Empty
        } else {
            best_item(ascends, items.as_slice())
        },
        _ => Best::At(value),
    }
}

/// What is told beyond a value, and its own key for the whole path where that ends at it.
fn with_own<'a>(beyond: &Bests<'a>, way: &Way, value: &'a Value, high: usize) -> Bests<'a>
    requires { high ≤ length way.now.0 }
    ensures { (k : ℕ) → k ≤ high → kept (best_at result k)
        ≡ (if nat_eq k (length way.now.0) then told way.now value.now k else kept (best_at beyond.now k)) }
{
    let mut all = *beyond;
    if high == way.path.parts().len() {
        all[high] = own_key(way.ascends, value);
    }
    all
}

fn is_document(value: &Value) -> bool
    ensures { result ≡ is_doc (out-Value value.now) }
{
    matches!(value, Value::Doc(_))
}

fn any_is_at(places: &Places, place: usize) -> bool
    ensures { result ≡ list_any (λ it. is_at it place) places.now }
{
    places.iter().any(|it| *it == Some(place))
}

/// Whether something may be reached beyond an element.
fn leads_on(item: &Value, places: &Places, place: usize) -> bool
    ensures { result ≡ (is_doc (out-Value item.now) || list_any (λ it. is_at it place) places.now) }
{
    is_document(item) || any_is_at(places, place)
}

/// What is told beyond a document, and nothing beyond another value.
fn if_document<'a>(item: &Value, from: &Bests<'a>) -> Bests<'a>
    ensures { result ≡ (if is_doc (out-Value item.now) then from.now else replicate 101 best.Nothing) }
{
    if is_document(item) {
        *from
    } else {
        [Best::Nothing; 101]
    }
}

/// The first of the keys of each tail from `low` to `high`, from a value.
#[cycle(walk)]
fn best_from<'a>(way: &Way, value: &'a Value, low: usize, high: usize) -> Bests<'a>
    requires within { high ≤ length way.now.0 }
    requires few { length way.now.0 ≤ 100 }
    ensures { (k : ℕ) → low ≤ k → k ≤ high → kept (best_at result k) ≡ told way.now value.now k }
{
    let beyond = best_beyond(way, value, low, high);
    with_own(&beyond, way, value, high)
}

/// Likewise for those that have a part left.
#[cycle(walk)]
fn best_beyond<'a>(way: &Way, value: &'a Value, low: usize, high: usize) -> Bests<'a>
    requires within { high ≤ length way.now.0 }
    requires few { length way.now.0 ≤ 100 }
    ensures { (k : ℕ) → low ≤ k → k ≤ high → k < length way.now.0 → kept (best_at result k) ≡ told way.now value.now k }
{
    match value {
        Value::Doc(document) => best_in_fields(way, document, low, high),
        Value::Arr(items) => best_in_items(way, items, low, high),
        _ => [Best::Missing; 101],
    }
}

/// From the fields of a document, each name once.
#[cycle(walk)]
fn best_in_fields<'a>(way: &Way, document: &'a Document, low: usize, high: usize) -> Bests<'a>
    requires within { high ≤ length way.now.0 }
    requires few { length way.now.0 ≤ 100 }
    ensures { (k : ℕ) → low ≤ k → k ≤ high → k < length way.now.0
        → kept (best_at result k) ≡ told way.now (value.Doc document.now) k }
{
    let parts = way.path.parts();
    let end = parts.len().min(high + 1);
    let pairs = document.as_slice();
    let mut all = [Best::Unasked; 101];
    for k in low..end {
        if was_unasked(all[k]) {
            let name = parts[k].as_str();
            let behind = match document.place(name) {
                None => [Best::Missing; 101],
                Some(place) => best_from(way, &pairs[place].value, low + 1, end),
            };
            all = with_name(&all, &behind, parts, name);
        }
    }
    all
}

/// From the elements of an array, each once.
#[cycle(walk)]
fn best_in_items<'a>(way: &Way, items: &'a List<Value>, low: usize, high: usize) -> Bests<'a>
    requires within { high ≤ length way.now.0 }
    requires few { length way.now.0 ≤ 100 }
    ensures { (k : ℕ) → low ≤ k → k ≤ high → k < length way.now.0
        → kept (best_at result k) ≡ told way.now (value.Arr items.now) k }
{
    let end = way.path.parts().len().min(high + 1);
    if low >= end {
        return [Best::Nothing; 101];
    }
    let mut here = [Best::Nothing; 101];
    let mut below = [Best::Nothing; 101];
    let _len = items.len();
    for (place, item) in items.as_slice().iter().enumerate() {
        if leads_on(item, &way.places, place) {
            let from = best_from(way, item, low, end);
            here = joined(way.ascends, &here, &at_place(&from, &way.places, place));
            below = joined(way.ascends, &below, &if_document(item, &from));
        }
    }
    joined(way.ascends, &here, &below)
}

/// The first of the keys that a path reaches in a document.
pub(crate) fn best_key<'a>(way: &Way, doc: &'a Document) -> Best<'a>
    ensures { kept result ≡ told way.now (value.Doc doc.now) 0 }
{
    let _parts = way.path.parts();
    best_in_fields(way, doc, 0, 0)[0]
}
