//! For each tail of a path, the first of the keys that it reaches.

ghost use Rattle.std.specs.Prelude.{ℕ, ◌≡◌, ◌<◌, ◌≤◌, length, suc, if◌then◌else◌, None, slice_index_or};
ghost use Rattle.std.specs.Ordering.{is_lt};
ghost use Rattle.std.specs.Option.{is_none, option_copied};
ghost use Rattle.std.specs.Str.{bytes_eq};
ghost use Rattle.doc_shape.specs.Keys.{key_cmp, sooner};
ghost use Rattle.doc_shape.specs.Bests.{best_at, is_at, is_unasked, kept, key_kept, part_at};
ghost use Rattle.bson_values.specs.declared.value.Value.TheVariants as value;
ghost use Rattle.doc_shape.specs.declared.bests.Best.TheVariants as best;

use crate::comparing::compare_keys;
use crate::place::Places;
use bson_values::{Text, Value};
use std::cmp::Ordering;

/// The first of some keys.
#[derive(Clone, Copy)]
pub(crate) enum Best<'a> {
    /// It was not looked for.
    Unasked,
    /// Nothing is reached.
    Nothing,
    /// The key of what is missing, which is null.
    Missing,
    /// The key of an empty array.
    Empty,
    At(&'a Value),
}

/// For each tail of a path, by how many parts are cut off.
pub(crate) type Bests<'a> = [Best<'a>; 101];

pub(crate) fn was_unasked(best: Best<'_>) -> bool
    ensures { result ≡ is_unasked best.entry }
{
    matches!(best, Best::Unasked)
}

fn has_no_key(best: Best<'_>) -> bool
    ensures { result ≡ is_none (kept best.entry) }
{
    match best {
        Best::Unasked => true,
        Best::Nothing => true,
        Best::Missing => false,
        Best::Empty => false,
        Best::At(_) => false,
    }
}

/// The key, `null` being null; `None` for that of an empty array.
fn key_in<'a>(best: Best<'a>, null: &'a Value) -> Option<&'a Value>
    requires { null.now ≡ value.Null }
    ensures { option_copied result ≡ key_kept best.entry }
{
    match best {
        Best::Unasked => None,
        Best::Nothing => None,
        Best::Missing => Some(null),
        Best::Empty => None,
        Best::At(it) => Some(it),
    }
}

fn comes_before(ascends: bool, one: Best<'_>, other: Best<'_>) -> bool
    ensures { result ≡ is_lt (key_cmp ascends (key_kept one.entry) (key_kept other.entry)) }
{
    let null = Value::Null;
    compare_keys(ascends, key_in(one, &null), key_in(other, &null)) == Ordering::Less
}

/// Of two keys the one that comes first; the former where they are the same.
#[tactic(auto, using(crate::proofs::Firsts::of_two))]
pub(crate) fn sooner_of<'a>(ascends: bool, one: Best<'a>, other: Best<'a>) -> Best<'a>
    ensures { kept result ≡ sooner ascends (kept one.entry) (kept other.entry) }
{
    if has_no_key(one) {
        return other;
    }
    if has_no_key(other) {
        return one;
    }
    if comes_before(ascends, other, one) {
        other
    } else {
        one
    }
}

/// For each tail, the first of its keys in two tables.
pub(crate) fn joined<'a>(ascends: bool, one: &Bests<'a>, other: &Bests<'a>) -> Bests<'a>
    ensures { (k : ℕ) → k < 101 → kept (best_at result k) ≡ sooner ascends (kept (best_at one.now k)) (kept (best_at other.now k)) }
{
    let mut all = [Best::Nothing; 101];
    for k in 0..101 {
        all[k] = sooner_of(ascends, one[k], other[k]);
    }
    all
}

/// Where `wanted`, what is told behind the first part of each tail.
fn behind_if<'a>(wanted: bool, behind: Best<'a>, before: Best<'a>) -> Best<'a>
    ensures { result ≡ (if wanted then behind.entry else before.entry) }
{
    if wanted { behind } else { before }
}

/// The tails that begin with a name are told what `behind` tells behind it; the others keep what they were told.
pub(crate) fn with_name<'a>(
    all: &Bests<'a>,
    behind: &Bests<'a>,
    parts: &[Text],
    name: &str,
) -> Bests<'a>
    requires { length parts.now ≤ 100 }
    ensures long { length result ≡ 101 }
    ensures named { (k : ℕ) → k < length parts.now → best_at result k
        ≡ (if bytes_eq (part_at parts.now k) name.now then best_at behind.now (suc k) else best_at all.now k) }
{
    let mut named = [Best::Unasked; 101];
    for (k, part) in parts.iter().enumerate() {
        named[k] = behind_if(part.as_str() == name, behind[k + 1], all[k]);
    }
    named
}

/// The tails whose first part tells a place are told what `behind` tells behind it, and the others nothing.
pub(crate) fn at_place<'a>(behind: &Bests<'a>, places: &Places, place: usize) -> Bests<'a>
    ensures { (k : ℕ) → k < 100 → best_at result k
        ≡ (if is_at (slice_index_or places.now k None) place then best_at behind.now (suc k) else best.Nothing) }
{
    let mut here = [Best::Nothing; 101];
    for k in 0..100 {
        here[k] = behind_if(places[k] == Some(place), behind[k + 1], Best::Nothing);
    }
    here
}
