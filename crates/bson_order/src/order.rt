ghost use Rattle.std.specs.Prelude.{◌≡◌, ◌↔◌, IsTrue};
ghost use Rattle.std.specs.Cmp.Lexicographic.{slice_cmp};
ghost use Rattle.bson_order.specs.Order.{Same, compared, is_same, rank_of, binary_cmp, regex_cmp, pair_cmp};

use bson_values::{Binary, Document, List, Pair, Regex, Value};
use std::cmp::Ordering;

/// The place of its type among the types: 0 for null, 10 for a regex.
pub fn rank(value: &Value) -> u8
    ensures { result ≡ rank_of value.now }
{
    match value {
        Value::Null => 0,
        Value::Int(_) => 1,
        Value::Long(_) => 1,
        Value::Str(_) => 2,
        Value::Doc(_) => 3,
        Value::Arr(_) => 4,
        Value::Bin(_) => 5,
        Value::Id(_) => 6,
        Value::Bool(_) => 7,
        Value::Date(_) => 8,
        Value::Stamp(_) => 9,
        Value::Regex(_) => 10,
    }
}

fn compare_binaries(a: &Binary, b: &Binary) -> Ordering
    ensures { result ≡ binary_cmp a.now b.now }
{
    let lengths = a.bytes.len().cmp(&b.bytes.len());
    let subtypes = a.subtype.cmp(&b.subtype);
    let bytes = a.bytes.as_slice().cmp(b.bytes.as_slice());
    lengths.then(subtypes).then(bytes)
}

fn compare_regexes(a: &Regex, b: &Regex) -> Ordering
    ensures { result ≡ regex_cmp a.now b.now }
{
    let patterns = a.pattern.as_str().cmp(b.pattern.as_str());
    let options = a.options.as_str().cmp(b.options.as_str());
    patterns.then(options)
}

/// MongoDB's comparison of two values: by rank, and within a rank by what they hold (MongoDB Manual, "Comparison/Sort Order").
#[tactic(auto, using(crate::proofs::Layers::compared_is, crate::proofs::Layers::compared_pairs, crate::proofs::Layers::compared_items))]
#[cycle(compare)]
pub fn compare(a: &Value, b: &Value) -> Ordering
    ensures { result ≡ compared a.now b.now }
{
    match (a, b) {
        (Value::Int(a), Value::Int(b)) => a.cmp(b),
        (Value::Int(a), Value::Long(b)) => i64::from(*a).cmp(b),
        (Value::Long(a), Value::Int(b)) => a.cmp(&i64::from(*b)),
        (Value::Long(a), Value::Long(b)) => a.cmp(b),
        (Value::Str(a), Value::Str(b)) => a.as_str().cmp(b.as_str()),
        (Value::Doc(a), Value::Doc(b)) => compare_documents(a, b),
        (Value::Arr(a), Value::Arr(b)) => compare_arrays(a, b),
        (Value::Bin(a), Value::Bin(b)) => compare_binaries(a, b),
        (Value::Id(a), Value::Id(b)) => a.cmp(b),
        (Value::Bool(a), Value::Bool(b)) => a.cmp(b),
        (Value::Date(a), Value::Date(b)) => a.cmp(b),
        (Value::Stamp(a), Value::Stamp(b)) => a.cmp(b),
        (Value::Regex(a), Value::Regex(b)) => compare_regexes(a, b),
        _ => rank(a).cmp(&rank(b)),
    }
}

/// Two pairs of documents: by the ranks of their values, by their names, and by their values.
// The first comes in parts, since a pair has no measure by which the recursion could end.
#[cycle(compare)]
fn compare_pairs(name: &str, value: &Value, other: &Pair<Value>) -> Ordering
    ensures { result ≡ pair_cmp rank_of compared (record { name = name.now; value = value.now }) other.now }
{
    let ranks = rank(value).cmp(&rank(&other.value));
    match ranks.then(name.cmp(other.name.as_str())) {
        Ordering::Equal => compare(value, &other.value),
        Ordering::Less => Ordering::Less,
        Ordering::Greater => Ordering::Greater,
    }
}

/// Pair by pair; the one that ends first is less.
#[cycle(compare)]
fn compare_documents(a: &Document, b: &Document) -> Ordering
    ensures { result ≡ slice_cmp (pair_cmp rank_of compared) a.now b.now }
{
    let others = b.as_slice();
    for (place, pair) in a.as_slice().iter().enumerate() {
        let Some(other) = others.get(place) else {
            return Ordering::Greater;
        };
        match compare_pairs(pair.name.as_str(), &pair.value, other) {
            Ordering::Equal => {}
            unequal => return unequal,
        }
    }
    a.len().cmp(&b.len())
}

/// Element by element; the one that ends first is less.
#[cycle(compare)]
fn compare_arrays(a: &List<Value>, b: &List<Value>) -> Ordering
    ensures { result ≡ slice_cmp compared a.now b.now }
{
    let others = b.as_slice();
    for (place, item) in a.as_slice().iter().enumerate() {
        let Some(other) = others.get(place) else {
            return Ordering::Greater;
        };
        match compare(item, other) {
            Ordering::Equal => {}
            unequal => return unequal,
        }
    }
    a.len().cmp(&b.len())
}

/// Whether neither comes before the other: an int is the same as the long of its number.
#[tactic(auto, unfolding(crate::specs::Order::is_same))]
pub fn same(a: &Value, b: &Value) -> bool
    ensures is { IsTrue result ↔ Same a.now b.now }
    ensures value { result ≡ is_same a.now b.now }
{
    compare(a, b) == Ordering::Equal
}
