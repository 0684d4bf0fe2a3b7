ghost use Rattle.std.specs.Prelude.{◌≡◌, length};
ghost use Rattle.std.specs.List.{list_all};
ghost use Rattle.bson_values.specs.declared.value.Value.TheViews.{out-Value};
ghost use Rattle.command_words.specs.Body.{is_document, are_documents, is_whole, text_of, pairs_of, whole_of, truth_of, values_in};
ghost use Rattle.command_words.specs.Refusal.{has_type, may_be_items, in_range, value_refusal};

use crate::takes::Takes;
use bson_values::{Pair, Value};
use case_tables::{FIELD_OUT_OF_RANGE, Kind, WRONG_TYPE};

fn is_document(value: &Value) -> bool
    ensures { result ≡ is_document (out-Value value.now) }
{
    matches!(value, Value::Doc(_))
}

fn is_whole(value: &Value) -> bool
    ensures { result ≡ is_whole (out-Value value.now) }
{
    matches!(value, Value::Int(_) | Value::Long(_))
}

fn all_documents(items: &[Value]) -> bool
    ensures { result ≡ list_all (λ item. is_document (out-Value item)) items.now }
{
    items.iter().all(|item| is_document(item))
}

fn are_documents(value: &Value) -> bool
    ensures { result ≡ are_documents (out-Value value.now) }
{
    match value {
        Value::Arr(items) => all_documents(items.as_slice()),
        _ => false,
    }
}

/// Whether the value has the type that is taken.
pub(crate) fn has_type(takes: Takes, value: &Value) -> bool
    ensures { result ≡ has_type takes (out-Value value.now) }
{
    match takes {
        Takes::Text => matches!(value, Value::Str(_)),
        Takes::Document => is_document(value),
        Takes::DocumentOrArray => match value {
            Value::Arr(_) => true,
            _ => is_document(value),
        },
        Takes::Truth => match value {
            Value::Bool(_) => true,
            _ => is_whole(value),
        },
        Takes::Whole | Takes::Natural | Takes::ZeroOrOne => is_whole(value),
        Takes::Documents | Takes::Items(_) => are_documents(value),
        _ => true,
    }
}

/// How many values the array has; 0 of any other value.
fn count_of(value: &Value) -> usize
    ensures { result ≡ length (values_in (out-Value value.now)) }
{
    match value {
        Value::Arr(items) => items.len(),
        _ => 0,
    }
}

/// Whether so many items may come at once.
pub(crate) fn may_be_items(count: usize) -> bool
    ensures { result ≡ may_be_items count }
{
    1 <= count && count <= 1000
}

/// Whether a value of that type is in the range that is taken.
pub(crate) fn in_range(takes: Takes, value: &Value) -> bool
    ensures { result ≡ in_range takes (out-Value value.now) }
{
    match takes {
        Takes::Natural => 0 <= whole_of(value),
        Takes::ZeroOrOne => 0 <= whole_of(value) && whole_of(value) <= 1,
        Takes::Documents | Takes::Items(_) => may_be_items(count_of(value)),
        _ => true,
    }
}

/// Why a field that takes this is refused with this value. Items are not looked into.
pub(crate) fn value_refusal(takes: Takes, value: &Value) -> Option<Kind>
    ensures { result ≡ value_refusal takes (out-Value value.now) }
{
    if !has_type(takes, value) {
        return Some(WRONG_TYPE);
    }
    if !in_range(takes, value) {
        return Some(FIELD_OUT_OF_RANGE);
    }
    None
}

/// The fields of the document that the value is.
pub(crate) fn pairs_of(value: &Value) -> &[Pair<Value>]
    ensures { result.now ≡ pairs_of (out-Value value.now) }
{
    match value {
        Value::Doc(document) => document.as_slice(),
        _ => &[],
    }
}

/// The string that the value is.
pub(crate) fn text_of(value: &Value) -> &str
    ensures { result.now ≡ text_of (out-Value value.now) }
{
    match value {
        Value::Str(text) => text.as_str(),
        _ => "",
    }
}

/// The whole number that the value is.
pub(crate) fn whole_of(value: &Value) -> i64
    ensures { result ≡ whole_of (out-Value value.now) }
{
    match value {
        Value::Int(number) => i64::from(*number),
        Value::Long(number) => *number,
        _ => 0,
    }
}

/// The bool that the value is, or the whole number's.
pub(crate) fn truth_of(value: &Value) -> bool
    ensures { result ≡ truth_of (out-Value value.now) }
{
    match value {
        Value::Bool(truth) => *truth,
        _ => whole_of(value) != 0,
    }
}
