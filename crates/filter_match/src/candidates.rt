ghost use Rattle.std.specs.Prelude.{◌≡◌, [], length, not};
ghost use Rattle.std.specs.List.{list_any};
ghost use Rattle.std.specs.Ordering.{is_gt, is_lt, is_ge, is_le};
ghost use Rattle.std.specs.Option.{option_map};
ghost use Rattle.bson_order.specs.Order.{is_same};
ghost use Rattle.doc_paths.specs.Reach.{items_in};
ghost use Rattle.filter_syntax.specs.Candidates.{is_null, is_equal, compares, compares_or_null, code_in, has_type, is_array_of};
ghost use Rattle.filter_syntax.specs.Candidates.{number_of, is_number, leaves, masked};
ghost use Rattle.filter_match.specs.Asking.{one_of, passes, asked};
ghost use Rattle.doc_paths.specs.declared.reached.Reached.TheVariants.{Missing, Found};
ghost use Rattle.bson_values.specs.declared.value.Value.{out-Value};

use crate::asking::Ask;
use bson_order::{compare, rank, same};
use bson_values::Value;
use filter_syntax::Test;
use std::cmp::Ordering;

fn is_null_value(value: &Value) -> bool
    ensures { result ≡ is_null value.now }
{
    rank(value) == 0
}

/// The elements of an array, and none of another value.
pub(crate) fn items_of(value: &Value) -> &[Value]
    ensures { result.now ≡ items_in (out-Value value.now) }
{
    match value {
        Value::Arr(items) => items.as_slice(),
        _ => &[],
    }
}

fn any_is(items: &[Value], wanted: &Value) -> bool
    ensures { result ≡ list_any (λ item. is_same item wanted.now) items.now }
{
    items.iter().any(|item| same(item, wanted))
}

/// Whether a value or, in an array, an element equals the one that is wanted.
pub(crate) fn one_equals(value: &Value, wanted: &Value) -> bool
    ensures { result ≡ one_of (is_equal wanted.now) (Found value.now) }
{
    same(value, wanted) || any_is(items_of(value), wanted)
}

fn is_above(value: &Value, wanted: &Value) -> bool
    ensures { result ≡ compares is_gt wanted.now (Found value.now) }
{
    rank(value) == rank(wanted) && compare(value, wanted) == Ordering::Greater
}

fn is_below(value: &Value, wanted: &Value) -> bool
    ensures { result ≡ compares is_lt wanted.now (Found value.now) }
{
    rank(value) == rank(wanted) && compare(value, wanted) == Ordering::Less
}

fn is_at_least(value: &Value, wanted: &Value) -> bool
    ensures { result ≡ compares_or_null is_ge wanted.now (Found value.now) }
{
    if is_null_value(wanted) {
        same(value, wanted)
    } else {
        rank(value) == rank(wanted) && compare(value, wanted) != Ordering::Less
    }
}

fn is_at_most(value: &Value, wanted: &Value) -> bool
    ensures { result ≡ compares_or_null is_le wanted.now (Found value.now) }
{
    if is_null_value(wanted) {
        same(value, wanted)
    } else {
        rank(value) == rank(wanted) && compare(value, wanted) != Ordering::Greater
    }
}

fn code(value: &Value) -> u8
    ensures { result ≡ code_in (out-Value value.now) }
{
    match value {
        Value::Str(_) => 2,
        Value::Doc(_) => 3,
        Value::Arr(_) => 4,
        Value::Bin(_) => 5,
        Value::Id(_) => 7,
        Value::Bool(_) => 8,
        Value::Date(_) => 9,
        Value::Null => 10,
        Value::Regex(_) => 11,
        Value::Int(_) => 16,
        Value::Stamp(_) => 17,
        Value::Long(_) => 18,
    }
}

fn has_code(value: &Value, codes: &[u8]) -> bool
    ensures { result ≡ has_type codes.now (Found value.now) }
{
    let code = code(value);
    codes.iter().any(|one| code == *one)
}

/// The number, if the value is one.
fn number(value: &Value) -> Option<i64>
    ensures { result ≡ number_of (out-Value value.now) }
{
    match value {
        Value::Int(number) => Some(i64::from(*number)),
        Value::Long(number) => Some(*number),
        _ => None,
    }
}

fn leaves_rest(value: &Value, divisor: i64, rest: i64) -> bool
    ensures { result ≡ is_number (leaves divisor rest) (Found value.now) }
{
    match number(value) {
        None => false,
        Some(number) => match number.checked_rem(divisor) {
            Some(found) => found == rest,
            None => divisor == -1 && rest == 0,
        },
    }
}

/// The bits of a number that stand in a mask.
fn bits(value: &Value, mask: u64) -> Option<u64>
    ensures { result ≡ option_map (masked mask) (number_of (out-Value value.now)) }
{
    match number(value) {
        None => None,
        Some(number) => Some(number.cast_unsigned() & mask),
    }
}

/// Whether a value passes an operator that asks for one candidate.
#[tactic(auto, unfolding(crate::specs::Asking::passes))]
pub(crate) fn one_passes(value: &Value, test: &Test) -> bool
    ensures { result ≡ passes test.now (Found value.now) }
{
    match test {
        Test::Gt(wanted) => is_above(value, wanted),
        Test::Lt(wanted) => is_below(value, wanted),
        Test::Gte(wanted) => is_at_least(value, wanted),
        Test::Lte(wanted) => is_at_most(value, wanted),
        Test::OfType(codes) => has_code(value, codes.as_slice()),
        Test::Mod { divisor, rest } => leaves_rest(value, *divisor, *rest),
        Test::BitsAllSet(mask) => bits(value, *mask) == Some(*mask),
        Test::BitsAllClear(mask) => bits(value, *mask) == Some(0),
        Test::BitsAnySet(mask) => bits(value, *mask).is_some_and(|it| it != 0),
        Test::BitsAnyClear(mask) => bits(value, *mask).is_some_and(|it| it != *mask),
        _ => false,
    }
}

pub(crate) fn any_passes(items: &[Value], test: &Test) -> bool
    ensures { result ≡ list_any (λ item. passes test.now (Found item)) items.now }
{
    items.iter().any(|item| one_passes(item, test))
}

pub(crate) fn is_array_of_len(value: &Value, len: u64) -> bool
    ensures { result ≡ is_array_of len (Found value.now) }
{
    match value {
        Value::Arr(items) => items.len() as u64 == len,
        _ => false,
    }
}

/// What a missing value answers.
#[tactic(auto, unfolding(crate::specs::Asking::asked, crate::specs::Asking::passes))]
pub(crate) fn ask_missing(ask: Ask<'_>) -> bool
    ensures { result ≡ asked ask.entry Missing }
{
    match ask {
        Ask::Equal(wanted) => is_null_value(wanted),
        Ask::By(Test::Gte(wanted)) => is_null_value(wanted),
        Ask::By(Test::Lte(wanted)) => is_null_value(wanted),
        Ask::By(_) => false,
    }
}
