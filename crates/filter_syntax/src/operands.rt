ghost use Rattle.std.specs.Prelude.{◌≡◌, ◌∷◌, ◌++◌, [], OnOk, IfErr};
ghost use Rattle.std.specs.List.{list_any};
ghost use Rattle.bson_values.specs.declared.value.Value.{out-Value};
ghost use Rattle.filter_syntax.specs.declared.operators.Operator.TheVariants as operator;
ghost use Rattle.filter_syntax.specs.declared.refused.FilterRefused.TheVariants as refused;
ghost use Rattle.filter_syntax.specs.Answers.{Gives};
ghost use Rattle.filter_syntax.specs.Candidates.{number_of};
ghost use Rattle.filter_syntax.specs.Operands.{count_of, division_in, division_of, is_element_test, is_regex, truth_of, values_of};
ghost use Rattle.filter_syntax.specs.Reading.{reads};
ghost use Rattle.filter_syntax.specs.Told.{left_out_of, told};

use crate::filter::Test;
use crate::names::first_name;
use crate::operators::{Comparison, Counted, Membership};
use crate::refused::FilterRefused;
use crate::type_bytes::types_of;
use bson_values::{List, NoMemory, Value};
use case_tables::{BAD_OPERAND, Kind, NOT_SUPPORTED};
use std::alloc::Global;

/// Adds an item last.
pub(crate) fn put<T: Drop>(list: &mut List<T>, item: T) -> Result<(), FilterRefused>
    ensures ok { OnOk result (list.new ≡ list.old ++ item ∷ []) }
    ensures none { IfErr result (λ why. why ≡ refused.NoMemory) }
{
    match list.add(item) {
        Ok(()) => Ok(()),
        Err(NoMemory) => Err(FilterRefused::NoMemory),
    }
}

pub(crate) fn is_regex(value: &Value) -> bool
    ensures { result ≡ is_regex (out-Value value.now) }
{
    matches!(value, Value::Regex(_))
}

fn is_element_test(value: &Value) -> bool
    ensures { result ≡ is_element_test (out-Value value.now) }
{
    match value {
        Value::Doc(doc) => first_name(doc) == "$elemMatch",
        _ => false,
    }
}

fn is_left_out(by: Membership, value: &Value) -> bool
    ensures { result ≡ left_out_of by value.now }
{
    match by {
        Membership::OneOf => is_regex(value),
        Membership::NotOneOf => is_regex(value),
        Membership::AllOf => is_regex(value) || is_element_test(value),
    }
}

fn any_left_out(by: Membership, items: &[Value]) -> bool
    ensures { result ≡ list_any (left_out_of by) items.now }
{
    items.iter().any(|item| is_left_out(by, item))
}

/// The values of `$in`, `$nin` or `$all`.
fn values_of(alloc: Global, by: Membership, value: &Value) -> Result<List<Value>, FilterRefused>
    ensures { Gives result (values_of (left_out_of by) (out-Value value.now)) }
{
    let Value::Arr(items) = value else {
        return Err(FilterRefused::Refused(BAD_OPERAND));
    };
    if any_left_out(by, items.as_slice()) {
        return Err(FilterRefused::Refused(NOT_SUPPORTED));
    }
    Ok(items.copy(alloc)?)
}

/// The number that the value is.
pub(crate) fn whole(value: &Value) -> Option<i64>
    ensures { result ≡ number_of (out-Value value.now) }
{
    match value {
        Value::Int(number) => Some(i64::from(*number)),
        Value::Long(number) => Some(*number),
        _ => None,
    }
}

/// A bool, or a number, of which 0 is false.
fn truth_of(value: &Value) -> Result<bool, Kind>
    ensures { result ≡ truth_of (out-Value value.now) }
{
    if let Value::Bool(truth) = value {
        return Ok(*truth);
    }
    match whole(value) {
        Some(number) => Ok(number != 0),
        None => Err(BAD_OPERAND),
    }
}

/// A number that is not negative.
fn count_of(value: &Value) -> Result<u64, Kind>
    ensures { result ≡ count_of (out-Value value.now) }
{
    match whole(value) {
        Some(number) => {
            if number < 0 {
                Err(BAD_OPERAND)
            } else {
                Ok(number.unsigned_abs())
            }
        }
        None => Err(BAD_OPERAND),
    }
}

fn division_in(items: &[Value]) -> Result<Test, Kind>
    ensures { result ≡ division_in items.now }
{
    let [divisor, rest] = items else {
        return Err(BAD_OPERAND);
    };
    let Some(divisor) = whole(divisor) else {
        return Err(BAD_OPERAND);
    };
    let Some(rest) = whole(rest) else {
        return Err(BAD_OPERAND);
    };
    if divisor == 0 {
        return Err(BAD_OPERAND);
    }
    Ok(Test::Mod { divisor, rest })
}

/// A divisor and a rest.
fn division_of(value: &Value) -> Result<Test, Kind>
    ensures { result ≡ division_of (out-Value value.now) }
{
    match value {
        Value::Arr(items) => division_in(items.as_slice()),
        _ => Err(BAD_OPERAND),
    }
}

#[tactic(auto, using(crate::proofs::Levels::kept))]
pub(crate) fn read_value(
    alloc: Global,
    by: Comparison,
    value: &Value,
) -> Result<Test, FilterRefused>
    ensures { Gives result (told (operator.Value by) (reads value.now)) }
{
    let value = value.copy(alloc)?;
    Ok(by.test(value))
}

#[tactic(auto, using(crate::proofs::Levels::kept))]
pub(crate) fn read_values(
    alloc: Global,
    by: Membership,
    value: &Value,
) -> Result<Test, FilterRefused>
    ensures { Gives result (told (operator.Values by) (reads value.now)) }
{
    match values_of(alloc, by, value) {
        Ok(values) => Ok(by.test(values)),
        Err(why) => Err(why),
    }
}

#[tactic(auto, using(crate::proofs::Levels::kept))]
pub(crate) fn read_count(by: Counted, value: &Value) -> Result<Test, FilterRefused>
    ensures { Gives result (told (operator.Count by) (reads value.now)) }
{
    match count_of(value) {
        Ok(number) => Ok(by.test(number)),
        Err(kind) => Err(FilterRefused::Refused(kind)),
    }
}

#[tactic(auto, using(crate::proofs::Levels::kept))]
pub(crate) fn read_truth(value: &Value) -> Result<Test, FilterRefused>
    ensures { Gives result (told operator.Truth (reads value.now)) }
{
    match truth_of(value) {
        Ok(truth) => Ok(Test::Exists(truth)),
        Err(kind) => Err(FilterRefused::Refused(kind)),
    }
}

#[tactic(auto, using(crate::proofs::Levels::kept))]
pub(crate) fn read_types(alloc: Global, value: &Value) -> Result<Test, FilterRefused>
    ensures { Gives result (told operator.Types (reads value.now)) }
{
    match types_of(alloc, value) {
        Ok(types) => Ok(Test::OfType(types)),
        Err(why) => Err(why),
    }
}

#[tactic(auto, using(crate::proofs::Levels::kept))]
pub(crate) fn read_division(value: &Value) -> Result<Test, FilterRefused>
    ensures { Gives result (told operator.Division (reads value.now)) }
{
    match division_of(value) {
        Ok(test) => Ok(test),
        Err(kind) => Err(FilterRefused::Refused(kind)),
    }
}
