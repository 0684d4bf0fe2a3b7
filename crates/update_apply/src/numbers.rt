ghost use Rattle.std.specs.Prelude.{◌≡◌, ◌+ℤ◌, ◌*ℤ◌, unwrap_or};
ghost use Rattle.std.specs.Int.{w32, w64};
ghost use Rattle.std.specs.Option.{option_copied};
ghost use Rattle.bson_values.specs.declared.value.Value.{out-Value};
ghost use Rattle.update_apply.specs.Answers.{Changes, Gives};
ghost use Rattle.update_syntax.specs.After.{as_int, as_long, as_value, bits, bits_of, combined, inc, made_of, mul, reckoned, zero_of};

use crate::putting::set;
use crate::refused::ApplyRefused;
use bson_values::{Document, Value};
use case_tables::{NOT_A_WHOLE_NUMBER, NUMBER_OUT_OF_RANGE, WRONG_OPERAND_TYPE};
use doc_paths::{Path, peek};
use std::alloc::Global;
use update_syntax::{BitKind, Number};

fn value_of(number: Number) -> Value
    ensures { result ≡ as_value number }
{
    match number {
        Number::Int(number) => Value::Int(number),
        Number::Long(number) => Value::Long(number),
    }
}

/// A zero of its type.
fn zero_of(number: Number) -> Value
    ensures { result ≡ zero_of number }
{
    match number {
        Number::Int(_) => Value::Int(0),
        Number::Long(_) => Value::Long(0),
    }
}

// ---- sums

fn sum_of_longs(one: i64, other: i64) -> Result<Value, ApplyRefused>
    ensures { Gives result (as_long (one +ℤ other)) }
{
    match one.checked_add(other) {
        Some(sum) => Ok(Value::Long(sum)),
        None => Err(ApplyRefused::Refused(NUMBER_OUT_OF_RANGE)),
    }
}

fn sum_of_ints(one: i32, other: i32) -> Result<Value, ApplyRefused>
    ensures { Gives result (as_int (one +ℤ other)) }
{
    match one.checked_add(other) {
        Some(sum) => Ok(Value::Int(sum)),
        None => sum_of_longs(i64::from(one), i64::from(other)),
    }
}

fn sum(number: Number, there: &Value) -> Result<Value, ApplyRefused>
    ensures { Gives result (reckoned (λ one other. one +ℤ other) number (out-Value there.now)) }
{
    match (number, there) {
        (Number::Int(number), Value::Int(it)) => sum_of_ints(*it, number),
        (Number::Int(number), Value::Long(it)) => sum_of_longs(*it, i64::from(number)),
        (Number::Long(number), Value::Int(it)) => sum_of_longs(i64::from(*it), number),
        (Number::Long(number), Value::Long(it)) => sum_of_longs(*it, number),
        _ => Err(ApplyRefused::Refused(NOT_A_WHOLE_NUMBER)),
    }
}

fn increased(number: Number, there: Option<&Value>) -> Result<Value, ApplyRefused>
    ensures { Gives result (made_of (as_value number) (reckoned (λ one other. one +ℤ other) number) (option_copied there.entry)) }
{
    match there {
        None => Ok(value_of(number)),
        Some(there) => sum(number, there),
    }
}

/// `$inc`.
#[tactic(auto, unfolding(update_syntax::specs::After::inc))]
pub(crate) fn increase(
    alloc: Global,
    doc: &mut Document,
    path: &Path,
    number: Number,
) -> Result<(), ApplyRefused>
    ensures { Changes result (inc path.now number doc.old) doc.new }
{
    let it = increased(number, peek(doc, path))?;
    set(alloc, doc, path, it)
}

// ---- products

fn product_of_longs(one: i64, other: i64) -> Result<Value, ApplyRefused>
    ensures { Gives result (as_long (one *ℤ other)) }
{
    match one.checked_mul(other) {
        Some(product) => Ok(Value::Long(product)),
        None => Err(ApplyRefused::Refused(NUMBER_OUT_OF_RANGE)),
    }
}

fn product_of_ints(one: i32, other: i32) -> Result<Value, ApplyRefused>
    ensures { Gives result (as_int (one *ℤ other)) }
{
    match one.checked_mul(other) {
        Some(product) => Ok(Value::Int(product)),
        None => product_of_longs(i64::from(one), i64::from(other)),
    }
}

fn product(number: Number, there: &Value) -> Result<Value, ApplyRefused>
    ensures { Gives result (reckoned (λ one other. one *ℤ other) number (out-Value there.now)) }
{
    match (number, there) {
        (Number::Int(number), Value::Int(it)) => product_of_ints(*it, number),
        (Number::Int(number), Value::Long(it)) => product_of_longs(*it, i64::from(number)),
        (Number::Long(number), Value::Int(it)) => product_of_longs(i64::from(*it), number),
        (Number::Long(number), Value::Long(it)) => product_of_longs(*it, number),
        _ => Err(ApplyRefused::Refused(NOT_A_WHOLE_NUMBER)),
    }
}

fn multiplied(number: Number, there: Option<&Value>) -> Result<Value, ApplyRefused>
    ensures { Gives result (made_of (zero_of number) (reckoned (λ one other. one *ℤ other) number) (option_copied there.entry)) }
{
    match there {
        None => Ok(zero_of(number)),
        Some(there) => product(number, there),
    }
}

/// `$mul`.
#[tactic(auto, unfolding(update_syntax::specs::After::mul))]
pub(crate) fn multiply(
    alloc: Global,
    doc: &mut Document,
    path: &Path,
    number: Number,
) -> Result<(), ApplyRefused>
    ensures { Changes result (mul path.now number doc.old) doc.new }
{
    let it = multiplied(number, peek(doc, path))?;
    set(alloc, doc, path, it)
}

// ---- bits

fn bits_of_ints(kind: BitKind, one: i32, other: i32) -> i32
    ensures { result ≡ combined kind w32 one other }
{
    match kind {
        BitKind::And => one & other,
        BitKind::Or => one | other,
        BitKind::Xor => one ^ other,
    }
}

fn bits_of_longs(kind: BitKind, one: i64, other: i64) -> i64
    ensures { result ≡ combined kind w64 one other }
{
    match kind {
        BitKind::And => one & other,
        BitKind::Or => one | other,
        BitKind::Xor => one ^ other,
    }
}

fn bits_with(kind: BitKind, number: Number, there: &Value) -> Result<Value, ApplyRefused>
    ensures { Gives result (bits_of kind number (out-Value there.now)) }
{
    match (number, there) {
        (Number::Int(number), Value::Int(it)) => Ok(Value::Int(bits_of_ints(kind, *it, number))),
        (Number::Int(number), Value::Long(it)) => {
            Ok(Value::Long(bits_of_longs(kind, *it, i64::from(number))))
        }
        (Number::Long(number), Value::Int(it)) => {
            Ok(Value::Long(bits_of_longs(kind, i64::from(*it), number)))
        }
        (Number::Long(number), Value::Long(it)) => {
            Ok(Value::Long(bits_of_longs(kind, *it, number)))
        }
        _ => Err(ApplyRefused::Refused(WRONG_OPERAND_TYPE)),
    }
}

/// What is absent counts as a zero.
fn bits_at(kind: BitKind, number: Number, there: Option<&Value>) -> Result<Value, ApplyRefused>
    ensures { Gives result (bits_of kind number (out-Value (unwrap_or (option_copied there.entry) (zero_of number)))) }
{
    match there {
        None => bits_with(kind, number, &zero_of(number)),
        Some(there) => bits_with(kind, number, there),
    }
}

/// `$bit`.
#[tactic(auto, unfolding(update_syntax::specs::After::bits))]
pub(crate) fn combine_bits(
    alloc: Global,
    doc: &mut Document,
    path: &Path,
    kind: BitKind,
    number: Number,
) -> Result<(), ApplyRefused>
    ensures { Changes result (bits path.now kind number doc.old) doc.new }
{
    let it = bits_at(kind, number, peek(doc, path))?;
    set(alloc, doc, path, it)
}
