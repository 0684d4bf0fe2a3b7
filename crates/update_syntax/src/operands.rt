ghost use Rattle.std.specs.Prelude.{◌≡◌, ◌∷◌, [], Ok};
ghost use Rattle.std.specs.Option.{option_copied};
ghost use Rattle.bson_values.specs.declared.value.Value.{out-Value};
ghost use Rattle.filter_syntax.specs.Candidates.{number_of};
ghost use Rattle.filter_syntax.specs.Operands.{found_or};
ghost use Rattle.update_syntax.specs.declared.operators.Operator.TheVariants as operator;
ghost use Rattle.update_syntax.specs.Answers.{Gives};
ghost use Rattle.update_syntax.specs.Operands.{number_in, end_in, end_told, none_behind, each_in, more_in, type_told, type_in, moment_in};
ghost use Rattle.update_syntax.specs.Operands.{bits_named, bits_of, bits_in, text_in};
ghost use Rattle.update_syntax.specs.Told.{told};

use crate::names::{asks_more, begins_with_operator, has_dollar};
use crate::operators::{Adding, Operator, Placing, Reckoning};
use crate::paths::read_path;
use crate::refused::UpdateRefused;
use crate::update::{BitKind, Number, Step};
use bson_values::{List, NoMemory, Pair, Value};
use case_tables::{BAD_OPERAND, Kind, NOT_A_WHOLE_NUMBER, NOT_SUPPORTED};
use doc_paths::Path;
use std::alloc::Global;

// ---- what a value is

fn number_in(value: &Value) -> Option<Number>
    ensures { result ≡ number_in (out-Value value.now) }
{
    match value {
        Value::Int(number) => Some(Number::Int(*number)),
        Value::Long(number) => Some(Number::Long(*number)),
        _ => None,
    }
}

/// 1 tells the last item, -1 the first.
fn end_in(value: &Value) -> Option<bool>
    ensures { result ≡ end_in (out-Value value.now) }
{
    let number = match value {
        Value::Int(number) => i64::from(*number),
        Value::Long(number) => *number,
        _ => return None,
    };
    match number {
        1 => Some(true),
        -1 => Some(false),
        _ => None,
    }
}

fn type_told(name: &str) -> Option<bool>
    ensures { result ≡ type_told name.now }
{
    if name == "date" {
        return Some(true);
    }
    if name == "timestamp" {
        return Some(false);
    }
    None
}

fn type_in(pairs: &[Pair<Value>]) -> Option<bool>
    ensures { result ≡ type_in pairs.now }
{
    let [pair] = pairs else {
        return None;
    };
    if pair.name.as_str() != "$type" {
        return None;
    }
    match &pair.value {
        Value::Str(name) => type_told(name.as_str()),
        _ => None,
    }
}

/// Whether a moment is told as a date, or as a timestamp.
fn moment_in(value: &Value) -> Option<bool>
    ensures { result ≡ moment_in (out-Value value.now) }
{
    match value {
        Value::Bool(true) => Some(true),
        Value::Bool(false) => None,
        Value::Doc(doc) => type_in(doc.as_slice()),
        _ => None,
    }
}

fn bits_named(name: &str) -> Option<BitKind>
    ensures { result ≡ bits_named name.now }
{
    if name == "and" {
        return Some(BitKind::And);
    }
    if name == "or" {
        return Some(BitKind::Or);
    }
    if name == "xor" {
        return Some(BitKind::Xor);
    }
    None
}

fn bits_of(pairs: &[Pair<Value>]) -> Option<(BitKind, Number)>
    ensures { result ≡ bits_of pairs.now }
{
    let [pair] = pairs else {
        return None;
    };
    let kind = bits_named(pair.name.as_str())?;
    let number = number_in(&pair.value)?;
    Some((kind, number))
}

fn bits_in(value: &Value) -> Option<(BitKind, Number)>
    ensures { result ≡ bits_in (out-Value value.now) }
{
    match value {
        Value::Doc(doc) => bits_of(doc.as_slice()),
        _ => None,
    }
}

// ---- items

fn none_behind(pairs: &[Pair<Value>]) -> Result<(), Kind>
    ensures { result ≡ none_behind pairs.now }
{
    match pairs {
        [] => Ok(()),
        [pair, ..] => {
            let name = pair.name.as_str();
            if has_dollar(name) && name != "$each" {
                Err(NOT_SUPPORTED)
            } else {
                Err(BAD_OPERAND)
            }
        }
    }
}

/// The items beside `$each`.
fn each_in(alloc: Global, pairs: &[Pair<Value>]) -> Result<List<Value>, UpdateRefused>
    ensures { Gives result (each_in pairs.now) }
{
    let [pair, more @ ..] = pairs else {
        return Err(UpdateRefused::Refused(BAD_OPERAND));
    };
    if pair.name.as_str() != "$each" {
        return Err(UpdateRefused::Refused(NOT_SUPPORTED));
    }
    let Value::Arr(items) = &pair.value else {
        return Err(UpdateRefused::Refused(BAD_OPERAND));
    };
    match none_behind(more) {
        Ok(()) => Ok(items.copy(alloc)?),
        Err(kind) => Err(UpdateRefused::Refused(kind)),
    }
}

fn alone(alloc: Global, value: &Value) -> Result<List<Value>, UpdateRefused>
    ensures { Gives result (Ok (value.now ∷ [])) }
{
    let value = value.copy(alloc)?;
    let mut items = List::new(alloc);
    items.add(value)?;
    Ok(items)
}

/// What `$push` and `$addToSet` add.
fn more_in(alloc: Global, value: &Value) -> Result<List<Value>, UpdateRefused>
    ensures { Gives result (more_in value.now (out-Value value.now)) }
{
    match value {
        Value::Doc(doc) => {
            if begins_with_operator(doc) {
                each_in(alloc, doc.as_slice())
            } else {
                alone(alloc, value)
            }
        }
        _ => alone(alloc, value),
    }
}

// ---- steps

fn read_value(alloc: Global, by: Placing, path: Path, value: &Value) -> Result<Step, UpdateRefused>
    ensures { Gives result (told (operator.Value by) path value.now) }
{
    let value = value.copy(alloc)?;
    Ok(by.step(path, value))
}

fn read_number(by: Reckoning, path: Path, value: &Value) -> Result<Step, UpdateRefused>
    ensures { Gives result (told (operator.Number by) path value.now) }
{
    match number_in(value) {
        Some(number) => Ok(by.step(path, number)),
        None => Err(UpdateRefused::Refused(NOT_A_WHOLE_NUMBER)),
    }
}

fn read_target(alloc: Global, path: Path, value: &Value) -> Result<Step, UpdateRefused>
    ensures { Gives result (told operator.Target path value.now) }
{
    let Value::Str(text) = value else {
        return Err(UpdateRefused::Refused(BAD_OPERAND));
    };
    match read_path(alloc, text.as_str()) {
        Ok(to) => Ok(Step::Rename(path, to)),
        Err(why) => Err(why),
    }
}

fn read_items(alloc: Global, by: Adding, path: Path, value: &Value) -> Result<Step, UpdateRefused>
    ensures { Gives result (told (operator.Items by) path value.now) }
{
    match more_in(alloc, value) {
        Ok(items) => Ok(by.step(path, items)),
        Err(why) => Err(why),
    }
}

fn read_end(path: Path, value: &Value) -> Result<Step, UpdateRefused>
    ensures { Gives result (told operator.End path value.now) }
{
    match end_in(value) {
        Some(last) => Ok(Step::Pop { path, last }),
        None => Err(UpdateRefused::Refused(BAD_OPERAND)),
    }
}

fn read_pulled(alloc: Global, path: Path, value: &Value) -> Result<Step, UpdateRefused>
    ensures { Gives result (told operator.Pulled path value.now) }
{
    if asks_more(value) {
        return Err(UpdateRefused::Refused(NOT_SUPPORTED));
    }
    let value = value.copy(alloc)?;
    Ok(Step::Pull(path, value))
}

fn read_all_pulled(alloc: Global, path: Path, value: &Value) -> Result<Step, UpdateRefused>
    ensures { Gives result (told operator.AllPulled path value.now) }
{
    let Value::Arr(items) = value else {
        return Err(UpdateRefused::Refused(BAD_OPERAND));
    };
    let items = items.copy(alloc)?;
    Ok(Step::PullAll(path, items))
}

fn read_moment(path: Path, value: &Value) -> Result<Step, UpdateRefused>
    ensures { Gives result (told operator.Moment path value.now) }
{
    match moment_in(value) {
        Some(date) => Ok(Step::CurrentDate { path, date }),
        None => Err(UpdateRefused::Refused(BAD_OPERAND)),
    }
}

fn read_bits(path: Path, value: &Value) -> Result<Step, UpdateRefused>
    ensures { Gives result (told operator.Bits path value.now) }
{
    match bits_in(value) {
        Some((kind, number)) => Ok(Step::Bit(path, kind, number)),
        None => Err(UpdateRefused::Refused(BAD_OPERAND)),
    }
}

/// The step that an operator makes of a path and what stands beside it.
pub(crate) fn read_step(
    alloc: Global,
    operator: Operator,
    path: Path,
    value: &Value,
) -> Result<Step, UpdateRefused>
    ensures { Gives result (told operator path value.now) }
{
    match operator {
        Operator::Value(by) => read_value(alloc, by, path, value),
        Operator::Removal => Ok(Step::Unset(path)),
        Operator::Number(by) => read_number(by, path, value),
        Operator::Target => read_target(alloc, path, value),
        Operator::Items(by) => read_items(alloc, by, path, value),
        Operator::End => read_end(path, value),
        Operator::Pulled => read_pulled(alloc, path, value),
        Operator::AllPulled => read_all_pulled(alloc, path, value),
        Operator::Moment => read_moment(path, value),
        Operator::Bits => read_bits(path, value),
    }
}
