ghost use Rattle.std.specs.Prelude.{◌≡◌, ◌<◌, pos, map, find, option_map, IfSome};
ghost use Rattle.std.specs.Ordering.{int_eq};
ghost use Rattle.std.specs.Str.{bytes_eq};
ghost use Rattle.bson_values.specs.declared.value.Value.{out-Value};
ghost use Rattle.case_tables.specs.Cases.{columns};
ghost use Rattle.case_tables.specs.Types.{types};
ghost use Rattle.filter_syntax.specs.Answers.{Adds, Gives};
ghost use Rattle.filter_syntax.specs.Operands.{all_of, one_type, type_where, types_named, types_numbered, types_of, types_told};

use crate::operands::{put, whole};
use crate::refused::FilterRefused;
use bson_values::{List, Value};
use case_tables::{BAD_OPERAND, Case, TYPES, type_byte};
use std::alloc::Global;

#[tactic(auto, unfolding(case_tables::specs::Types::types))]
fn types() -> &'static [Case]
    ensures { columns result.now ≡ types }
{
    TYPES.rows
}

fn find_name(rows: &[Case], name: &str) -> Option<u32>
    ensures { result ≡ option_map (λ row. row.code) (find (λ row. bytes_eq row.name.now name.now) rows.now) }
{
    rows.iter().find(|row| row.name == name).map(|row| row.code)
}

fn find_number(rows: &[Case], number: &i64) -> Option<u32>
    ensures { result ≡ option_map (λ row. row.code) (find (λ row. int_eq (pos row.code) number.now) rows.now) }
{
    rows.iter()
        .find(|row| i64::from(row.code) == *number)
        .map(|row| row.code)
}

fn byte_in(found: Option<u32>) -> Option<u8>
    requires { IfSome found (λ code. code < 256) }
    ensures { result ≡ found }
{
    match found {
        Some(code) => Some(code as u8),
        None => None,
    }
}

fn type_named(name: &str) -> Option<u8>
    ensures { result ≡ type_where (λ it. bytes_eq it.1 name.now) }
{
    byte_in(find_name(types(), name))
}

fn type_numbered(number: &i64) -> Option<u8>
    ensures { result ≡ type_where (λ it. int_eq (pos it.0) number.now) }
{
    byte_in(find_number(types(), number))
}

fn put_type(found: Option<u8>, out: &mut List<u8>) -> Result<(), FilterRefused>
    ensures { Adds out.old out.new result (one_type found) }
{
    match found {
        Some(code) => put(out, code),
        None => Err(FilterRefused::Refused(BAD_OPERAND)),
    }
}

fn put_named(name: &str, out: &mut List<u8>) -> Result<(), FilterRefused>
    ensures { Adds out.old out.new result (types_named name.now) }
{
    if name == "number" {
        put(out, type_byte!(int))?;
        return put(out, type_byte!(long));
    }
    put_type(type_named(name), out)
}

/// Minkey's number is -1, too.
fn put_numbered(number: &i64, out: &mut List<u8>) -> Result<(), FilterRefused>
    ensures { Adds out.old out.new result (types_numbered number.now) }
{
    if *number == -1 {
        return put(out, type_byte!(minKey));
    }
    put_type(type_numbered(number), out)
}

fn put_told(value: &Value, out: &mut List<u8>) -> Result<(), FilterRefused>
    ensures { Adds out.old out.new result (types_told (out-Value value.now)) }
{
    if let Value::Str(name) = value {
        return put_named(name.as_str(), out);
    }
    match whole(value) {
        Some(number) => put_numbered(&number, out),
        None => Err(FilterRefused::Refused(BAD_OPERAND)),
    }
}

fn types_told(alloc: Global, value: &Value) -> Result<List<u8>, FilterRefused>
    ensures { Gives result (types_told (out-Value value.now)) }
{
    let mut all = List::new(alloc);
    match put_told(value, &mut all) {
        Ok(()) => Ok(all),
        Err(why) => Err(why),
    }
}

fn types_in(alloc: Global, items: &[Value]) -> Result<List<u8>, FilterRefused>
    ensures { Gives result (all_of types_told (map out-Value items.now)) }
{
    let mut all = List::new(alloc);
    for item in items {
        put_told(item, &mut all)?;
    }
    Ok(all)
}

/// The type bytes that `$type` names.
pub(crate) fn types_of(alloc: Global, value: &Value) -> Result<List<u8>, FilterRefused>
    ensures { Gives result (types_of (out-Value value.now)) }
{
    match value {
        Value::Arr(items) => {
            if items.len() == 0 {
                return Err(FilterRefused::Refused(BAD_OPERAND));
            }
            types_in(alloc, items.as_slice())
        }
        _ => types_told(alloc, value),
    }
}
