ghost use Rattle.std.specs.Prelude.{◌≡◌, ◌&&◌, ◌++◌, ◌∷◌, [], map, OnOk, IfOk};
ghost use Rattle.std.specs.List.{list_all, list_any};
ghost use Rattle.std.specs.Str.{all_ascii_digits};
ghost use Rattle.jsonb_contain.specs.declared.cond.Cond.TheVariants as cond_of;
ghost use Rattle.filter_syntax.specs.declared.filter.Test.{out-Test};
ghost use Rattle.pushdown.specs.Pushed.{asks_plain, bare_or_in_array, conjunct, element, field, is_plain, is_pushed_path, shapes, term};

use bson_order::id_key;
use bson_values::{List, NoMemory, Pair, Text, Value};
use filter_syntax::Test;
use jsonb_contain::{Cond, Fields, Json};
use std::alloc::Global;
use typed_json::plain;

/// The most parts of a path that is pushed: each part more doubles the shapes.
const MOST_PUSHED: usize = 3;

fn is_plain(value: &Value) -> bool
    ensures { result ≡ is_plain value.now }
{
    !matches!(
        value,
        Value::Doc(_) | Value::Arr(_) | Value::Null | Value::Regex(_)
    )
}

fn are_plain(values: &[Value]) -> bool
    ensures { result ≡ list_all is_plain values.now }
{
    values.iter().all(|value| is_plain(value))
}

fn asks_plain(test: &Test) -> bool
    ensures { result ≡ asks_plain (out-Test test.now) }
{
    match test {
        Test::Eq(wanted) => is_plain(wanted),
        Test::OneOf(wanted) => are_plain(wanted.as_slice()),
        _ => false,
    }
}

fn is_digits(part: &Text) -> bool
    ensures { result ≡ all_ascii_digits part.now }
{
    let bytes = part.as_str().as_bytes();
    for byte in bytes {
        if !byte.is_ascii_digit() {
            return false;
        }
    }
    true
}

fn any_is_digits(parts: &[Text]) -> bool
    ensures { result ≡ list_any all_ascii_digits parts.now }
{
    parts.iter().any(|part| is_digits(part))
}

fn is_pushed_path(part: &Text, rest: &[Text]) -> bool
    ensures { result ≡ is_pushed_path part.now rest.now }
{
    match rest {
        [] => true,
        _ => rest.len() < MOST_PUSHED && !is_digits(part) && !any_is_digits(rest),
    }
}

/// Whether an operator at a path, told by its first part and the others, is pushed.
pub(crate) fn is_pushed(part: &Text, rest: &[Text], test: &Test) -> bool
    ensures { result ≡ is_pushed_path part.now rest.now && asks_plain (out-Test test.now) }
{
    is_pushed_path(part, rest) && asks_plain(test)
}

fn field(alloc: Global, name: &Text, value: Json) -> Result<Json, NoMemory>
    ensures { IfOk result (λ it. it ≡ field name.now value) }
{
    let name = name.copy(alloc)?;
    let mut pairs = List::new(alloc);
    pairs.add(Pair { name, value })?;
    Ok(Json::Object(Fields::from_list(pairs)))
}

fn element(alloc: Global, item: Json) -> Result<Json, NoMemory>
    ensures { IfOk result (λ it. it ≡ element item) }
{
    let mut items = List::new(alloc);
    items.add(item)?;
    Ok(Json::Array(items))
}

fn fields(alloc: Global, name: &Text, values: List<Json>) -> Result<List<Json>, NoMemory>
    ensures { IfOk result (λ all. all ≡ map (field name.now) values) }
{
    let mut made = List::new(alloc);
    for value in values.into_vec() {
        let one = field(alloc, name, value)?;
        made.add(one)?;
    }
    Ok(made)
}

fn elements(alloc: Global, items: &[Json]) -> Result<List<Json>, NoMemory>
    ensures { IfOk result (λ all. all ≡ map element items.now) }
{
    let mut made = List::new(alloc);
    for item in items {
        let again = item.copy(alloc)?;
        let one = element(alloc, again)?;
        made.add(one)?;
    }
    Ok(made)
}

fn bare_or_in_array(alloc: Global, shapes: List<Json>) -> Result<List<Json>, NoMemory>
    ensures { IfOk result (λ all. all ≡ bare_or_in_array shapes) }
{
    let mut all = shapes;
    let in_arrays = elements(alloc, all.as_slice())?;
    all.append(in_arrays)?;
    Ok(all)
}

fn only(alloc: Global, json: Json) -> Result<List<Json>, NoMemory>
    ensures { IfOk result (λ all. all ≡ json ∷ []) }
{
    let mut all = List::new(alloc);
    all.add(json)?;
    Ok(all)
}

#[cycle(shapes)]
fn shapes(alloc: Global, parts: &[Text], json: Json) -> Result<List<Json>, NoMemory>
    ensures { IfOk result (λ all. all ≡ shapes parts.now json) }
{
    let bare = match parts.split_first() {
        None => only(alloc, json)?,
        Some((part, rest)) => {
            let behind = shapes(alloc, rest, json)?;
            fields(alloc, part, behind)?
        }
    };
    bare_or_in_array(alloc, bare)
}

fn each_at(alloc: Global, part: &Text, shapes: List<Json>) -> Result<List<Cond>, NoMemory>
    ensures { IfOk result (λ all. all ≡ map (cond_of.AtKey part.now) shapes) }
{
    let mut made = List::new(alloc);
    for shape in shapes.into_vec() {
        let part = part.copy(alloc)?;
        made.add(Cond::AtKey(part, shape))?;
    }
    Ok(made)
}

fn term_at(alloc: Global, part: &Text, value: &Value) -> Result<Cond, NoMemory>
    ensures { IfOk result (λ it. it ≡ term part.now [] value.now) }
{
    if part.as_str() == "_id" {
        return Ok(Cond::KeyIs(id_key(alloc, value)?));
    }
    let json = plain(alloc, value)?;
    Ok(Cond::AtKey(part.copy(alloc)?, json))
}

/// What is asked of a row whose document has a value at a path, told by its first part and the others.
fn term(alloc: Global, part: &Text, rest: &[Text], value: &Value) -> Result<Cond, NoMemory>
    ensures { IfOk result (λ it. it ≡ term part.now rest.now value.now) }
{
    if rest.is_empty() {
        return term_at(alloc, part, value);
    }
    let shapes = shapes(alloc, rest, plain(alloc, value)?)?;
    Ok(Cond::Any(each_at(alloc, part, shapes)?))
}

fn terms(
    alloc: Global,
    part: &Text,
    rest: &[Text],
    values: &[Value],
) -> Result<List<Cond>, NoMemory>
    ensures { IfOk result (λ all. all ≡ map (term part.now rest.now) values.now) }
{
    let mut made = List::new(alloc);
    for value in values {
        let one = term(alloc, part, rest, value)?;
        made.add(one)?;
    }
    Ok(made)
}

/// Adds what an operator that is pushed asks of a row.
pub(crate) fn push_conjunct(
    alloc: Global,
    part: &Text,
    rest: &[Text],
    test: &Test,
    out: &mut List<Cond>,
) -> Result<(), NoMemory>
    ensures { OnOk result (out.new ≡ out.old ++ conjunct (term part.now rest.now) (out-Test test.now)) }
{
    match test {
        Test::Eq(wanted) => {
            let one = term(alloc, part, rest, wanted)?;
            out.add(one)
        }
        Test::OneOf(wanted) => {
            let any = terms(alloc, part, rest, wanted.as_slice())?;
            out.add(Cond::Any(any))
        }
        _ => Ok(()),
    }
}
