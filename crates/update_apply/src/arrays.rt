ghost use Rattle.std.specs.Prelude.{◌≡◌, ◌++◌, [], OnOk, IfOk};
ghost use Rattle.std.specs.List.{list_all};
ghost use Rattle.std.specs.Option.{option_copied};
ghost use Rattle.bson_values.specs.declared.value.Value.{out-Value};
ghost use Rattle.bson_values.specs.declared.value.Value.TheVariants as value;
ghost use Rattle.update_apply.specs.Answers.{Changes, Gives};
ghost use Rattle.update_syntax.specs.After.{add_to_set, array_in, has_field, has_fields, is_pulled, is_the_same, made_of, pop, pull};
ghost use Rattle.update_syntax.specs.After.{pull_all, push, with_each, without, without_end};

use crate::putting::set;
use crate::refused::ApplyRefused;
use crate::sets::{with_each, without_any};
use bson_order::same;
use bson_values::{Document, List, NoMemory, Pair, Value};
use case_tables::WRONG_OPERAND_TYPE;
use doc_paths::{Path, peek};
use std::alloc::Global;

// ---- arrays that grow

/// Adds copies of all.
fn add_all(alloc: Global, more: &[Value], items: &mut List<Value>) -> Result<(), NoMemory>
    ensures { OnOk result (items.new ≡ items.old ++ more.now) }
{
    for it in more {
        let it = it.copy(alloc)?;
        items.add(it)?;
    }
    Ok(())
}

fn joined(alloc: Global, items: &[Value], more: &[Value]) -> Result<List<Value>, NoMemory>
    ensures { IfOk result (λ all. all ≡ items.now ++ more.now) }
{
    let mut all = List::new(alloc);
    add_all(alloc, items, &mut all)?;
    add_all(alloc, more, &mut all)?;
    Ok(all)
}

fn pushed(alloc: Global, there: Option<&Value>, more: &[Value]) -> Result<Value, ApplyRefused>
    ensures { Gives result (made_of (value.Arr ([] ++ more.now)) (array_in (λ items. items ++ more.now)) (option_copied there.entry)) }
{
    match there {
        None => Ok(Value::Arr(joined(alloc, &[], more)?)),
        Some(Value::Arr(items)) => Ok(Value::Arr(joined(alloc, items.as_slice(), more)?)),
        Some(_) => Err(ApplyRefused::Refused(WRONG_OPERAND_TYPE)),
    }
}

/// `$push`.
#[tactic(auto, unfolding(update_syntax::specs::After::push))]
pub(crate) fn push(
    alloc: Global,
    doc: &mut Document,
    path: &Path,
    more: &[Value],
) -> Result<(), ApplyRefused>
    ensures { Changes result (push path.now more.now doc.old) doc.new }
{
    let it = pushed(alloc, peek(doc, path), more)?;
    set(alloc, doc, path, it)
}

fn added(alloc: Global, there: Option<&Value>, more: &[Value]) -> Result<Value, ApplyRefused>
    ensures { Gives result (made_of (value.Arr (with_each [] more.now)) (array_in (λ items. with_each items more.now))
        (option_copied there.entry)) }
{
    match there {
        None => Ok(Value::Arr(with_each(alloc, &[], more)?)),
        Some(Value::Arr(items)) => Ok(Value::Arr(with_each(alloc, items.as_slice(), more)?)),
        Some(_) => Err(ApplyRefused::Refused(WRONG_OPERAND_TYPE)),
    }
}

/// `$addToSet`.
#[tactic(auto, unfolding(update_syntax::specs::After::add_to_set))]
pub(crate) fn add_to_set(
    alloc: Global,
    doc: &mut Document,
    path: &Path,
    more: &[Value],
) -> Result<(), ApplyRefused>
    ensures { Changes result (add_to_set path.now more.now doc.old) doc.new }
{
    let it = added(alloc, peek(doc, path), more)?;
    set(alloc, doc, path, it)
}

// ---- arrays that shrink

fn inner(items: &[Value], last: bool) -> &[Value]
    ensures { result.now ≡ without_end last items.now }
{
    if last {
        match items {
            [front @ .., _] => front,
            [] => items,
        }
    } else {
        match items {
            [_, rest @ ..] => rest,
            [] => items,
        }
    }
}

fn copied(alloc: Global, items: &[Value]) -> Result<List<Value>, NoMemory>
    ensures { IfOk result (λ all. all ≡ items.now) }
{
    let mut all = List::new(alloc);
    add_all(alloc, items, &mut all)?;
    Ok(all)
}

/// `$pop`.
#[tactic(auto, unfolding(update_syntax::specs::After::pop))]
pub(crate) fn pop(
    alloc: Global,
    doc: &mut Document,
    path: &Path,
    last: bool,
) -> Result<(), ApplyRefused>
    ensures { Changes result (pop path.now last doc.old) doc.new }
{
    let left = match peek(doc, path) {
        None => return Ok(()),
        Some(Value::Arr(items)) => copied(alloc, inner(items.as_slice(), last))?,
        Some(_) => return Err(ApplyRefused::Refused(WRONG_OPERAND_TYPE)),
    };
    set(alloc, doc, path, Value::Arr(left))
}

fn has_field(doc: &Document, pair: &Pair<Value>) -> bool
    ensures { result ≡ has_field doc.now pair.now }
{
    match doc.get(pair.name.as_str()) {
        Some(there) => same(there, &pair.value),
        None => false,
    }
}

fn has_each(doc: &Document, fields: &[Pair<Value>]) -> bool
    ensures { result ≡ list_all (has_field doc.now) fields.now }
{
    fields.iter().all(|pair| has_field(doc, pair))
}

fn has_fields(fields: &[Pair<Value>], item: &Value) -> bool
    ensures { result ≡ has_fields fields.now (out-Value item.now) }
{
    match item {
        Value::Doc(doc) => has_each(doc, fields),
        _ => false,
    }
}

fn is_pulled(it: &Value, item: &Value) -> bool
    ensures { result ≡ is_pulled it.now (out-Value it.now) item.now }
{
    match it {
        Value::Doc(fields) => same(item, it) || has_fields(fields.as_slice(), item),
        _ => same(item, it),
    }
}

/// Copies of those that stay.
#[tactic(auto, unfolding(update_syntax::specs::After::without))]
fn without(alloc: Global, it: &Value, items: &[Value]) -> Result<List<Value>, NoMemory>
    ensures { IfOk result (λ left. left ≡ without it.now items.now) }
{
    let mut left = List::new(alloc);
    for item in items {
        if !is_pulled(it, item) {
            let item = item.copy(alloc)?;
            left.add(item)?;
        }
    }
    Ok(left)
}

/// `$pull`.
#[tactic(auto, unfolding(update_syntax::specs::After::pull))]
pub(crate) fn pull(
    alloc: Global,
    doc: &mut Document,
    path: &Path,
    it: &Value,
) -> Result<(), ApplyRefused>
    ensures { Changes result (pull path.now it.now doc.old) doc.new }
{
    let left = match peek(doc, path) {
        None => return Ok(()),
        Some(Value::Arr(items)) => without(alloc, it, items.as_slice())?,
        Some(_) => return Err(ApplyRefused::Refused(WRONG_OPERAND_TYPE)),
    };
    set(alloc, doc, path, Value::Arr(left))
}

/// `$pullAll`.
#[tactic(auto, unfolding(update_syntax::specs::After::pull_all))]
pub(crate) fn pull_all(
    alloc: Global,
    doc: &mut Document,
    path: &Path,
    values: &[Value],
) -> Result<(), ApplyRefused>
    ensures { Changes result (pull_all path.now values.now doc.old) doc.new }
{
    let left = match peek(doc, path) {
        None => return Ok(()),
        Some(Value::Arr(items)) => without_any(alloc, values, items.as_slice())?,
        Some(_) => return Err(ApplyRefused::Refused(WRONG_OPERAND_TYPE)),
    };
    set(alloc, doc, path, Value::Arr(left))
}
