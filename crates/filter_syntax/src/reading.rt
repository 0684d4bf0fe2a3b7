ghost use Rattle.std.specs.Prelude.{◌≡◌, ◌∷◌, [], map, Ok, IfErr, IfOk};
ghost use Rattle.filter_syntax.specs.declared.operators.Operator.TheVariants as operator;
ghost use Rattle.filter_syntax.specs.declared.filter.Test.TheVariants as test;
ghost use Rattle.filter_syntax.specs.Answers.{Adds, Fails, Gives};
ghost use Rattle.filter_syntax.specs.Operands.{all_of, each};
ghost use Rattle.filter_syntax.specs.Operators.{pair_test, is_operator};
ghost use Rattle.filter_syntax.specs.Reading.{at_path, pair_filters, pairs_filter, pairs_tests, read, read_field, reads};
ghost use Rattle.filter_syntax.specs.Told.{told, told_top_level};

use crate::filter::{Filter, Test};
use crate::names::{first_name, has_dollar};
use crate::operands::{
    is_regex, put, read_count, read_division, read_truth, read_types, read_value, read_values,
};
use crate::operators::{Operator, TopLevel, operator_named, top_level_named};
use crate::paths::{put_all, read_path};
use crate::refused::FilterRefused;
use bson_values::{Document, List, Value};
use case_tables::{BAD_OPERAND, NOT_SUPPORTED, UNKNOWN_OPERATOR};
use doc_paths::Path;
use sqlite_items::Boxed;
use std::alloc::Global;

fn read_equal(alloc: Global, value: &Value) -> Result<List<Test>, FilterRefused>
    ensures { Gives result (Ok (test.Eq value.now ∷ [])) }
{
    let value = value.copy(alloc)?;
    let mut tests = List::new(alloc);
    put(&mut tests, Test::Eq(value))?;
    Ok(tests)
}

// ---- operators

#[cycle(read)]
#[tactic(auto, using(crate::proofs::Levels::tests_is))]
fn read_not(alloc: Global, value: &Value) -> Result<Test, FilterRefused>
    ensures { Gives result (told operator.Set (reads value.now)) }
{
    let Value::Doc(doc) = value else {
        return Err(FilterRefused::Refused(BAD_OPERAND));
    };
    if !has_dollar(first_name(doc)) {
        return Err(FilterRefused::Refused(BAD_OPERAND));
    }
    match read_tests(alloc, doc) {
        Ok(tests) => Ok(Test::Not(tests)),
        Err(why) => Err(why),
    }
}

fn boxed(alloc: Global, filter: Filter) -> Result<Test, FilterRefused>
    ensures { Gives result (Ok (test.ElemFilter filter)) }
{
    match Boxed::new(alloc, filter) {
        Ok(filter) => Ok(Test::ElemFilter(filter)),
        Err(_) => Err(FilterRefused::NoMemory),
    }
}

fn is_operator(name: &str) -> bool
    ensures { result ≡ is_operator name.now }
{
    operator_named(name).is_some()
}

#[cycle(read)]
#[tactic(auto, using(crate::proofs::Levels::element_is))]
fn read_element(alloc: Global, value: &Value) -> Result<Test, FilterRefused>
    ensures { Gives result (told operator.Element (reads value.now)) }
{
    let Value::Doc(doc) = value else {
        return Err(FilterRefused::Refused(BAD_OPERAND));
    };
    if is_operator(first_name(doc)) {
        return match read_tests(alloc, doc) {
            Ok(tests) => Ok(Test::ElemTests(tests)),
            Err(why) => Err(why),
        };
    }
    match read_fields(alloc, doc) {
        Ok(filter) => boxed(alloc, filter),
        Err(why) => Err(why),
    }
}

#[cycle(read)]
fn read_operator(alloc: Global, operator: Operator, value: &Value) -> Result<Test, FilterRefused>
    ensures { Gives result (told operator (reads value.now)) }
{
    match operator {
        Operator::Value(by) => read_value(alloc, by, value),
        Operator::Values(by) => read_values(alloc, by, value),
        Operator::Count(by) => read_count(by, value),
        Operator::Truth => read_truth(value),
        Operator::Types => read_types(alloc, value),
        Operator::Division => read_division(value),
        Operator::Set => read_not(alloc, value),
        Operator::Element => read_element(alloc, value),
        Operator::LeftOut => Err(FilterRefused::Refused(NOT_SUPPORTED)),
    }
}

/// An operator beside a path.
#[cycle(read)]
#[tactic(auto, using(crate::proofs::Levels::kept))]
fn read_test(alloc: Global, name: &str, value: &Value) -> Result<Test, FilterRefused>
    ensures { Gives result (pair_test (record { name = name.now; value = reads value.now })) }
{
    let Some(operator) = operator_named(name) else {
        return Err(FilterRefused::Refused(UNKNOWN_OPERATOR));
    };
    if is_regex(value) {
        return Err(FilterRefused::Refused(NOT_SUPPORTED));
    }
    read_operator(alloc, operator, value)
}

#[cycle(read)]
fn read_tests(alloc: Global, doc: &Document) -> Result<List<Test>, FilterRefused>
    ensures { Gives result (pairs_tests (map read_field doc.now)) }
{
    let mut all = List::new(alloc);
    for pair in doc.as_slice() {
        let one = read_test(alloc, pair.name.as_str(), &pair.value)?;
        put(&mut all, one)?;
    }
    Ok(all)
}

/// What stands beside a path: a set of operators, or a value to be the same as.
#[cycle(read)]
#[tactic(auto, using(crate::proofs::Levels::operand_is))]
fn read_operand(alloc: Global, value: &Value) -> Result<List<Test>, FilterRefused>
    ensures { Gives result (reads value.now).operand }
{
    match value {
        Value::Doc(doc) => {
            if has_dollar(first_name(doc)) {
                read_tests(alloc, doc)
            } else {
                read_equal(alloc, value)
            }
        }
        Value::Regex(_) => Err(FilterRefused::Refused(NOT_SUPPORTED)),
        _ => read_equal(alloc, value),
    }
}

// ---- filters

#[cycle(read)]
#[tactic(auto, using(crate::proofs::Levels::filter_is))]
fn read_member(alloc: Global, value: &Value) -> Result<Filter, FilterRefused>
    ensures { Gives result (reads value.now).filter }
{
    match value {
        Value::Doc(doc) => read_fields(alloc, doc),
        _ => Err(FilterRefused::Refused(BAD_OPERAND)),
    }
}

#[cycle(read)]
fn read_each(alloc: Global, items: &[Value]) -> Result<List<Filter>, FilterRefused>
    ensures { Gives result (each (λ one. one.filter) (map reads items.now)) }
{
    let mut all = List::new(alloc);
    for item in items {
        let one = read_member(alloc, item)?;
        put(&mut all, one)?;
    }
    Ok(all)
}

#[cycle(read)]
#[tactic(auto, using(crate::proofs::Levels::filters_is))]
fn read_members(alloc: Global, value: &Value) -> Result<List<Filter>, FilterRefused>
    ensures { Gives result (reads value.now).filters }
{
    let Value::Arr(items) = value else {
        return Err(FilterRefused::Refused(BAD_OPERAND));
    };
    if items.len() == 0 {
        return Err(FilterRefused::Refused(BAD_OPERAND));
    }
    read_each(alloc, items.as_slice())
}

#[cycle(read)]
fn read_top_level(
    alloc: Global,
    top_level: TopLevel,
    value: &Value,
    out: &mut List<Filter>,
) -> Result<(), FilterRefused>
    ensures { Adds out.old out.new result (told_top_level top_level (reads value.now)) }
{
    match top_level {
        TopLevel::Filters(by) => match read_members(alloc, value) {
            Ok(all) => put(out, by.filter(all)),
            Err(why) => Err(why),
        },
        TopLevel::Ignored => Ok(()),
        TopLevel::LeftOut => Err(FilterRefused::Refused(NOT_SUPPORTED)),
    }
}

#[cycle(read)]
fn read_at(
    alloc: Global,
    path: &Path,
    value: &Value,
    out: &mut List<Filter>,
) -> Result<(), FilterRefused>
    ensures { Adds out.old out.new result (at_path path.now (reads value.now)) }
{
    match read_operand(alloc, value) {
        Ok(tests) => put_all(alloc, path, tests, out),
        Err(why) => Err(why),
    }
}

/// A field of a filter.
#[cycle(read)]
fn read_field(
    alloc: Global,
    name: &str,
    value: &Value,
    out: &mut List<Filter>,
) -> Result<(), FilterRefused>
    ensures { Adds out.old out.new result (pair_filters (record { name = name.now; value = reads value.now })) }
{
    if has_dollar(name) {
        return match top_level_named(name) {
            Some(top_level) => read_top_level(alloc, top_level, value, out),
            None => Err(FilterRefused::Refused(UNKNOWN_OPERATOR)),
        };
    }
    match read_path(alloc, name) {
        Ok(path) => read_at(alloc, &path, value, out),
        Err(why) => Err(why),
    }
}

#[cycle(read)]
fn read_pairs(alloc: Global, doc: &Document) -> Result<List<Filter>, FilterRefused>
    ensures { Gives result (all_of pair_filters (map read_field doc.now)) }
{
    let mut all = List::new(alloc);
    for pair in doc.as_slice() {
        read_field(alloc, pair.name.as_str(), &pair.value, &mut all)?;
    }
    Ok(all)
}

#[cycle(read)]
fn read_fields(alloc: Global, doc: &Document) -> Result<Filter, FilterRefused>
    ensures { Gives result (pairs_filter (map read_field doc.now)) }
{
    match read_pairs(alloc, doc) {
        Ok(all) => Ok(Filter::All(all)),
        Err(why) => Err(why),
    }
}

impl Filter {
    /// The filter that a document spells: all of its fields.
    pub fn read(alloc: Global, doc: &Document) -> Result<Filter, FilterRefused>
        ensures ok { IfOk result (λ filter. read doc.now ≡ Ok filter) }
        ensures refused { IfErr result (λ why. Fails why (read doc.now)) }
    {
        read_fields(alloc, doc)
    }
}
