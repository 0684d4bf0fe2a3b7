ghost use Rattle.std.specs.Prelude.{◌≡◌, IfErr, IfOk, Ok};
ghost use Rattle.bson_values.specs.declared.value.Value.{out-Value};
ghost use Rattle.filter_syntax.specs.Operands.{is_regex};
ghost use Rattle.update_apply.specs.Answers.{Changes, Fails};
ghost use Rattle.update_apply.specs.Seeds.{each_seeded, equal_put, seed, seeded};

use crate::putting::set_copy;
use crate::refused::ApplyRefused;
use bson_values::{Document, Value};
use doc_paths::Path;
use filter_syntax::{Filter, Test};
use std::alloc::Global;

fn is_regex(value: &Value) -> bool
    ensures { result ≡ is_regex (out-Value value.now) }
{
    matches!(value, Value::Regex(_))
}

#[tactic(auto, using(crate::proofs::Seeding::equal_is))]
fn put_equality(
    alloc: Global,
    path: &Path,
    test: &Test,
    doc: &mut Document,
) -> Result<(), ApplyRefused>
    ensures { Changes result (equal_put test.now path.now doc.old) doc.new }
{
    let Test::Eq(it) = test else {
        return Ok(());
    };
    if is_regex(it) {
        return Ok(());
    }
    set_copy(alloc, doc, path, it)
}

#[cycle(seed)]
#[tactic(auto, using(crate::proofs::Seeding::by_variant))]
fn put_filter(alloc: Global, filter: &Filter, doc: &mut Document) -> Result<(), ApplyRefused>
    ensures { Changes result (seeded filter.now doc.old) doc.new }
{
    match filter {
        Filter::All(filters) => put_each(alloc, filters.as_slice(), doc),
        Filter::AnyOf(_) => Ok(()),
        Filter::NoneOf(_) => Ok(()),
        Filter::On(path, test) => put_equality(alloc, path, test, doc),
    }
}

#[cycle(seed)]
fn put_each(alloc: Global, filters: &[Filter], doc: &mut Document) -> Result<(), ApplyRefused>
    ensures { Changes result (each_seeded filters.now doc.old) doc.new }
{
    for filter in filters {
        put_filter(alloc, filter, doc)?;
    }
    Ok(())
}

/// The document with which an upsert begins: the equalities of its filter, and of the members of a `$and` that stands there, put in order.
/// The update is applied to it next, with `inserting`. It is refused where an equality cannot be put: `PATH_NOT_VIABLE` or `BAD_OPERAND`.
pub fn seed(alloc: Global, filter: &Filter) -> Result<Document, ApplyRefused>
    ensures ok { IfOk result (λ doc. seed filter.now ≡ Ok doc) }
    ensures refused { IfErr result (λ why. Fails why (seed filter.now)) }
{
    let mut doc = Document::new(alloc);
    put_filter(alloc, filter, &mut doc)?;
    Ok(doc)
}
