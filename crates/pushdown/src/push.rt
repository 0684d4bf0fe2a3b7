ghost use Rattle.std.specs.Prelude.{◌≡◌, ◌++◌, OnOk, IfOk};
ghost use Rattle.std.specs.List.{flat_map};
ghost use Rattle.pushdown.specs.Pushed.{cond, conjuncts, pushes};

use crate::term::{is_pushed, push_conjunct};
use bson_values::{List, NoMemory};
use doc_paths::Path;
use filter_syntax::{Filter, Test};
use jsonb_contain::Cond;
use std::alloc::Global;

#[tactic(auto, using(crate::proofs::Conjuncts::pushes_is))]
fn push_test(alloc: Global, path: &Path, test: &Test, out: &mut List<Cond>) -> Result<(), NoMemory>
    ensures { OnOk result (out.new ≡ out.old ++ pushes test.now path.now) }
{
    let Some((part, rest)) = path.parts().split_first() else {
        return Ok(());
    };
    if !is_pushed(part, rest, test) {
        return Ok(());
    }
    push_conjunct(alloc, part, rest, test, out)
}

#[cycle(push)]
#[tactic(auto, using(crate::proofs::Conjuncts::by_variant))]
fn push_filter(alloc: Global, filter: &Filter, out: &mut List<Cond>) -> Result<(), NoMemory>
    ensures { OnOk result (out.new ≡ out.old ++ conjuncts filter.now) }
{
    match filter {
        Filter::All(filters) => push_all(alloc, filters.as_slice(), out),
        Filter::AnyOf(_) => Ok(()),
        Filter::NoneOf(_) => Ok(()),
        Filter::On(path, test) => push_test(alloc, path, test, out),
    }
}

#[cycle(push)]
fn push_all(alloc: Global, filters: &[Filter], out: &mut List<Cond>) -> Result<(), NoMemory>
    ensures { OnOk result (out.new ≡ out.old ++ flat_map conjuncts filters.now) }
{
    for filter in filters {
        push_filter(alloc, filter, out)?;
    }
    Ok(())
}

/// The condition that each row meets whose document the filter holds of, by `a_filter_implies_its_condition`: one conjunct for each
/// equality, and each `$in`, of plain values, in the filter and in what it holds by `$and`. A row that meets it need not match.
pub fn cond_of(alloc: Global, filter: &Filter) -> Result<Cond, NoMemory>
    ensures { IfOk result (λ found. found ≡ cond filter.now) }
{
    let mut all = List::new(alloc);
    push_filter(alloc, filter, &mut all)?;
    Ok(Cond::All(all))
}
