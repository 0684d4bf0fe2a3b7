ghost use Rattle.std.specs.Prelude.{◌≡◌, ◌^◌, ◌-◌, length, min};
ghost use Rattle.std.specs.List.{flat_map};
ghost use Rattle.pushdown.specs.Pushed.{conjuncts, pushes};

use crate::term::is_pushed;
use doc_paths::Path;
use filter_syntax::{Filter, Test};

#[tactic(auto, using(crate::proofs::Conjuncts::pushes_is))]
fn pushed_by_test(path: &Path, test: &Test) -> u64
    ensures { result ≡ length (pushes test.now path.now) }
{
    let Some((part, rest)) = path.parts().split_first() else {
        return 0;
    };
    if !is_pushed(part, rest, test) {
        return 0;
    }
    match test {
        Test::Eq(_) => 1,
        Test::OneOf(_) => 1,
        _ => 0,
    }
}

/// How many conjuncts the condition has that the filter pushes down; 2^64 - 1 where there are more.
#[cycle(count)]
#[tactic(auto, using(crate::proofs::Conjuncts::by_variant))]
pub fn pushed(filter: &Filter) -> u64
    ensures { result ≡ min (length (conjuncts filter.now)) (2 ^ 64 - 1) }
{
    match filter {
        Filter::All(filters) => pushed_by_all(filters.as_slice()),
        Filter::AnyOf(_) => 0,
        Filter::NoneOf(_) => 0,
        Filter::On(path, test) => pushed_by_test(path, test),
    }
}

#[cycle(count)]
fn pushed_by_all(filters: &[Filter]) -> u64
    ensures { result ≡ min (length (flat_map conjuncts filters.now)) (2 ^ 64 - 1) }
{
    let mut count = 0u64;
    for filter in filters {
        count = count.saturating_add(pushed(filter));
    }
    count
}
