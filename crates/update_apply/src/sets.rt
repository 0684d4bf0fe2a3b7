ghost use Rattle.std.specs.Prelude.{◌≡◌, ◌∷◌, ◌++◌, [], Some, refl, OnOk, IfOk, if◌then◌else◌};
ghost use Rattle.std.specs.Cmp.{eq_by_cmp_equiv, partial_equiv_from_equiv, partial_order_from_total};
ghost use Rattle.std.specs.Ordering.{as_partial_cmp, eq_by_cmp};
ghost use Rattle.update_apply.specs.Ranks.{Notes, Tells, noted, ranked_cmp, ranked_total};
ghost use Rattle.update_syntax.specs.After.{stands_in, with_each, without_any};

use bson_order::compare;
use bson_values::{List, NoMemory, Value};
use std::alloc::Global;
use std::cmp::Ordering;
use std::collections::BTreeSet;

/// A value as a key, which is another's where the two are the same.
#[derive(Clone, Copy)]
struct Ranked<'a> {
    value: &'a Value,
}

impl<'a> PartialEq for Ranked<'a> {
    ghost eq = { eq_by_cmp ranked_cmp };

    ghost laws = { partial_equiv_from_equiv (eq_by_cmp_equiv ranked_total) };

    fn eq(&self, other: &Ranked<'a>) -> bool {
        compare(self.value, other.value) == Ordering::Equal
    }
}

impl<'a> Eq for Ranked<'a> {
    ghost laws = { eq_by_cmp_equiv ranked_total };
}

impl<'a> PartialOrd for Ranked<'a> {
    ghost partial_cmp = { as_partial_cmp ranked_cmp };

    ghost laws = { partial_order_from_total ranked_total };

    fn partial_cmp(&self, other: &Ranked<'a>) -> Option<Ordering> {
        Some(compare(self.value, other.value))
    }
}

impl<'a> Ord for Ranked<'a> {
    ghost cmp = { ranked_cmp };

    ghost total = { ranked_total };

    ghost matches_partial_cmp = { λ x y. refl };

    ghost matches_eq = { λ x y. refl };

    fn cmp(&self, other: &Ranked<'a>) -> Ordering {
        compare(self.value, other.value)
    }
}

fn has<'a>(seen: &BTreeSet<Ranked<'a>>, it: &'a Value) -> bool
    ensures { result ≡ noted seen.now it.now }
{
    seen.contains(&Ranked { value: it })
}

fn note<'a>(seen: &mut BTreeSet<Ranked<'a>>, it: &'a Value) -> Result<(), NoMemory>
    ensures { OnOk result (Notes it.now seen.old seen.new) }
{
    match seen.insert(Ranked { value: it }) {
        Ok(_) => Ok(()),
        Err(_) => Err(NoMemory),
    }
}

fn seen_of<'a>(alloc: Global, values: &'a [Value]) -> Result<BTreeSet<Ranked<'a>>, NoMemory>
    ensures { IfOk result (λ seen. Tells seen values.now) }
{
    let mut seen = BTreeSet::new(alloc);
    for value in values {
        note(&mut seen, value)?;
    }
    Ok(seen)
}

fn copied(alloc: Global, items: &[Value]) -> Result<List<Value>, NoMemory>
    ensures { IfOk result (λ all. all ≡ items.now) }
{
    let mut all = List::new(alloc);
    for it in items {
        let it = it.copy(alloc)?;
        all.add(it)?;
    }
    Ok(all)
}

fn add_new<'a>(
    alloc: Global,
    it: &'a Value,
    seen: &mut BTreeSet<Ranked<'a>>,
    all: &mut List<Value>,
) -> Result<(), NoMemory>
    requires { Tells seen.old all.old }
    ensures tells { OnOk result (Tells seen.new all.new) }
    ensures all { OnOk result (all.new ≡ (if stands_in all.old it.now then all.old else all.old ++ it.now ∷ [])) }
{
    if has(seen, it) {
        return Ok(());
    }
    note(seen, it)?;
    let it = it.copy(alloc)?;
    all.add(it)
}

/// Copies of all items, and of each of the others that is the same as none so far. Each is looked up among all before it.
pub(crate) fn with_each(
    alloc: Global,
    items: &[Value],
    more: &[Value],
) -> Result<List<Value>, NoMemory>
    ensures { IfOk result (λ all. all ≡ with_each items.now more.now) }
{
    let mut seen = seen_of(alloc, items)?;
    let mut all = copied(alloc, items)?;
    for it in more {
        add_new(alloc, it, &mut seen, &mut all)?;
    }
    Ok(all)
}

/// Copies of the items that are the same as none of the values. Each is looked up among these.
#[tactic(auto, unfolding(update_syntax::specs::After::without_any))]
pub(crate) fn without_any(
    alloc: Global,
    values: &[Value],
    items: &[Value],
) -> Result<List<Value>, NoMemory>
    ensures { IfOk result (λ left. left ≡ without_any values.now items.now) }
{
    let seen = seen_of(alloc, values)?;
    let mut left = List::new(alloc);
    for item in items {
        if !has(&seen, item) {
            let item = item.copy(alloc)?;
            left.add(item)?;
        }
    }
    Ok(left)
}
