ghost use Rattle.std.specs.Prelude.{◌≡◌, ◌++◌, ◌∷◌, [], IfOk, IfSome, OnOk};
ghost use Rattle.table_rows.specs.Kept.{placed};
ghost use Rattle.table_rows.specs.Naming.{Names, NamesOne};
ghost use Rattle.table_rows.specs.Rows.{selected};

use crate::body::{Body, row_of};
use crate::row::Row;
use bson_values::{Bytes, List, NoMemory};
use jsonb_contain::{Cond, meets};
use keyed_rows::{Entry, Keyed};
use std::alloc::Global;

/// The key that a condition asks for, alone or beside others.
pub(crate) fn named_key(cond: &Cond) -> Option<&Bytes>
    ensures { IfSome result (λ key. Names key.now cond.now) }
{
    match cond {
        Cond::KeyIs(key) => Some(key),
        Cond::All(conds) => first_key(conds.as_slice()),
        _ => None,
    }
}

fn first_key(conds: &[Cond]) -> Option<&Bytes>
    ensures { IfSome result (λ key. NamesOne key.now conds.now) }
{
    for cond in conds {
        if let Cond::KeyIs(key) = cond {
            return Some(key);
        }
    }
    None
}

/// Adds the row, if it meets the condition.
fn add_if_met(
    alloc: Global,
    cond: &Cond,
    kept: &Entry<Body>,
    chosen: &mut List<Row>,
) -> Result<(), NoMemory>
    ensures { OnOk result (chosen.new ≡ chosen.old ++ selected cond.now (placed (kept.now ∷ []))) }
{
    if meets(cond, &kept.key, kept.value.json.get()) {
        let row = row_of(alloc, kept)?;
        chosen.add(row)?;
    }
    Ok(())
}

/// All rows that meet the condition, whose JSON and text are shared.
pub(crate) fn select_all(
    alloc: Global,
    cond: &Cond,
    rows: &Keyed<Body>,
) -> Result<List<Row>, NoMemory>
    ensures { IfOk result (λ chosen. chosen ≡ selected cond.now (placed rows.now)) }
{
    let mut chosen = List::new(alloc);
    for kept in rows.iter() {
        add_if_met(alloc, cond, kept, &mut chosen)?;
    }
    Ok(chosen)
}

/// The same, where the condition names a key.
pub(crate) fn select_at(
    alloc: Global,
    cond: &Cond,
    rows: &Keyed<Body>,
    key: &Bytes,
) -> Result<List<Row>, NoMemory>
    requires { Names key.now cond.now }
    ensures { IfOk result (λ chosen. chosen ≡ selected cond.now (placed rows.now)) }
{
    match rows.get(key) {
        Some(kept) => {
            let mut chosen = List::new(alloc);
            add_if_met(alloc, cond, kept, &mut chosen)?;
            Ok(chosen)
        }
        None => Ok(List::new(alloc)),
    }
}
