//! Scripts: what tables reply, one call after another.

use super::asks::{Ask, call_of, told};
use super::kept::{Sample, keeps, kept};
use history_lock::Object;
use outside::{Keeper, SureKeeper};
use std::alloc::Global;
use table_store::Tables;

/// A call, with the words of its reply.
pub type Line = (Ask, &'static str);

/// Whether the call is replied so.
fn is_told<K: Keeper + Drop>(alloc: Global, tables: &mut Tables<K>, (ask, wanted): &Line) -> bool {
    match call_of(alloc, ask) {
        Some(call) => {
            let reply = tables.run(call);
            told(alloc, &reply).as_str() == *wanted
        }
        None => false,
    }
}

/// The first call that is replied otherwise.
pub fn first_wrong<K: Keeper + Drop>(
    alloc: Global,
    tables: &mut Tables<K>,
    script: &[Line],
) -> Option<usize> {
    for (place, line) in script.iter().enumerate() {
        if !is_told(alloc, tables, line) {
            return Some(place);
        }
    }
    None
}

fn sure_keeper(alloc: Global, samples: &[Sample]) -> Option<SureKeeper> {
    let kept = kept(alloc, samples)?;
    SureKeeper::new(alloc, kept).ok()
}

pub fn sure_tables(alloc: Global, samples: &[Sample]) -> Option<Tables<SureKeeper>> {
    let keeper = sure_keeper(alloc, samples)?;
    Tables::load(alloc, keeper).ok()
}

/// Whether the tables' keeper has these.
pub fn are_kept(alloc: Global, tables: Tables<SureKeeper>, samples: &[Sample]) -> bool {
    let mut keeper = tables.keeper();
    keeps(alloc, &mut keeper, samples)
}

/// The first call that tables of these samples reply otherwise; at the end, that their keeper has other samples than wanted.
pub fn wrong_from(
    alloc: Global,
    samples: &[Sample],
    script: &[Line],
    wanted: &[Sample],
) -> Option<usize> {
    let Some(mut tables) = sure_tables(alloc, samples) else {
        return Some(0);
    };
    let wrong = first_wrong(alloc, &mut tables, script);
    let kept = are_kept(alloc, tables, wanted);
    if wrong.is_none() && !kept {
        return Some(script.len());
    }
    wrong
}
