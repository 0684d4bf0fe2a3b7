ghost use Rattle.std.specs.Prelude.{◌≡◌, length, IfOk, IfErr, IfSome, OnOk};
ghost use Rattle.std.specs.List.{list_any};
ghost use Rattle.bson_values.specs.Names.{same_space};
ghost use Rattle.table_store.specs.Found.{all_shown};
ghost use Rattle.outside.specs.Causes.{HasCause};
ghost use Rattle.table_store.specs.Loading.{IsLoaded, Refuses, RefusesTold, failure_of, keeper_of, may_name, may_number};
ghost use Rattle.table_store.specs.LoadingSteps.{AddsTable, RefusesTable, may_be_next, spaces_of};

use crate::kept_rows::load_rows;
use crate::live::{LAST_NUMBER, Live, LiveTables, MOST_TABLES};
use crate::load_refused::LoadRefused;
use crate::tables::Tables;
use bson_values::{List, Space};
use naming::is_valid;
use outside::{KeepError, Keeper, KeptTable};
use std::alloc::Global;

/// The tables that were loaded so far, the least number that the next may have, and that above all numbers and places.
#[derive(Drop)]
pub(crate) struct Loading {
    pub(crate) live: Vec<Live>,
    pub(crate) least: u64,
    pub(crate) next: u64,
}

/// Whether one of the tables is of the space.
fn has_space(space: &Space, live: &[Live]) -> bool
    ensures { result ≡ list_any (λ kept. same_space space.now kept.space) live.now }
{
    live.iter().any(|kept| space.is(&kept.space))
}

/// Whether the space may be that of one more table.
fn may_name(live: &[Live], space: &Space) -> bool
    ensures { result ≡ may_name (spaces_of live.now) space.now }
{
    is_valid(space) && !has_space(space, live)
}

/// Whether one more table may have the number.
fn may_number(so_far: &Loading, number: u64) -> bool
    ensures { result ≡ may_number (length so_far.now.live.items) so_far.now.least number }
{
    so_far.live.len() < MOST_TABLES && so_far.least <= number && number <= LAST_NUMBER
}

/// Whether a table may be the next one.
fn may_be_next(so_far: &Loading, kept: &KeptTable) -> bool
    ensures { result ≡ may_be_next so_far.now kept.now }
{
    may_number(so_far, kept.number) && may_name(&so_far.live, &kept.space)
}

/// Adds a kept table last.
fn add_table(alloc: Global, so_far: &mut Loading, kept: KeptTable) -> Result<(), LoadRefused>
    ensures ok { OnOk result (AddsTable kept so_far.old so_far.new) }
    ensures err { IfErr result (RefusesTable so_far.old kept) }
{
    if !may_be_next(so_far, &kept) {
        return Err(LoadRefused::BadKept {
            table: kept.number,
            place: 0,
        });
    }
    let KeptTable {
        number,
        space,
        rows,
    } = kept;
    let (table, above) = load_rows(alloc, number, rows)?;
    match so_far.live.push(Live { space, table }) {
        Ok(()) => {}
        Err(_) => return Err(LoadRefused::NoMemory),
    }
    so_far.least = number + 1;
    so_far.next = so_far.next.max(number + 1).max(above);
    Ok(())
}

/// All kept tables.
fn load_tables(alloc: Global, tables: List<KeptTable>) -> Result<Loading, LoadRefused>
    ensures ok { IfOk result (λ it. IsLoaded tables (record { live = all_shown it.live.items; next = it.next })) }
    ensures err { IfErr result (Refuses tables) }
{
    let mut so_far = Loading {
        live: Vec::new(alloc),
        least: 1,
        next: 1,
    };
    for table in tables.into_vec() {
        add_table(alloc, &mut so_far, table)?;
    }
    Ok(so_far)
}

impl<K: Keeper> Tables<K> {
    /// The tables that a keeper has, which write through to it from now on. A refusal hands the keeper back, with what it keeps
    /// unchanged.
    pub fn load(alloc: Global, mut keeper: K) -> Result<Tables<K>, (LoadRefused, K)>
        ensures loaded { IfOk result (λ tables. IfSome (K.told keeper) (λ kept. IsLoaded kept tables.state)) }
        ensures refused { IfErr result (λ it. RefusesTold (K.told keeper) it.0) }
        ensures told { K.told (keeper_of result) ≡ K.told keeper }
        ensures cause { HasCause (K.faults keeper) (K.faults (keeper_of result)) (failure_of result) }
    {
        match keeper.load(alloc) {
            Ok(kept) => match load_tables(alloc, kept.tables) {
                Ok(Loading { live, next, .. }) => Ok(Tables {
                    tables: LiveTables {
                        live,
                        next,
                        keeper,
                        alloc,
                    },
                }),
                Err(refused) => Err((refused, keeper)),
            },
            Err(KeepError::Failed) => Err((LoadRefused::KeeperFault, keeper)),
            Err(KeepError::NoMemory) => Err((LoadRefused::NoMemory, keeper)),
        }
    }
}
