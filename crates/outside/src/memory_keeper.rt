ghost use Rattle.std.specs.Prelude.{◌≡◌, ◌↔◌, Contains, Err, Some, IfOk, IfErr, OnOk};
ghost use Rattle.outside.specs.declared.keeper.KeepError.TheVariants as refused;
ghost use Rattle.outside.specs.Changes.{all_changed};
ghost use Rattle.outside.specs.Counts.{raised};
ghost use Rattle.outside.specs.MemoryKeeper.{memory_keeper, faults_after};

use crate::archive::Archive;
use crate::keeper::{KeepError, Keeper};
use crate::kept::{Change, Kept};
use bson_values::{List, NoMemory};
use std::alloc::Global;
use std::marker::Model;

/// A keeper in memory, whose applies fail as it was told.
///
/// A number of calls stands still at the end of a u64.
#[derive(Drop)]
pub struct MemoryKeeper {
    archive: Archive,
    bad_applies: List<u64>,
    applies: u64,
    faults: u64,
}

impl Model for MemoryKeeper {
    ghost use Rattle.outside.specs.MemoryKeeper.{MemoryKeeperState};

    ghost Value = { MemoryKeeperState };

    ghost view = { λ it. record {
      tables = it.archive;
      bad_applies = it.bad_applies;
      applies = it.applies;
      faults = it.faults;
    } };
}

impl MemoryKeeper {
    /// `bad_applies` are the numbers, from 0, of the applies that fail.
    pub fn new(
        alloc: Global,
        tables: Kept,
        bad_applies: List<u64>,
    ) -> Result<MemoryKeeper, NoMemory>
        ensures { IfOk result (λ made. made ≡ memory_keeper tables.tables bad_applies) }
    {
        let archive = Archive::of(alloc, tables)?;
        Ok(MemoryKeeper::over(archive, bad_applies))
    }

    pub(crate) fn over(archive: Archive, bad_applies: List<u64>) -> MemoryKeeper
        ensures { result ≡ memory_keeper archive bad_applies }
    {
        MemoryKeeper {
            archive,
            bad_applies,
            applies: 0,
            faults: 0,
        }
    }

    /// How many applies failed.
    pub fn faults(&self) -> u64
        ensures { result ≡ self.now.faults }
    {
        self.faults
    }
}

impl Keeper for MemoryKeeper {
    ghost told = { λ keeper. Some keeper.tables };

    ghost faults = { λ keeper. keeper.faults };

    fn load(&mut self, alloc: Global) -> Result<Kept, KeepError>
        ensures tables { IfOk result (λ kept. kept.tables ≡ self.old.tables) }
        ensures err { IfErr result (λ refusal. refusal ≡ refused.NoMemory) }
        ensures keeps { self.new ≡ self.old }
    {
        Ok(self.archive.copy(alloc)?)
    }

    fn apply(&mut self, changes: &[Change]) -> Result<(), KeepError>
        ensures fails { (result ≡ Err refused.Failed) ↔ Contains self.old.bad_applies self.old.applies }
        ensures ok { OnOk result (self.new ≡ record self.old {
          tables = all_changed changes.now self.old.tables;
          applies = raised self.old.applies;
        }) }
        ensures err { IfErr result (λ refusal. self.new ≡ record self.old {
          applies = raised self.old.applies;
          faults = faults_after refusal self.old.faults;
        }) }
    {
        let fails = self.bad_applies.as_slice().contains(&self.applies);
        self.applies = self.applies.saturating_add(1);
        if fails {
            self.faults = self.faults.saturating_add(1);
            return Err(KeepError::Failed);
        }
        self.archive.apply(changes)?;
        Ok(())
    }
}
