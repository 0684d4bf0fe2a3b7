ghost use Rattle.std.specs.Prelude.{◌≡◌, ◌↔◌, [], Contains, Some, None, is_none, unwrap_or, IsSome, IsErr, IfOk, IfErr, OnOk, OnErr};
ghost use Rattle.std.specs.Option.{option_and_then};
ghost use Rattle.outside.specs.declared.keeper.KeepError.TheVariants as refused;
ghost use Rattle.outside.specs.Counts.{raised};
ghost use Rattle.outside.specs.MemoryLink.{IsFreshMemoryLink};
ghost use Rattle.outside.specs.MemoryKeeper.{memory_keeper};

use crate::archive::Archive;
use crate::keeper::KeepError;
use crate::kept::Kept;
use crate::memory_keeper::MemoryKeeper;
use crate::memory_link::MemoryLink;
use crate::supply::Supply;
use crate::world::World;
use bson_values::{List, NoMemory};
use std::alloc::Global;
use std::marker::Model;
use std::mem::replace;

/// The numbers, from 0, of the calls that fail.
#[derive(Drop)]
pub struct Bad {
    pub keeps: List<u64>,
    /// Of the first keeper that the world gives.
    pub applies: List<u64>,
}

/// A world in memory, whose calls fail as it was told.
///
/// It gives its tables once; a keeper that it gives after that has none. A number of calls stands still at the end of a u64.
#[derive(Drop)]
pub struct MemoryWorld {
    supply: Supply<MemoryLink>,
    bad: Bad,
    keeps: u64,
    keep_faults: u64,
}

impl Model for MemoryWorld {
    ghost use Rattle.outside.specs.Worlds.{MemoryWorldState};

    ghost Value = { MemoryWorldState };

    ghost view = { λ it. record {
      console = it.supply.0;
      tables = it.supply.1;
      bad_keeps = it.bad.keeps;
      bad_applies = it.bad.applies;
      keeps = it.keeps;
      keep_faults = it.keep_faults;
    } };
}

impl MemoryWorld {
    pub fn new(
        alloc: Global,
        console: MemoryLink,
        tables: Kept,
        bad: Bad,
    ) -> Result<MemoryWorld, NoMemory>
        requires { IsFreshMemoryLink console }
        ensures { IfOk result (λ made. made ≡ record {
          console = Some console;
          tables = Some tables.tables;
          bad_keeps = bad.keeps;
          bad_applies = bad.applies;
          keeps = 0;
          keep_faults = 0;
        }) }
    {
        let archive = Archive::of(alloc, tables)?;
        Ok(MemoryWorld {
            supply: Supply::new(console, archive),
            bad,
            keeps: 0,
            keep_faults: 0,
        })
    }
}

impl World for MemoryWorld {
    type Console = MemoryLink;

    type Keeper = MemoryKeeper;

    ghost is_given = { λ world. is_none world.console };

    ghost input = { λ world. option_and_then (λ link. Some link.source.left) world.console };

    ghost tables = { λ world. world.tables };

    ghost keep_faults = { λ world. world.keep_faults };

    fn console(&mut self) -> MemoryLink
        requires { IsSome self.old.console }
        ensures given { self.old.console ≡ Some result }
        ensures rest { self.new ≡ record self.old { console = None } }
        ensures fresh { IsFreshMemoryLink result }
    {
        self.supply.console()
    }

    fn keep(&mut self, alloc: Global, _path: Option<&str>) -> Result<MemoryKeeper, KeepError>
        ensures fails { IsErr result ↔ Contains self.old.bad_keeps self.old.keeps }
        ensures keeper { IfOk result (λ keeper. keeper
            ≡ memory_keeper (unwrap_or self.old.tables []) self.old.bad_applies) }
        ensures ok { OnOk result (self.new ≡ record self.old {
          tables = None;
          bad_applies = [];
          keeps = raised self.old.keeps;
        }) }
        ensures refused { IfErr result (λ refusal. refusal ≡ refused.Failed) }
        ensures err { OnErr result (self.new ≡ record self.old {
          keeps = raised self.old.keeps;
          keep_faults = raised self.old.keep_faults;
        }) }
    {
        let fails = self.bad.keeps.as_slice().contains(&self.keeps);
        self.keeps = self.keeps.saturating_add(1);
        if fails {
            self.keep_faults = self.keep_faults.saturating_add(1);
            return Err(KeepError::Failed);
        }
        let bad_applies = replace(&mut self.bad.applies, List::new(alloc));
        Ok(MemoryKeeper::over(self.supply.archive(alloc), bad_applies))
    }
}
