ghost use Rattle.std.specs.Prelude.{◌≡◌, [], Some, None, is_none, unwrap_or, IsSome, IfOk, IsOkAnd};
ghost use Rattle.std.specs.Option.{option_and_then};
ghost use Rattle.outside.specs.SureLink.{IsFreshSureLink};

use crate::archive::Archive;
use crate::keeper::KeepError;
use crate::kept::Kept;
use crate::supply::Supply;
use crate::sure_keeper::SureKeeper;
use crate::sure_link::SureLink;
use crate::world::World;
use bson_values::NoMemory;
use std::alloc::Global;
use std::marker::Model;

/// A world in memory that never fails.
///
/// It gives its tables once; a keeper that it gives after that has none.
#[derive(Drop)]
pub struct SureWorld {
    supply: Supply<SureLink>,
}

impl Model for SureWorld {
    ghost use Rattle.outside.specs.Worlds.{SureWorldState};

    ghost Value = { SureWorldState };

    ghost view = { λ it. record { console = it.supply.0; tables = it.supply.1 } };
}

impl SureWorld {
    pub fn new(alloc: Global, console: SureLink, tables: Kept) -> Result<SureWorld, NoMemory>
        requires { IsFreshSureLink console }
        ensures { IfOk result (λ made. made ≡ record { console = Some console; tables = Some tables.tables }) }
    {
        let archive = Archive::of(alloc, tables)?;
        Ok(SureWorld {
            supply: Supply::new(console, archive),
        })
    }
}

impl World for SureWorld {
    type Console = SureLink;

    type Keeper = SureKeeper;

    ghost is_given = { λ world. is_none world.console };

    ghost input = { λ world. option_and_then (λ link. Some link.source.left) world.console };

    ghost tables = { λ world. world.tables };

    ghost keep_faults = { λ world. 0 };

    fn console(&mut self) -> SureLink
        requires { IsSome self.old.console }
        ensures given { self.old.console ≡ Some result }
        ensures rest { self.new ≡ record self.old { console = None } }
        ensures fresh { IsFreshSureLink result }
    {
        self.supply.console()
    }

    fn keep(&mut self, alloc: Global, _path: Option<&str>) -> Result<SureKeeper, KeepError>
        ensures keeper { IsOkAnd result (λ keeper. keeper ≡ unwrap_or self.old.tables []) }
        ensures rest { self.new ≡ record self.old { tables = None } }
    {
        Ok(SureKeeper::over(self.supply.archive(alloc)))
    }
}
