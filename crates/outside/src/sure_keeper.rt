ghost use Rattle.std.specs.Prelude.{◌≡◌, Some, IfOk, IfErr, OnOk, OnErr};
ghost use Rattle.outside.specs.declared.keeper.KeepError.TheVariants as refused;
ghost use Rattle.outside.specs.Changes.{all_changed};

use crate::archive::Archive;
use crate::keeper::{KeepError, Keeper};
use crate::kept::{Change, Kept};
use bson_values::NoMemory;
use std::alloc::Global;
use std::marker::Model;

/// A keeper in memory that never fails. Contracts see its tables.
#[derive(Drop)]
pub struct SureKeeper {
    archive: Archive,
}

impl Model for SureKeeper {
    ghost use Rattle.std.specs.Prelude.{List};
    ghost use Rattle.outside.specs.declared.kept.KeptTable.{KeptTable};

    ghost Value = { List KeptTable };

    ghost view = { λ it. it.archive };
}

impl SureKeeper {
    pub fn new(alloc: Global, tables: Kept) -> Result<SureKeeper, NoMemory>
        ensures { IfOk result (λ made. made ≡ tables.tables) }
    {
        let archive = Archive::of(alloc, tables)?;
        Ok(SureKeeper::over(archive))
    }

    pub(crate) fn over(archive: Archive) -> SureKeeper
        ensures { result ≡ archive }
    {
        SureKeeper { archive }
    }
}

impl Keeper for SureKeeper {
    ghost told = { λ tables. Some tables };

    ghost faults = { λ tables. 0 };

    fn load(&mut self, alloc: Global) -> Result<Kept, KeepError>
        ensures tables { IfOk result (λ kept. kept.tables ≡ self.old) }
        ensures err { IfErr result (λ refusal. refusal ≡ refused.NoMemory) }
        ensures keeps { self.new ≡ self.old }
    {
        Ok(self.archive.copy(alloc)?)
    }

    fn apply(&mut self, changes: &[Change]) -> Result<(), KeepError>
        ensures ok { OnOk result (self.new ≡ all_changed changes.now self.old) }
        ensures err { IfErr result (λ refusal. refusal ≡ refused.NoMemory) }
        ensures keeps { OnErr result (self.new ≡ self.old) }
    {
        self.archive.apply(changes)?;
        Ok(())
    }
}
