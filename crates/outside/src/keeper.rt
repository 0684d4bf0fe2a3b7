ghost use Rattle.std.specs.Prelude.{◌≡◌, ℕ, List, Option, IfOk};
ghost use Rattle.outside.specs.Told.{Tells};
ghost use Rattle.outside.specs.Causes.{HasCause, failure_of};
ghost use Rattle.outside.specs.declared.keeper.KeepError.TheVariants as refused;

use crate::kept::{Change, Kept};
use bson_values::NoMemory;
use std::alloc::Global;
use thiserror::Error;

/// Why a keeper did not do what it was asked. It changed nothing then.
#[derive(Clone, Copy, Debug, PartialEq, Eq, Error)]
pub enum KeepError {
    /// A call of the outside failed.
    #[error("the keeper failed")]
    Failed,
    #[error("memory ran out")]
    NoMemory,
}

impl From<NoMemory> for KeepError {
    ghost from_gives = { λ _ it. it ≡ refused.NoMemory };

    fn from(_refused: NoMemory) -> KeepError {
        KeepError::NoMemory
    }
}

/// What a store writes its tables through to.
pub trait Keeper {
    ghost use Rattle.outside.specs.declared.kept.KeptTable.{KeptTable};
    ghost use Rattle.outside.specs.Changes.{Goes};

    /// The tables that it keeps, where they are told.
    ghost told: { Self → Option (List KeptTable) };

    /// How many calls failed. The count stands still at the end of a u64.
    ghost faults: { Self → ℕ };

    /// All tables.
    fn load(&mut self, alloc: Global) -> Result<Kept, KeepError>
        ensures tables { IfOk result (λ kept. Tells (told self.old) kept.tables) }
        ensures told { told self.new ≡ told self.old }
        ensures cause { HasCause (faults self.old) (faults self.new) (failure_of result) };

    /// Makes all changes, in order, or none of them.
    fn apply(&mut self, changes: &[Change]) -> Result<(), KeepError>
        ensures told { Goes (told self.old) (told self.new) changes.now result }
        ensures cause { HasCause (faults self.old) (faults self.new) (failure_of result) };
}
