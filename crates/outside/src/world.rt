ghost use Rattle.std.specs.Prelude.{◌≡◌, ℕ, List, Option, Bool, true, false, IfOk, OnErr};
ghost use Rattle.outside.specs.Told.{IsFresh, TellsAll};
ghost use Rattle.outside.specs.Causes.{HasCause, failure_of};

use crate::keeper::{KeepError, Keeper};
use crate::link::Link;
use std::alloc::Global;

/// What a program is given of the outside.
pub trait World {
    ghost use Rattle.outside.specs.declared.kept.KeptTable.{KeptTable};

    type Console: Link;

    type Keeper: Keeper;

    /// Whether the console was given.
    ghost is_given: { Self → Bool };

    /// The console's input, where it is told.
    ghost input: { Self → Option (List ℕ) };

    /// The tables that are kept, where they are told, until a keeper was given.
    ghost tables: { Self → Option (List KeptTable) };

    /// How many calls of `keep` failed. The count stands still at the end of a u64.
    ghost keep_faults: { Self → ℕ };

    /// The standard streams as a link, once.
    fn console(&mut self) -> Self::Console
        requires { is_given self.old ≡ false }
        ensures given { is_given self.new ≡ true }
        ensures input { Self.Console.left result ≡ input self.old }
        ensures fresh { IsFresh (Self.Console.taken result) (Self.Console.written result)
            (Self.Console.moments result) (Self.Console.read_faults result) (Self.Console.write_faults result) }
        ensures tables { tables self.new ≡ tables self.old }
        ensures keep_faults { keep_faults self.new ≡ keep_faults self.old };

    /// What keeps the tables: the file at that path, or memory where there is none.
    fn keep(&mut self, alloc: Global, path: Option<&str>) -> Result<Self::Keeper, KeepError>
        ensures told { IfOk result (λ keeper. TellsAll (tables self.old) (Self.Keeper.told keeper)) }
        ensures fresh { IfOk result (λ keeper. Self.Keeper.faults keeper ≡ 0) }
        ensures cause { HasCause (keep_faults self.old) (keep_faults self.new) (failure_of result) }
        ensures still { TellsAll (tables self.new) (tables self.old) }
        ensures refused { OnErr result (tables self.new ≡ tables self.old) }
        ensures given { is_given self.new ≡ is_given self.old }
        ensures input { input self.new ≡ input self.old };
}
