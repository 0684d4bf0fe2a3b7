use bson_values::NoMemory;
use case_tables::Kind;

/// Why no update comes of a value.
#[derive(Clone, Copy, Debug, PartialEq, Eq)]
pub enum UpdateRefused {
    /// `BAD_UPDATE` where it has the form of no update. Else the kind of the first thing in it that no update has; `PATHS_CONFLICT`
    /// comes after all others.
    Refused(Kind),
    /// The update found no memory.
    NoMemory,
}

impl From<NoMemory> for UpdateRefused {
    ghost use Rattle.std.specs.Prelude.{◌≡◌};
    ghost use Rattle.update_syntax.specs.declared.refused.UpdateRefused.TheVariants as refused;

    ghost from_gives = { λ _ it. it ≡ refused.NoMemory };

    fn from(_wanting: NoMemory) -> UpdateRefused {
        UpdateRefused::NoMemory
    }
}
