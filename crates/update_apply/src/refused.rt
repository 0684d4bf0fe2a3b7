use bson_values::NoMemory;
use case_tables::Kind;

/// Why no document comes of an update.
#[derive(Clone, Copy, Debug, PartialEq, Eq)]
pub enum ApplyRefused {
    /// The first operator that does not apply, or what is wrong with the document that it makes, is of this kind.
    Refused(Kind),
    /// The document found no memory.
    NoMemory,
}

impl From<NoMemory> for ApplyRefused {
    ghost use Rattle.std.specs.Prelude.{◌≡◌};
    ghost use Rattle.update_apply.specs.declared.refused.ApplyRefused.TheVariants as refused;

    ghost from_gives = { λ _ it. it ≡ refused.NoMemory };

    fn from(_wanting: NoMemory) -> ApplyRefused {
        ApplyRefused::NoMemory
    }
}
