use bson_values::NoMemory;

/// Why a value is not put at a path. The document stays as it was.
#[derive(Clone, Copy, Debug, PartialEq, Eq)]
pub enum PutRefused {
    /// The path goes on at a value that has no parts, or into an array by a part that tells no place.
    NotViable,
    /// The path tells a place in an array that is not there, and is past index 65,535.
    TooFar,
    NoMemory,
}

impl From<NoMemory> for PutRefused {
    ghost use Rattle.std.specs.Prelude.{◌≡◌};
    ghost use Rattle.doc_paths.specs.declared.refused.PutRefused.TheVariants as refused;

    ghost from_gives = { λ _ it. it ≡ refused.NoMemory };

    fn from(_wanting: NoMemory) -> PutRefused {
        PutRefused::NoMemory
    }
}
