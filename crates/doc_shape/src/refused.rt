use bson_values::NoMemory;
use case_tables::Kind;

/// Why no sort, or no projection, comes of a document.
#[derive(Clone, Copy, Debug, PartialEq, Eq)]
pub enum ShapeRefused {
    /// The first thing in the document that it may not have is of this kind.
    Refused(Kind),
    /// What is read found no memory.
    NoMemory,
}

impl From<NoMemory> for ShapeRefused {
    ghost use Rattle.std.specs.Prelude.{◌≡◌};
    ghost use Rattle.doc_shape.specs.declared.refused.ShapeRefused.TheVariants as refused;

    ghost from_gives = { λ _ it. it ≡ refused.NoMemory };

    fn from(_wanting: NoMemory) -> ShapeRefused {
        ShapeRefused::NoMemory
    }
}
