use bson_values::NoMemory;
use case_tables::Kind;

/// Why no filter comes of a document.
#[derive(Clone, Copy, Debug, PartialEq, Eq)]
pub enum FilterRefused {
    /// The first thing in the document that no filter has is of this kind.
    Refused(Kind),
    /// The filter found no memory.
    NoMemory,
}

impl From<NoMemory> for FilterRefused {
    ghost use Rattle.std.specs.Prelude.{◌≡◌};
    ghost use Rattle.filter_syntax.specs.declared.refused.FilterRefused.TheVariants as refused;

    ghost from_gives = { λ _ it. it ≡ refused.NoMemory };

    fn from(_wanting: NoMemory) -> FilterRefused {
        FilterRefused::NoMemory
    }
}
