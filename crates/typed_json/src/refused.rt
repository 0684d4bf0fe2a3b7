use bson_values::NoMemory;

/// Why a JSON gives no document.
#[derive(Clone, Copy, Debug, PartialEq, Eq)]
pub enum RowRefused {
    /// It is the row of no document that may be stored.
    NotRow,
    /// Memory ran out.
    NoMemory,
}

impl From<NoMemory> for RowRefused {
    ghost use Rattle.std.specs.Prelude.{◌≡◌};
    ghost use Rattle.typed_json.specs.declared.refused.RowRefused.TheVariants.{NoMemory as WantOfMemory};

    ghost from_gives = { λ _ e. e ≡ WantOfMemory };

    fn from(_refused: NoMemory) -> RowRefused {
        RowRefused::NoMemory
    }
}
