use bson_values::NoMemory;

/// Why no JSON was read from a text.
#[derive(Clone, Copy, Debug, PartialEq, Eq)]
pub enum TextRefused {
    /// It is no JSON text (RFC 8259), it nests more than 127 levels, or a number in it is neither an `i64` nor a `u64`.
    NotJson,
    NoMemory,
}

impl From<NoMemory> for TextRefused {
    ghost use Rattle.std.specs.Prelude.{◌≡◌};
    ghost use Rattle.jsonb_contain.specs.declared.refused.TextRefused.TheVariants as refused;

    ghost from_gives = { λ _ it. it ≡ refused.NoMemory };

    fn from(_wanting: NoMemory) -> TextRefused {
        TextRefused::NoMemory
    }
}
