use bson_values::NoMemory;

/// Why no document was read.
#[derive(Clone, Copy, Debug, PartialEq, Eq)]
pub enum ReadRefused {
    /// No document stands at the front of the bytes. The number is the place of the first fault, counted from the front: that of
    /// the type byte of the innermost faulty element, or of the length of the innermost document or array whose length, end byte
    /// or nesting is faulty.
    Malformed(u64),
    NoMemory,
}

impl From<NoMemory> for ReadRefused {
    ghost use Rattle.std.specs.Prelude.{◌≡◌};
    ghost use Rattle.bson_wire.specs.declared.refused.ReadRefused.TheVariants as refused;

    ghost from_gives = { λ _ it. it ≡ refused.NoMemory };

    fn from(_wanting: NoMemory) -> ReadRefused {
        ReadRefused::NoMemory
    }
}
