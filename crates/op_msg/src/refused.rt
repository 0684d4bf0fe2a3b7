use crate::message::BadKind;
use bson_values::NoMemory;

/// Why no message was read.
#[derive(Drop)]
pub(crate) enum Refused {
    /// The kind of the fault, and its place.
    Bad(BadKind, u64),
    NoMemory,
}

impl From<NoMemory> for Refused {
    ghost use Rattle.std.specs.Prelude.{◌≡◌};
    ghost use Rattle.op_msg.specs.declared.refused.Refused.TheVariants as refused;

    ghost from_gives = { λ _ it. it ≡ refused.NoMemory };

    fn from(_wanting: NoMemory) -> Refused {
        Refused::NoMemory
    }
}
