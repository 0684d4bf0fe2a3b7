use bson_wire::Foreign;
use op_msg::{BadKind, Taken, take};
use std::alloc::Global;

/// What is told of a message: its requestID, how many fields its body and how many sequences it has, its first foreign
/// element, and how many bytes it takes.
pub type Seen = (i32, usize, usize, Option<Foreign>, u64);

pub fn seen(alloc: Global, bytes: &[u8]) -> Option<Seen> {
    match take(alloc, bytes) {
        Taken::Whole { message, used } => Some((
            message.request,
            message.body.len(),
            message.sequences.len(),
            message.foreign,
            used,
        )),
        _ => None,
    }
}

pub fn fault(alloc: Global, bytes: &[u8]) -> Option<(BadKind, u64)> {
    match take(alloc, bytes) {
        Taken::Bad { kind, place } => Some((kind, place)),
        _ => None,
    }
}

pub fn is_short(alloc: Global, bytes: &[u8]) -> bool {
    matches!(take(alloc, bytes), Taken::Short)
}
