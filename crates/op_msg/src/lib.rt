//! Wire: the messages of a stream, as the Wire Protocol says, and the replies to them.
#![tactic(auto)]

mod laws;
mod message;
mod refused;
mod reply;
mod sections;
mod taking;

pub use laws::{
    a_fault_stays, a_front_is_a_message_a_fault_or_short, a_stream_has_one_framing,
    the_pieces_of_a_stream_do_not_show,
};
pub use message::{BadKind, Message, Sequence, Taken};
pub use reply::{head, put_reply};
pub use taking::take;
