//! Service: what a message asks for, or why it is refused.
#![tactic(auto)]

mod body;
mod command;
mod documents;
mod fields;
mod items;
mod names;
mod operands;
mod refusal;
mod refused;
mod tables;
mod takes;
mod values;
mod word;
mod writes;

pub use command::Command;
pub use refused::CommandRefused;
