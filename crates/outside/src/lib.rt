//! Outside: what a program reaches beyond itself, as traits, and the same in memory.
#![tactic(auto)]

mod archive;
mod index;
mod keeper;
mod kept;
mod link;
mod memory_keeper;
mod memory_link;
mod memory_world;
mod rows;
mod source;
mod supply;
mod sure_keeper;
mod sure_link;
mod sure_world;
mod tables;
mod world;

pub use keeper::{KeepError, Keeper};
pub use kept::{Change, Kept, KeptRow, KeptTable};
pub use link::{Failed, Gate, Link};
pub use memory_keeper::MemoryKeeper;
pub use memory_link::MemoryLink;
pub use memory_world::{Bad, MemoryWorld};
pub use sure_keeper::SureKeeper;
pub use sure_link::SureLink;
pub use sure_world::SureWorld;
pub use world::World;
