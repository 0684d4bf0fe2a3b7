//! Query: sorts and projections: how they are read from documents, what they mean, and their work.
#![tactic(auto)]

mod bests;
mod clashing;
mod comparing;
mod order;
mod place;
mod projecting;
mod reading;
mod refused;
mod shape;
mod sorting;
mod walking;

pub use order::Order;
pub use projecting::project;
pub use reading::read_path;
pub use refused::ShapeRefused;
pub use shape::Shape;
pub use sorting::sort_stably;
