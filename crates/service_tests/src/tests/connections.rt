//! Connections, byte for byte.

mod bounds;
mod commands;
mod keepers;
mod queries;
mod streams;
mod writes;
