//! Documents as bytes, both ways.

mod passing;
mod places;
mod whole;
