//! Values: JSON as rows hold it, its text, and PostgreSQL's containment.
//! `typed_json` makes such rows of documents.
#![tactic(auto)]

mod cond;
mod containing;
mod copying;
mod equality;
mod fields;
mod meeting;
mod printing;
mod reading;
mod refused;
mod value;

pub use cond::Cond;
pub use containing::contains;
pub use equality::equal;
pub use fields::Fields;
pub use meeting::meets;
pub use printing::text;
pub use reading::read_text;
pub use refused::TextRefused;
pub use value::Json;
