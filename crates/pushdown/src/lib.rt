//! Query: the condition on rows that a filter pushes down, and the law that each row which matches meets it.
#![tactic(auto)]

mod count;
mod laws;
mod push;
mod term;

pub use count::pushed;
pub use laws::{a_filter_implies_its_condition, filtering_selected_rows_is_filtering_all};
pub use push::cond_of;
