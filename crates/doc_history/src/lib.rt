//! Store: what a history of tables tells of operations on documents, in whole and in parts, and the law of its story.
#![tactic(auto)]

mod laws;

pub use laws::{
    a_part_stays_told, all_parts_are_the_whole, operations_are_served_one_after_another,
    the_story_is_a_run, two_parts_are_one,
};
