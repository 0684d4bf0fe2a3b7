//! Store: what documents a one-thread store holds, and what each operation makes of them. It runs nothing.
#![tactic(auto)]

mod laws;
mod op;

pub use laws::{
    a_change_of_nothing_takes_no_number, a_refusal_changes_nothing,
    an_operation_leaves_other_spaces, ids_stay_distinct, runs_join, what_was_deleted_is_gone,
    what_was_inserted_is_found,
};
pub use op::{Modify, Op, OpReply, Query};
