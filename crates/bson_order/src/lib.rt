//! Values: their order, and the keys by which rows are told apart.
#![tactic(auto)]

mod key;
mod laws;
mod order;
mod plain;

pub use key::id_key;
pub use laws::{
    a_key_tells_values_apart, a_lower_rank_comes_first, below_is_a_strict_order,
    compared_is_a_total_order, one_is_below_or_same_or_above, same_is_an_equivalence,
    same_is_neither_below_the_other, same_values_stand_at_one_place, values_compare_layer_by_layer,
};
pub use order::{compare, rank, same};
pub use plain::is_plain;
