ghost use Rattle.std.specs.Prelude.{◌≡◌, ◌↔◌, ◌<◌, ◌^◌, length};
ghost use Rattle.std.specs.Cmp.{IsTotalOrder};
ghost use Rattle.bson_values.specs.declared.value.Value.{Value, out-Value};
ghost use Rattle.bson_order.specs.Choice.{ExactlyOne};
ghost use Rattle.bson_spelling.specs.Spelling.{key};
ghost use Rattle.bson_order.specs.Order.{Below, Same, rank_of, layer_cmp, compared};
ghost use Rattle.bson_order.specs.Plain.{IsPlain};

/// Two values compare as their layers do, by the ranks and the order of the values in them.
#[tactic(auto, using(crate::proofs::Layers::compared_is))]
pub fn values_compare_layer_by_layer()
    ensures { (a b : Value) → compared a b ≡ layer_cmp rank_of compared (out-Value a) (out-Value b) }
{}

/// Values of different types compare by their types, whatever they hold.
#[tactic(auto, using(crate::proofs::Total::lower_rank))]
pub fn a_lower_rank_comes_first()
    ensures { (a b : Value) → rank_of a < rank_of b → Below a b }
{}

/// The order has the laws that sorting by it asks for.
#[tactic(auto, using(crate::proofs::Total::compared_total))]
pub fn compared_is_a_total_order()
    ensures { IsTotalOrder compared }
{}

/// Any two values stand in exactly one of three ways.
#[tactic(auto, using(crate::proofs::Places::exactly_one))]
pub fn one_is_below_or_same_or_above()
    ensures { (a b : Value) → ExactlyOne (Below a b) (Same a b) (Below b a) }
{}

#[tactic(auto, using(crate::proofs::Places::irreflexive, crate::proofs::Places::below_transitive))]
pub fn below_is_a_strict_order()
    ensures irreflexive { (a : Value) → Below a a → ⊥ }
    ensures transitive { (a b c : Value) → Below a b → Below b c → Below a c }
{}

#[tactic(auto, using(crate::proofs::Places::reflexive, crate::proofs::Places::symmetric, crate::proofs::Places::same_transitive))]
pub fn same_is_an_equivalence()
    ensures reflexive { (a : Value) → Same a a }
    ensures symmetric { (a b : Value) → Same a b → Same b a }
    ensures transitive { (a b c : Value) → Same a b → Same b c → Same a c }
{}

#[tactic(auto, using(crate::proofs::Places::neither))]
pub fn same_is_neither_below_the_other()
    ensures { (a b : Value) → Same a b ↔ ((Below a b → ⊥) × (Below b a → ⊥)) }
{}

/// What is the same stands at one place among all values.
#[tactic(auto, using(crate::proofs::Places::alike_above, crate::proofs::Places::alike_below))]
pub fn same_values_stand_at_one_place()
    ensures above { (a b c : Value) → Same a b → Below a c ↔ Below b c }
    ensures below { (a b c : Value) → Same a b → Below c a ↔ Below c b }
{}

/// Keys of plain values are equal exactly where the values are the same, unless a key has 2^63 bytes or more, as no key of `id_key` has.
#[tactic(auto, using(crate::proofs::SameKeys::same_key, crate::proofs::EqualKeys::told))]
pub fn a_key_tells_values_apart()
    ensures same { (a b : Value) → Same a b → key a ≡ key b }
    ensures only { (a b : Value) → IsPlain a → IsPlain b → length (key a) < 2 ^ 63 → key a ≡ key b → Same a b }
{}
