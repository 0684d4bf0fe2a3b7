ghost use Rattle.bson_values.specs.Allowed.{StorableWhereAllowed};

/// A document is storable exactly where its bytes and levels are not too many and its names and texts are allowed.
#[tactic(auto, using(crate::proofs::Soundness::storable_where))]
pub fn storable_where_allowed()
    ensures { StorableWhereAllowed }
{}
