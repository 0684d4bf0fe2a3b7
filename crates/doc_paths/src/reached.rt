use bson_values::Value;

/// What a path leads to. Where it leads to nothing, that counts too: a filter for null holds there.
#[derive(Drop)]
pub enum Reached {
    Missing,
    Found(Value),
}
