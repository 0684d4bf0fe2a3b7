use bson_values::Bytes;

/// A value, its key, and its place among all.
#[derive(Drop)]
pub struct Entry<V> {
    pub place: u64,
    pub key: Bytes,
    pub value: V,
}
