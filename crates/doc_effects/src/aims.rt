use doc_paths::Path;
use doc_shape::{Order, Shape};

/// Which of the documents that a filter holds of are shown, and how: sorted, past the first `skip` and up to `limit`, where that is not 0, in
/// this shape. With `cut` they are cut to a batch of at most so many.
#[derive(Drop)]
pub struct Show {
    pub order: Order,
    pub skip: u64,
    pub limit: u64,
    pub shape: Shape,
    pub cut: Option<u64>,
}

/// What is asked of the documents that a filter holds of.
#[derive(Drop)]
pub enum Aim {
    Documents(Show),
    Number { skip: u64, limit: u64 },
    Values(Path),
}
