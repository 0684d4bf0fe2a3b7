/// The commands, as the first name of a body tells them.
#[derive(Clone, Copy)]
pub(crate) enum Word {
    Ping,
    Insert,
    Update,
    Delete,
    FindAndModify,
    Find,
    Count,
    Distinct,
}
