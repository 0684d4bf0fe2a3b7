/// The commands whose items are looked into.
#[derive(Clone, Copy)]
pub(crate) enum Item {
    Update,
    Delete,
}

/// What a field takes.
#[derive(Clone, Copy)]
pub(crate) enum Takes {
    Anything,
    Text,
    Document,
    DocumentOrArray,
    /// A bool or a whole number.
    Truth,
    /// A whole number.
    Whole,
    /// A whole number that is not negative.
    Natural,
    ZeroOrOne,
    /// An array or a sequence of 1 to 1,000 documents, which are not looked into.
    Documents,
    /// The same, and these are looked into.
    Items(Item),
    /// There is no such field.
    Unknown,
}
