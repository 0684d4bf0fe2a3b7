use bson_values::Value;
use filter_syntax::Test;

/// What each reached value is asked.
#[derive(Clone, Copy)]
pub(crate) enum Ask<'a> {
    /// Whether it, or an element of it, is the same as a value.
    Equal(&'a Value),
    /// What an operator asks that holds where one reached value passes.
    By(&'a Test),
}
