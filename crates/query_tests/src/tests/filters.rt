//! Filters as tables write them.

use filter_syntax::Filter;
use notation::document;
use std::alloc::Global;

/// The filter that the text writes. None for another text, and where memory is wanting.
pub(crate) fn filter(alloc: Global, text: &str) -> Option<Filter> {
    let document = document(alloc, text)?;
    Filter::read(alloc, &document).ok()
}
