//! What is told of a tree, as words. A word that finds no memory is missing, and its row fails.

/// Adds a word behind a blank.
pub(crate) fn put(out: &mut String, word: &str) {
    let _ = out.push_str(" ");
    let _ = out.push_str(word);
}

/// Adds a number behind a blank.
pub(crate) fn put_number(out: &mut String, number: i64) {
    let _ = write!(out, " {number}");
}
