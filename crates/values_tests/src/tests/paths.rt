//! Texts with the paths that they spell.

use PathRefused::{Empty, Long};
use bson_values::Text;
use doc_paths::{Path, PathRefused};
use std::alloc::Global;
use std::test::Fail;

/// A path of 99 parts behind the text.
macro_rules! with_99_more {
    ($first:literal) => {
        concat!(
            $first,
            ".a.a.a.a.a.a.a.a.a.a.a.a.a.a.a.a.a.a.a.a.a.a.a.a.a.a.a.a.a.a.a.a.a",
            ".a.a.a.a.a.a.a.a.a.a.a.a.a.a.a.a.a.a.a.a.a.a.a.a.a.a.a.a.a.a.a.a.a",
            ".a.a.a.a.a.a.a.a.a.a.a.a.a.a.a.a.a.a.a.a.a.a.a.a.a.a.a.a.a.a.a.a.a"
        )
    };
}

static TEXTS: [(&str, &[&str]); 3] = [
    ("a", &["a"]),
    ("a.b", &["a", "b"]),
    ("a.0.$b c", &["a", "0", "$b c"]),
];

static REFUSED: [(&str, PathRefused); 7] = [
    ("", Empty),
    (".", Empty),
    (".a", Empty),
    ("a..b", Empty),
    ("a.b.", Empty),
    (with_99_more!("a.a"), Long),
    (with_99_more!(".a"), Empty),
];

fn are(parts: &[Text], texts: &[&str]) -> bool {
    for (place, text) in texts.iter().enumerate() {
        match parts.get(place) {
            Some(part) => {
                if part.as_str() != *text {
                    return false;
                }
            }
            None => return false,
        }
    }
    parts.len() == texts.len()
}

/// Why the text is no path; None where it is one.
fn refusal(alloc: Global, text: &str) -> Option<PathRefused> {
    match Path::read(alloc, text) {
        Ok(_) => None,
        Err(why) => Some(why),
    }
}

#[test]
fn a_text_is_cut_at_its_dots(rt: HostRuntime) -> Result<(), Fail> {
    for (place, (text, parts)) in TEXTS.iter().enumerate() {
        let path = Path::read(rt.alloc(), text)?;
        assert!(rt; are(path.parts(), parts), "row {place}");
    }
    Ok(())
}

#[test]
fn a_path_has_at_most_100_parts(rt: HostRuntime) -> Result<(), Fail> {
    let path = Path::read(rt.alloc(), with_99_more!("a"))?;
    assert_eq!(rt; path.parts().len(), 100);
    Ok(())
}

#[test]
fn texts_that_are_no_paths_are_refused(rt: HostRuntime) {
    for (place, (text, why)) in REFUSED.iter().enumerate() {
        assert!(rt; refusal(rt.alloc(), text) == Some(*why), "row {place}");
    }
}
