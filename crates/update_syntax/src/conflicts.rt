ghost use Rattle.std.specs.Prelude.{◌≡◌};
ghost use Rattle.update_syntax.specs.Conflicts.{any_clash, clash, is_prefix, neighbours_clash, parts_cmp};

use bson_values::{List, Text};
use doc_paths::Path;
use std::cmp::Ordering;

fn compare_parts(one: &[Text], other: &[Text]) -> Ordering
    ensures { result ≡ parts_cmp one.now other.now }
{
    match (one.split_first(), other.split_first()) {
        (None, None) => Ordering::Equal,
        (None, Some(_)) => Ordering::Less,
        (Some(_), None) => Ordering::Greater,
        (Some((part, parts)), Some((first, others))) => match part.as_str().cmp(first.as_str()) {
            Ordering::Equal => compare_parts(parts, others),
            unequal => unequal,
        },
    }
}

fn begins(one: &[Text], other: &[Text]) -> bool
    ensures { result ≡ is_prefix one.now other.now }
{
    match (one.split_first(), other.split_first()) {
        (None, _) => true,
        (Some(_), None) => false,
        (Some((part, parts)), Some((first, others))) => {
            part.as_str() == first.as_str() && begins(parts, others)
        }
    }
}

fn clash(one: &Path, other: &Path) -> bool
    ensures { result ≡ clash one.now other.now }
{
    begins(one.parts(), other.parts()) || begins(other.parts(), one.parts())
}

fn neighbours_clash(paths: &[Path]) -> bool
    ensures { result ≡ neighbours_clash paths.now }
{
    let mut rest = paths;
    while let [one, others @ ..] = rest {
        if let Some(next) = others.first() {
            if clash(one, next) {
                return true;
            }
        }
        rest = others;
    }
    false
}

/// Whether two of the paths are one, or one of them begins another. In the order of their parts such two are neighbours.
pub(crate) fn any_clash(paths: List<Path>) -> bool
    ensures { result ≡ any_clash paths }
{
    let mut paths = paths.into_vec();
    paths.sort_unstable_by(|one, other| compare_parts(one.parts(), other.parts()));
    neighbours_clash(paths.as_slice())
}
