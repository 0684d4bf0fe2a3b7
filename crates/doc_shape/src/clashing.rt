//! Paths in the order of their parts, and those of which one is another or begins it.

ghost use Rattle.std.specs.Prelude.{◌≡◌, true, IfOk};
ghost use Rattle.doc_shape.specs.Clashes.{is_prefix, neighbours_clash, parts_cmp, path_below, rises};
ghost use Rattle.doc_shape.specs.Sorted.{stably_sorted};

use bson_values::{List, NoMemory, Text};
use doc_paths::Path;
use std::cmp::Ordering;
use std::marker::Model;

fn compare_parts(one: &[Text], other: &[Text]) -> Ordering
    ensures { result ≡ parts_cmp one.now other.now }
{
    match (one.split_first(), other.split_first()) {
        (None, None) => Ordering::Equal,
        (None, Some(_)) => Ordering::Less,
        (Some(_), None) => Ordering::Greater,
        (Some((part, parts)), Some((first, others))) => match part.as_str().cmp(first.as_str()) {
            Ordering::Equal => compare_parts(parts, others),
            told => told,
        },
    }
}

fn begins(one: &[Text], other: &[Text]) -> bool
    ensures { result ≡ is_prefix one.now other.now }
{
    match (one.split_first(), other.split_first()) {
        (None, _) => true,
        (Some(_), None) => false,
        (Some((part, parts)), Some((first, others))) => part.as_str() == first.as_str()
            && begins(parts, others),
    }
}

/// Paths in the order of their parts, which contracts see as the list of them.
#[derive(Drop)]
pub(crate) struct Rising {
    paths: List<Path>,
}

impl Model for Rising {
    ghost use Rattle.std.specs.Prelude.{ℕ, ◌≡◌, true, List as Seq};
    ghost use Rattle.doc_shape.specs.Clashes.{rises};

    ghost Value = { Seq (Seq (Seq ℕ)) };

    ghost view = { λ it. it.paths };

    ghost invariant = { λ it. rises it.paths ≡ true };
}

impl Rising {
    /// The paths in order.
    pub(crate) fn of(paths: List<Path>) -> Result<Rising, NoMemory>
        ensures { IfOk result (λ it. it ≡ stably_sorted path_below paths) }
    {
        let mut paths = paths.into_vec();
        match paths.sort_by(|one, other| compare_parts(one.parts(), other.parts())) {
            Ok(()) => Ok(Rising {
                paths: List::from_vec(paths),
            }),
            Err(_) => Err(NoMemory),
        }
    }

    pub(crate) fn as_slice(&self) -> &[Path]
        ensures same { result.now ≡ self.now }
        ensures rising { rises result.now ≡ true }
    {
        self.paths.as_slice()
    }
}

/// Whether a path is its neighbour or begins it.
pub(crate) fn neighbours_clash(paths: &[Path]) -> bool
    ensures { result ≡ neighbours_clash paths.now }
{
    let mut rest = paths;
    while let [one, others @ ..] = rest {
        if let Some(next) = others.first() {
            if begins(one.parts(), next.parts()) || begins(next.parts(), one.parts()) {
                return true;
            }
        }
        rest = others;
    }
    false
}
