//! What sorts and projections have in common: their paths, and the fields that name them.

ghost use Rattle.std.specs.Prelude.{◌≡◌};
ghost use Rattle.std.specs.List.{list_any};
ghost use Rattle.bson_values.specs.declared.value.Value.{out-Value};
ghost use Rattle.doc_shape.specs.Answers.{Gives};
ghost use Rattle.doc_shape.specs.Reading.{has_dollar, path_of};

use crate::refused::ShapeRefused;
use bson_values::Text;
use case_tables::{BAD_PATH, NOT_SUPPORTED};
use doc_paths::{Path, PathRefused};
use std::alloc::Global;

fn has_dollar(part: &Text) -> bool
    ensures { result ≡ has_dollar part.now }
{
    match part.as_str().as_bytes() {
        [] => false,
        [byte, ..] => *byte == b'$',
    }
}

fn any_dollar(parts: &[Text]) -> bool
    ensures { result ≡ list_any has_dollar parts.now }
{
    parts.iter().any(|part| has_dollar(part))
}

/// The path that a name spells in a sort, in a projection or as the key of a `distinct`. A bad path is kind 9, and a part that begins
/// with `$` kind 29, which goes second.
pub fn read_path(alloc: Global, name: &str) -> Result<Path, ShapeRefused>
    ensures { Gives result (path_of name.now) }
{
    match Path::read(alloc, name) {
        Ok(path) => {
            if any_dollar(path.parts()) {
                return Err(ShapeRefused::Refused(NOT_SUPPORTED));
            }
            Ok(path)
        }
        Err(PathRefused::Empty) => Err(ShapeRefused::Refused(BAD_PATH)),
        Err(PathRefused::Long) => Err(ShapeRefused::Refused(BAD_PATH)),
        Err(PathRefused::NoMemory) => Err(ShapeRefused::NoMemory),
    }
}
