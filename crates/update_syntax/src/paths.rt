ghost use Rattle.std.specs.Prelude.{◌≡◌};
ghost use Rattle.std.specs.List.{list_any};
ghost use Rattle.filter_syntax.specs.Operands.{has_dollar};
ghost use Rattle.update_syntax.specs.Answers.{Gives};
ghost use Rattle.update_syntax.specs.Operators.{path_of};

use crate::names::has_dollar;
use crate::refused::UpdateRefused;
use bson_values::Text;
use case_tables::{BAD_PATH, NOT_SUPPORTED};
use doc_paths::{Path, PathRefused};
use std::alloc::Global;

fn starts_so(part: &Text) -> bool
    ensures { result ≡ has_dollar part.now }
{
    has_dollar(part.as_str())
}

fn any_dollar(parts: &[Text]) -> bool
    ensures { result ≡ list_any has_dollar parts.now }
{
    parts.iter().any(|part| starts_so(part))
}

/// The path that a name spells.
pub(crate) fn read_path(alloc: Global, name: &str) -> Result<Path, UpdateRefused>
    ensures { Gives result (path_of name.now) }
{
    match Path::read(alloc, name) {
        Ok(path) => {
            if any_dollar(path.parts()) {
                return Err(UpdateRefused::Refused(NOT_SUPPORTED));
            }
            Ok(path)
        }
        Err(PathRefused::Empty) => Err(UpdateRefused::Refused(BAD_PATH)),
        Err(PathRefused::Long) => Err(UpdateRefused::Refused(BAD_PATH)),
        Err(PathRefused::NoMemory) => Err(UpdateRefused::NoMemory),
    }
}
