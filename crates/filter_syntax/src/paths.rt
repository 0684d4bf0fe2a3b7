ghost use Rattle.std.specs.Prelude.{◌≡◌, ◌++◌, map, OnOk, IfErr};
ghost use Rattle.std.specs.List.{list_any};
ghost use Rattle.filter_syntax.specs.declared.filter.Filter.TheVariants as filter;
ghost use Rattle.filter_syntax.specs.declared.refused.FilterRefused.TheVariants as refused;
ghost use Rattle.filter_syntax.specs.Answers.{Gives};
ghost use Rattle.filter_syntax.specs.Operands.{has_dollar};
ghost use Rattle.filter_syntax.specs.Reading.{path_of};

use crate::filter::{Filter, Test};
use crate::names::has_dollar;
use crate::operands::put;
use crate::refused::FilterRefused;
use bson_values::{List, Text};
use case_tables::{BAD_PATH, UNKNOWN_OPERATOR};
use doc_paths::{Path, PathRefused};
use std::alloc::Global;

fn starts_so(part: &Text) -> bool
    ensures { result ≡ has_dollar part.now }
{
    has_dollar(part.as_str())
}

fn any_dollar(parts: &[Text]) -> bool
    ensures { result ≡ list_any has_dollar parts.now }
{
    parts.iter().any(|part| starts_so(part))
}

/// The path that a name spells.
pub(crate) fn read_path(alloc: Global, name: &str) -> Result<Path, FilterRefused>
    ensures { Gives result (path_of name.now) }
{
    match Path::read(alloc, name) {
        Ok(path) => {
            if any_dollar(path.parts()) {
                return Err(FilterRefused::Refused(UNKNOWN_OPERATOR));
            }
            Ok(path)
        }
        Err(PathRefused::Empty) => Err(FilterRefused::Refused(BAD_PATH)),
        Err(PathRefused::Long) => Err(FilterRefused::Refused(BAD_PATH)),
        Err(PathRefused::NoMemory) => Err(FilterRefused::NoMemory),
    }
}

/// Adds what is asked at a path, a filter for each test.
pub(crate) fn put_all(
    alloc: Global,
    path: &Path,
    tests: List<Test>,
    out: &mut List<Filter>,
) -> Result<(), FilterRefused>
    ensures ok { OnOk result (out.new ≡ out.old ++ map (filter.On path.now) tests) }
    ensures none { IfErr result (λ why. why ≡ refused.NoMemory) }
{
    for test in tests.into_vec() {
        let path = path.copy(alloc)?;
        put(out, Filter::On(path, test))?;
    }
    Ok(())
}
