ghost use Rattle.std.specs.Prelude.{◌≡◌, ◌≤◌, [], true};
ghost use Rattle.case_tables.specs.Cases.{columns};
ghost use Rattle.case_tables.specs.Types.{type_name_of};
ghost use Rattle.case_tables.specs.Refusals.{beside, code_of, code_name_of, coded, text_of};

use crate::case_table::Case;
use crate::kinds::{CODED, Coded, KINDS, Kind};
use crate::tables::{CODES, TYPES};

fn code_in(rows: &[Coded], kind: Kind) -> u32
    ensures { result ≡ beside 0 kind (coded rows.now) }
{
    match rows {
        [row, later @ ..] => {
            if row.kind == kind {
                row.code
            } else {
                code_in(later, kind)
            }
        }
        [] => 0,
    }
}

fn name_in(rows: &[Case], code: u32) -> &'static str
    ensures { result.now ≡ beside [] code (columns rows.now) }
{
    match rows {
        [row, later @ ..] => {
            if row.code == code {
                row.name
            } else {
                name_in(later, code)
            }
        }
        [] => "",
    }
}

/// The error code of a kind; 0 for a number that is no kind.
#[tactic(auto, using(crate::proofs::Bounds::code_small), unfolding(crate::specs::Refusals::code_of))]
pub fn code_of(kind: Kind) -> u32
    ensures value { result ≡ code_of kind }
    ensures small { result ≤ 20003 }
{
    code_in(&CODED, kind)
}

/// The sentence of a kind; empty for a number that is no kind.
#[tactic(auto, unfolding(crate::specs::Refusals::text_of))]
pub fn text_of(kind: Kind) -> &'static str
    ensures { result.now ≡ text_of kind }
{
    name_in(KINDS.rows, kind)
}

/// The name of the type of BSON 1.1 that has this type byte; empty for a byte that is no type's.
#[tactic(auto, unfolding(crate::specs::Types::type_name_of))]
pub fn type_name_of(code: u32) -> &'static str
    ensures { result.now ≡ type_name_of code }
{
    name_in(TYPES.rows, code)
}

/// The name of a kind's error code; empty for a number that is no kind.
#[tactic(auto, unfolding(crate::specs::Refusals::code_name_of))]
pub fn code_name_of(kind: Kind) -> &'static str
    ensures { result.now ≡ code_name_of kind }
{
    name_in(CODES.rows, code_of(kind))
}

/// No code and no name stands twice in a table of this crate.
pub fn tables_are_distinct() -> bool
    ensures { result ≡ true }
{
    TYPES.distinct() && KINDS.distinct() && CODES.distinct()
}
