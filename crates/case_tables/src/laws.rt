ghost use Rattle.std.specs.Prelude.{◌≡◌, ℕ, List, true, Some, slice_get, map};
ghost use Rattle.case_tables.specs.Cases.{row_of_code, row_of_name, is_distinct};
ghost use Rattle.case_tables.specs.declared.case_table.Case.{Case};
ghost use Rattle.case_tables.specs.Pinned.{told, written};
ghost use Rattle.case_tables.specs.Refusals.{listed};

/// In a distinct table both look-ups give back each row.
pub fn a_distinct_table_gives_back_each_row()
    ensures { (rows : List Case) (place : ℕ) (row : Case) → is_distinct rows ≡ true → slice_get rows place ≡ Some row
        → (row_of_code row.code rows ≡ Some row) × (row_of_name row.name.now rows ≡ Some row) }
{}

/// Each constant of a kind has the number of its row in the table of kinds, and what is told of it is what stands there.
#[tactic(auto, unfolding(crate::specs::Refusals::code_of, crate::specs::Refusals::code_name_of, crate::specs::Refusals::text_of))]
pub fn kinds_are_as_listed()
    ensures { map told listed ≡ map written listed }
{}
