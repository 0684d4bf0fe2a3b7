ghost use Rattle.std.specs.Prelude.{◌≡◌};
ghost use Rattle.std.specs.List.{list_any};
ghost use Rattle.std.specs.Option.{option_copied};
ghost use Rattle.case_tables.specs.Cases.{row_of_code, row_of_name, clash, is_distinct};

/// A number and its name.
#[derive(Clone, Copy)]
pub struct Case {
    pub code: u32,
    pub name: &'static str,
}

/// Rows of numbers and names, which are looked up from the first on.
#[derive(Clone, Copy)]
pub struct CaseTable {
    pub rows: &'static [Case],
}

/// Whether a row has the code or the name of this one.
fn stands_in(row: &Case, rows: &[Case]) -> bool
    ensures { result ≡ list_any (clash row.now) rows.now }
{
    rows.iter()
        .any(|other| row.code == other.code || row.name == other.name)
}

fn are_distinct(rows: &[Case]) -> bool
    ensures { result ≡ is_distinct rows.now }
{
    match rows {
        [row, later @ ..] => !stands_in(row, later) && are_distinct(later),
        [] => true,
    }
}

fn find_code(rows: &[Case], code: u32) -> Option<&Case>
    ensures { option_copied result ≡ row_of_code code rows.now }
{
    rows.iter().find(|row| row.code == code)
}

fn find_name<'a>(rows: &'a [Case], name: &str) -> Option<&'a Case>
    ensures { option_copied result ≡ row_of_name name.now rows.now }
{
    rows.iter().find(|row| row.name == name)
}

impl CaseTable {
    /// Whether no code and no name stands twice.
    pub fn distinct(&self) -> bool
        ensures { result ≡ is_distinct self.now.rows.now }
    {
        are_distinct(self.rows)
    }

    /// The first row of that code.
    pub fn by_code(&self, code: u32) -> Option<Case>
        ensures { result ≡ row_of_code code self.now.rows.now }
    {
        find_code(self.rows, code).copied()
    }

    /// The first row of that name.
    pub fn by_name(&self, name: &str) -> Option<Case>
        ensures { result ≡ row_of_name name.now self.now.rows.now }
    {
        find_name(self.rows, name).copied()
    }
}
