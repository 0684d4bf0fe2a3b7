ghost use Rattle.std.specs.Prelude.{◌≡◌, map, find, option_map};
ghost use Rattle.std.specs.Str.{bytes_eq};
ghost use Rattle.filter_syntax.specs.Operators.{named};
ghost use Rattle.update_syntax.specs.Operators.{operators};
ghost use Rattle.update_syntax.specs.Told.{told, placed, reckoned, added};

use crate::update::{Number, Step};
use bson_values::{List, Value};
use doc_paths::Path;

/// When a value is put at a path.
#[derive(Clone, Copy)]
pub(crate) enum Placing {
    Set,
    SetOnInsert,
    Min,
    Max,
}

/// What is reckoned of two numbers.
#[derive(Clone, Copy)]
pub(crate) enum Reckoning {
    Inc,
    Mul,
}

/// Which values are added to an array.
#[derive(Clone, Copy)]
pub(crate) enum Adding {
    Push,
    AddToSet,
}

/// What stands beside a path, and what the operator makes of it.
#[derive(Clone, Copy)]
pub(crate) enum Operator {
    Value(Placing),
    Removal,
    Number(Reckoning),
    Target,
    Items(Adding),
    End,
    Pulled,
    AllPulled,
    Moment,
    Bits,
}

#[derive(Clone, Copy)]
struct Row {
    name: &'static str,
    it: Operator,
}

/// Rows of names, as `"name" => what it is`.
macro_rules! rows {
    ($($name:literal => $it:expr),* $(,)?) => {
        [$(Row { name: $name, it: $it }),*]
    };
}

static OPERATORS: [Row; 15] = rows! {
    "$set" => Operator::Value(Placing::Set),
    "$setOnInsert" => Operator::Value(Placing::SetOnInsert),
    "$unset" => Operator::Removal,
    "$inc" => Operator::Number(Reckoning::Inc),
    "$mul" => Operator::Number(Reckoning::Mul),
    "$min" => Operator::Value(Placing::Min),
    "$max" => Operator::Value(Placing::Max),
    "$rename" => Operator::Target,
    "$push" => Operator::Items(Adding::Push),
    "$addToSet" => Operator::Items(Adding::AddToSet),
    "$pop" => Operator::End,
    "$pull" => Operator::Pulled,
    "$pullAll" => Operator::AllPulled,
    "$currentDate" => Operator::Moment,
    "$bit" => Operator::Bits,
};

#[tactic(auto, unfolding(crate::specs::Operators::operators))]
fn operators() -> &'static [Row]
    ensures { map (λ row. (row.name.now, told row.it)) result.now ≡ operators }
{
    &OPERATORS
}

fn find_operator(rows: &[Row], name: &str) -> Option<Operator>
    ensures { result ≡ option_map (λ row. row.it) (find (λ row. bytes_eq row.name.now name.now) rows.now) }
{
    rows.iter().find(|row| row.name == name).map(|row| row.it)
}

/// The operator of that name.
pub(crate) fn operator_named(name: &str) -> Option<Operator>
    ensures { option_map told result ≡ named name.now operators }
{
    find_operator(operators(), name)
}

impl Placing {
    pub(crate) fn step(self, path: Path, value: Value) -> Step
        ensures { result ≡ placed self path value }
    {
        match self {
            Placing::Set => Step::Set(path, value),
            Placing::SetOnInsert => Step::SetOnInsert(path, value),
            Placing::Min => Step::Min(path, value),
            Placing::Max => Step::Max(path, value),
        }
    }
}

impl Reckoning {
    pub(crate) fn step(self, path: Path, number: Number) -> Step
        ensures { result ≡ reckoned self path number }
    {
        match self {
            Reckoning::Inc => Step::Inc(path, number),
            Reckoning::Mul => Step::Mul(path, number),
        }
    }
}

impl Adding {
    pub(crate) fn step(self, path: Path, items: List<Value>) -> Step
        ensures { result ≡ added self path items }
    {
        match self {
            Adding::Push => Step::Push(path, items),
            Adding::AddToSet => Step::AddToSet(path, items),
        }
    }
}
