ghost use Rattle.std.specs.Prelude.{◌≡◌, map, find, option_map};
ghost use Rattle.std.specs.Str.{bytes_eq};
ghost use Rattle.filter_syntax.specs.Operators.{operators, top_level, named};
ghost use Rattle.filter_syntax.specs.Told.{told, told_top_level, compared, listed, counted, combined};

use crate::filter::{Filter, Test};
use bson_values::{List, Value};

/// How a value is compared with.
#[derive(Clone, Copy)]
pub(crate) enum Comparison {
    Eq,
    Ne,
    Gt,
    Gte,
    Lt,
    Lte,
}

/// How values are compared with.
#[derive(Clone, Copy)]
pub(crate) enum Membership {
    OneOf,
    NotOneOf,
    AllOf,
}

/// What a number that is not negative counts, or the bits of which it is the mask.
#[derive(Clone, Copy)]
pub(crate) enum Counted {
    Size,
    BitsAllSet,
    BitsAllClear,
    BitsAnySet,
    BitsAnyClear,
}

/// What stands beside an operator, and what the operator makes of it.
#[derive(Clone, Copy)]
pub(crate) enum Operator {
    Value(Comparison),
    Values(Membership),
    Count(Counted),
    Truth,
    Types,
    Division,
    Set,
    Element,
    LeftOut,
}

/// How filters are made one.
#[derive(Clone, Copy)]
pub(crate) enum Logical {
    And,
    Or,
    Nor,
}

/// What stands beside a name with `$` in the place of a path.
#[derive(Clone, Copy)]
pub(crate) enum TopLevel {
    Filters(Logical),
    Ignored,
    LeftOut,
}

#[derive(Clone, Copy)]
pub(crate) struct Row<T> {
    name: &'static str,
    it: T,
}

/// Rows of names, as `"name" => what it is`.
macro_rules! rows {
    ($($name:literal => $it:expr),* $(,)?) => {
        [$(Row { name: $name, it: $it }),*]
    };
}

static OPERATORS: [Row<Operator>; 25] = rows! {
    "$eq" => Operator::Value(Comparison::Eq),
    "$ne" => Operator::Value(Comparison::Ne),
    "$gt" => Operator::Value(Comparison::Gt),
    "$gte" => Operator::Value(Comparison::Gte),
    "$lt" => Operator::Value(Comparison::Lt),
    "$lte" => Operator::Value(Comparison::Lte),
    "$in" => Operator::Values(Membership::OneOf),
    "$nin" => Operator::Values(Membership::NotOneOf),
    "$all" => Operator::Values(Membership::AllOf),
    "$not" => Operator::Set,
    "$exists" => Operator::Truth,
    "$type" => Operator::Types,
    "$size" => Operator::Count(Counted::Size),
    "$elemMatch" => Operator::Element,
    "$mod" => Operator::Division,
    "$bitsAllSet" => Operator::Count(Counted::BitsAllSet),
    "$bitsAllClear" => Operator::Count(Counted::BitsAllClear),
    "$bitsAnySet" => Operator::Count(Counted::BitsAnySet),
    "$bitsAnyClear" => Operator::Count(Counted::BitsAnyClear),
    "$regex" => Operator::LeftOut,
    "$options" => Operator::LeftOut,
    "$geoIntersects" => Operator::LeftOut,
    "$geoWithin" => Operator::LeftOut,
    "$near" => Operator::LeftOut,
    "$nearSphere" => Operator::LeftOut,
};

static TOP_LEVEL: [Row<TopLevel>; 8] = rows! {
    "$and" => TopLevel::Filters(Logical::And),
    "$or" => TopLevel::Filters(Logical::Or),
    "$nor" => TopLevel::Filters(Logical::Nor),
    "$comment" => TopLevel::Ignored,
    "$expr" => TopLevel::LeftOut,
    "$where" => TopLevel::LeftOut,
    "$text" => TopLevel::LeftOut,
    "$jsonSchema" => TopLevel::LeftOut,
};

#[tactic(auto, unfolding(crate::specs::Operators::operators))]
fn operators() -> &'static [Row<Operator>]
    ensures { map (λ row. (row.name.now, told row.it)) result.now ≡ operators }
{
    &OPERATORS
}

#[tactic(auto, unfolding(crate::specs::Operators::top_level))]
fn top_level() -> &'static [Row<TopLevel>]
    ensures { map (λ row. (row.name.now, told_top_level row.it)) result.now ≡ top_level }
{
    &TOP_LEVEL
}

fn find_operator(rows: &[Row<Operator>], name: &str) -> Option<Operator>
    ensures { result ≡ option_map (λ row. row.it) (find (λ row. bytes_eq row.name.now name.now) rows.now) }
{
    rows.iter().find(|row| row.name == name).map(|row| row.it)
}

fn find_top_level(rows: &[Row<TopLevel>], name: &str) -> Option<TopLevel>
    ensures { result ≡ option_map (λ row. row.it) (find (λ row. bytes_eq row.name.now name.now) rows.now) }
{
    rows.iter().find(|row| row.name == name).map(|row| row.it)
}

/// The operator of that name.
pub(crate) fn operator_named(name: &str) -> Option<Operator>
    ensures { option_map told result ≡ named name.now operators }
{
    find_operator(operators(), name)
}

/// What that name with `$` is in the place of a path.
pub(crate) fn top_level_named(name: &str) -> Option<TopLevel>
    ensures { option_map told_top_level result ≡ named name.now top_level }
{
    find_top_level(top_level(), name)
}

impl Comparison {
    pub(crate) fn test(self, value: Value) -> Test
        ensures { result ≡ compared self value }
    {
        match self {
            Comparison::Eq => Test::Eq(value),
            Comparison::Ne => Test::Ne(value),
            Comparison::Gt => Test::Gt(value),
            Comparison::Gte => Test::Gte(value),
            Comparison::Lt => Test::Lt(value),
            Comparison::Lte => Test::Lte(value),
        }
    }
}

impl Membership {
    pub(crate) fn test(self, values: List<Value>) -> Test
        ensures { result ≡ listed self values }
    {
        match self {
            Membership::OneOf => Test::OneOf(values),
            Membership::NotOneOf => Test::NotOneOf(values),
            Membership::AllOf => Test::AllOf(values),
        }
    }
}

impl Counted {
    pub(crate) fn test(self, number: u64) -> Test
        ensures { result ≡ counted self number }
    {
        match self {
            Counted::Size => Test::Size(number),
            Counted::BitsAllSet => Test::BitsAllSet(number),
            Counted::BitsAllClear => Test::BitsAllClear(number),
            Counted::BitsAnySet => Test::BitsAnySet(number),
            Counted::BitsAnyClear => Test::BitsAnyClear(number),
        }
    }
}

impl Logical {
    pub(crate) fn filter(self, filters: List<Filter>) -> Filter
        ensures { result ≡ combined self filters }
    {
        match self {
            Logical::And => Filter::All(filters),
            Logical::Or => Filter::AnyOf(filters),
            Logical::Nor => Filter::NoneOf(filters),
        }
    }
}
