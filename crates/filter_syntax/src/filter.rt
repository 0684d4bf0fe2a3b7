use bson_values::{List, Value};
use doc_paths::Path;
use sqlite_items::Boxed;

/// What a document is asked (MongoDB manual, "Query and Projection Operators").
#[derive(Drop)]
#[cycle(filter)]
pub enum Filter {
    /// All of them hold.
    All(List<Filter>),
    /// One of them holds at least.
    AnyOf(List<Filter>),
    /// None of them holds.
    NoneOf(List<Filter>),
    /// What the path reaches passes the test.
    On(Path, Test),
}

/// What is asked of the values that a path reaches, by one operator.
#[derive(Drop)]
#[cycle(filter)]
pub enum Test {
    Eq(Value),
    Ne(Value),
    /// `$in`.
    OneOf(List<Value>),
    /// `$nin`.
    NotOneOf(List<Value>),
    Not(List<Test>),
    Gt(Value),
    Gte(Value),
    Lt(Value),
    Lte(Value),
    Exists(bool),
    /// `$type`: the type bytes of BSON 1.1, minkey's -1 as 255.
    OfType(List<u8>),
    Size(u64),
    /// `$all`.
    AllOf(List<Value>),
    /// `$elemMatch` with operators.
    ElemTests(List<Test>),
    /// `$elemMatch` with a filter.
    ElemFilter(Boxed<Filter>),
    Mod { divisor: i64, rest: i64 },
    BitsAllSet(u64),
    BitsAllClear(u64),
    BitsAnySet(u64),
    BitsAnyClear(u64),
}
