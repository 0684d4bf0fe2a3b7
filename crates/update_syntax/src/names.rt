ghost use Rattle.std.specs.Prelude.{◌≡◌};
ghost use Rattle.std.specs.List.{list_any};
ghost use Rattle.bson_values.specs.declared.value.Value.{out-Value};
ghost use Rattle.filter_syntax.specs.Operands.{first_name, has_dollar};
ghost use Rattle.update_syntax.specs.Operands.{has_operators, asks_more};

use bson_values::{Document, Pair, Value};

/// Whether a name begins with `$`.
pub(crate) fn has_dollar(name: &str) -> bool
    ensures { result ≡ has_dollar name.now }
{
    match name.as_bytes() {
        [] => false,
        [byte, ..] => *byte == b'$',
    }
}

/// Whether the name of the first field begins with `$`.
pub(crate) fn begins_with_operator(doc: &Document) -> bool
    ensures { result ≡ has_dollar (first_name doc.now) }
{
    match doc.as_slice() {
        [] => false,
        [pair, ..] => has_dollar(pair.name.as_str()),
    }
}

fn has_operators(value: &Value) -> bool
    ensures { result ≡ has_operators (out-Value value.now) }
{
    match value {
        Value::Doc(doc) => begins_with_operator(doc),
        _ => false,
    }
}

fn any_operators(pairs: &[Pair<Value>]) -> bool
    ensures { result ≡ list_any (λ pair. has_operators (out-Value pair.value)) pairs.now }
{
    pairs.iter().any(|pair| has_operators(&pair.value))
}

/// Whether it is a document with operators, or one with such a document as a value.
pub(crate) fn asks_more(value: &Value) -> bool
    ensures { result ≡ asks_more (out-Value value.now) }
{
    match value {
        Value::Doc(doc) => begins_with_operator(doc) || any_operators(doc.as_slice()),
        _ => false,
    }
}
