ghost use Rattle.std.specs.Prelude.{◌≡◌, ◌∷◌, [], MatchOption};
ghost use Rattle.std.specs.List.{list_any};
ghost use Rattle.std.specs.Option.{option_copied};
ghost use Rattle.bson_values.specs.Names.{first_of};
ghost use Rattle.bson_values.specs.declared.value.Value.TheViews.{out-Value};
ghost use Rattle.command_words.specs.Body.{documents_in, documents_of};
ghost use Rattle.command_words.specs.Told.{told, items_told};
ghost use Rattle.command_words.specs.Refusal.{is_unknown, item_refusal, items_refusal, is_absent_in, item_lacks, items_lack};
ghost use Rattle.command_words.specs.Refusal.{item_has_unknown, are_unknown};

use crate::body::sequence_of;
use crate::tables::{Row, item_fields, item_takes};
use crate::takes::{Item, Takes};
use crate::values::{pairs_of, value_refusal};
use bson_values::{Document, Pair, Value};
use case_tables::Kind;
use op_msg::Message;

/// Items of a command, as they lie in an array or in a sequence.
#[derive(Clone, Copy)]
pub(crate) enum Items<'a> {
    Array(&'a [Value]),
    Documents(&'a [Document]),
}

/// The fields of the first item, and the other items.
fn split<'a>(items: Items<'a>) -> Option<(&'a [Pair<Value>], Items<'a>)>
    ensures { MatchOption result (items_told items.entry ≡ []) (λ it. items_told items.entry ≡ it.0.now ∷ items_told it.1) }
{
    match items {
        Items::Array([value, others @ ..]) => Some((pairs_of(value), Items::Array(others))),
        Items::Documents([document, others @ ..]) => {
            Some((document.as_slice(), Items::Documents(others)))
        }
        Items::Array([]) => None,
        Items::Documents([]) => None,
    }
}

/// The items in the array that the value is.
pub(crate) fn items_in(value: &Value) -> Items<'_>
    ensures { items_told result ≡ documents_in (out-Value value.now) }
{
    match value {
        Value::Arr(values) => Items::Array(values.as_slice()),
        _ => Items::Array(&[]),
    }
}

/// The items of that name, in a field or in a sequence.
pub(crate) fn items_of<'a>(message: &'a Message, name: &str) -> Items<'a>
    ensures { items_told result ≡ documents_of message.now name.now }
{
    match message.body.get(name) {
        Some(value) => items_in(value),
        None => match sequence_of(message, name) {
            Some(docs) => Items::Documents(docs.as_slice()),
            None => Items::Array(&[]),
        },
    }
}

// ---- what is in an item

fn value_in<'a>(fields: &'a [Pair<Value>], name: &str) -> Option<&'a Value>
    ensures { option_copied result ≡ first_of name.now fields.now }
{
    fields
        .iter()
        .find(|field| field.name.as_str() == name)
        .map(|field| &field.value)
}

fn is_unknown(takes: Takes) -> bool
    ensures { result ≡ is_unknown takes }
{
    matches!(takes, Takes::Unknown)
}

fn item_refusal(item: Item, fields: &[Pair<Value>]) -> Option<Kind>
    ensures { result ≡ item_refusal item fields.now }
{
    let mut rest = fields;
    while let [field, others @ ..] = rest {
        let takes = item_takes(item, field.name.as_str());
        if let Some(kind) = value_refusal(takes, &field.value) {
            return Some(kind);
        }
        rest = others;
    }
    None
}

fn lacks_among(rows: &[Row], fields: &[Pair<Value>]) -> bool
    ensures { result ≡ list_any (λ row. is_absent_in fields.now (told row)) rows.now }
{
    rows.iter()
        .any(|row| row.required && value_in(fields, row.name).is_none())
}

fn item_lacks(item: Item, fields: &[Pair<Value>]) -> bool
    ensures { result ≡ item_lacks item fields.now }
{
    lacks_among(item_fields(item), fields)
}

fn item_has_unknown(item: Item, fields: &[Pair<Value>]) -> bool
    ensures { result ≡ item_has_unknown item fields.now }
{
    fields
        .iter()
        .any(|field| is_unknown(item_takes(item, field.name.as_str())))
}

// ---- what is in all items

/// Why one of the items of a field that takes this is refused.
pub(crate) fn items_refusal(takes: Takes, items: Items<'_>) -> Option<Kind>
    ensures { result ≡ items_refusal takes (items_told items.entry) }
{
    let Takes::Items(item) = takes else {
        return None;
    };
    let mut rest = items;
    while let Some((fields, others)) = split(rest) {
        if let Some(kind) = item_refusal(item, fields) {
            return Some(kind);
        }
        rest = others;
    }
    None
}

/// Whether one of the items lacks a field that it has to have.
pub(crate) fn items_lack(takes: Takes, items: Items<'_>) -> bool
    ensures { result ≡ items_lack takes (items_told items.entry) }
{
    let Takes::Items(item) = takes else {
        return false;
    };
    let mut rest = items;
    while let Some((fields, others)) = split(rest) {
        if item_lacks(item, fields) {
            return true;
        }
        rest = others;
    }
    false
}

/// Whether there is no field that takes this, or one of the items has a field that is none of theirs.
pub(crate) fn are_unknown(takes: Takes, items: Items<'_>) -> bool
    ensures { result ≡ are_unknown takes (items_told items.entry) }
{
    let Takes::Items(item) = takes else {
        return is_unknown(takes);
    };
    let mut rest = items;
    while let Some((fields, others)) = split(rest) {
        if item_has_unknown(item, fields) {
            return true;
        }
        rest = others;
    }
    false
}
