ghost use Rattle.std.specs.Prelude.{◌≡◌};
ghost use Rattle.std.specs.List.{list_any};
ghost use Rattle.bson_values.specs.declared.value.Value.TheViews.{out-Value};
ghost use Rattle.command_words.specs.Body.{documents_in, made_or, own_in};
ghost use Rattle.command_words.specs.Tables.{shape_of};
ghost use Rattle.command_words.specs.Told.{told, items_told};
ghost use Rattle.command_words.specs.Refusal.{value_refusal, field_refusal, sequence_refusal, takes_of};
ghost use Rattle.command_words.specs.Refusal.{fields_in, sequences_in, is_absent, is_lacking, are_unknown, has_unknown};

use crate::body::{behind, own_in, sequence_of};
use crate::items::{Items, are_unknown, items_in, items_lack, items_of, items_refusal};
use crate::tables::{Row, fields_of, own_of, takes_of};
use crate::takes::Takes;
use crate::values::{may_be_items, value_refusal};
use crate::word::Word;
use bson_values::{Document, Pair, Value};
use case_tables::{FIELD_OUT_OF_RANGE, Kind, WRONG_TYPE};
use op_msg::{Message, Sequence};

/// Why a field that takes this is refused with this value.
fn field_refusal(takes: Takes, value: &Value) -> Option<Kind>
    ensures { result ≡ field_refusal takes (out-Value value.now) }
{
    if let Some(kind) = value_refusal(takes, value) {
        return Some(kind);
    }
    items_refusal(takes, items_in(value))
}

/// Why a field that takes this is refused as a sequence of these.
fn sequence_refusal(takes: Takes, docs: &[Document]) -> Option<Kind>
    ensures { result ≡ sequence_refusal takes docs.now }
{
    match takes {
        Takes::Documents if may_be_items(docs.len()) => None,
        Takes::Items(_) if may_be_items(docs.len()) => items_refusal(takes, Items::Documents(docs)),
        Takes::Documents | Takes::Items(_) => Some(FIELD_OUT_OF_RANGE),
        Takes::Unknown => None,
        _ => Some(WRONG_TYPE),
    }
}

/// Why the value beside the command's name is refused.
pub(crate) fn own_refusal(word: Word, message: &Message) -> Option<Kind>
    ensures { result ≡ made_or None (value_refusal (shape_of word).own) (own_in message.now.body) }
{
    match own_in(message.body.as_slice()) {
        Some(value) => value_refusal(own_of(word), value),
        None => None,
    }
}

/// Why one of the fields is refused.
pub(crate) fn fields_refusal(word: Word, fields: &[Pair<Value>]) -> Option<Kind>
    ensures { result ≡ fields_in word fields.now }
{
    let mut rest = fields;
    while let [field, others @ ..] = rest {
        let takes = takes_of(word, field.name.as_str());
        if let Some(kind) = field_refusal(takes, &field.value) {
            return Some(kind);
        }
        rest = others;
    }
    None
}

/// Why one of the sequences is refused.
pub(crate) fn sequences_refusal(word: Word, sequences: &[Sequence]) -> Option<Kind>
    ensures { result ≡ sequences_in word sequences.now }
{
    let mut rest = sequences;
    while let [sequence, others @ ..] = rest {
        let takes = takes_of(word, sequence.name.as_str());
        if let Some(kind) = sequence_refusal(takes, sequence.docs.as_slice()) {
            return Some(kind);
        }
        rest = others;
    }
    None
}

fn is_absent(message: &Message, row: &Row) -> bool
    ensures { result ≡ is_absent message.now (told row.now) }
{
    row.required && message.body.get(row.name).is_none() && sequence_of(message, row.name).is_none()
}

fn is_lacking(message: &Message, row: &Row) -> bool
    ensures { result ≡ is_lacking message.now (told row.now) }
{
    is_absent(message, row) || items_lack(row.takes, items_of(message, row.name))
}

fn lacks_among(message: &Message, rows: &[Row]) -> bool
    ensures { result ≡ list_any (λ row. is_lacking message.now (told row)) rows.now }
{
    rows.iter().any(|row| is_lacking(message, row))
}

/// Whether the message or one of its items lacks a field that it has to have.
pub(crate) fn lacks(word: Word, message: &Message) -> bool
    ensures { result ≡ list_any (is_lacking message.now) (shape_of word).fields }
{
    lacks_among(message, fields_of(word))
}

fn any_field_unknown(word: Word, fields: &[Pair<Value>]) -> bool
    ensures { result ≡ list_any (λ it. are_unknown (takes_of word it.name) (documents_in (out-Value it.value))) fields.now }
{
    fields.iter().any(|field| are_unknown(
        takes_of(word, field.name.as_str()),
        items_in(&field.value),
    ))
}

fn any_sequence_unknown(word: Word, sequences: &[Sequence]) -> bool
    ensures { result ≡ list_any (λ it. are_unknown (takes_of word it.name) it.docs) sequences.now }
{
    sequences.iter().any(|sequence| are_unknown(
        takes_of(word, sequence.name.as_str()),
        Items::Documents(sequence.docs.as_slice()),
    ))
}

/// Whether a field behind the command's name, or a sequence, is none of the command's, or has an item with a field that is none of theirs.
pub(crate) fn has_unknown(word: Word, message: &Message) -> bool
    ensures { result ≡ has_unknown word message.now }
{
    any_field_unknown(word, behind(message.body.as_slice()))
        || any_sequence_unknown(word, message.sequences.as_slice())
}
