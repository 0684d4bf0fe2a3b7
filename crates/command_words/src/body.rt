ghost use Rattle.std.specs.Prelude.{◌≡◌, [], drop};
ghost use Rattle.std.specs.Option.{option_copied};
ghost use Rattle.command_words.specs.Body.{own_in, made_or, text_of, sequence_of, word_in, db_of, coll_of};

use crate::tables::word_of;
use crate::values::text_of;
use crate::word::Word;
use bson_values::{Document, List, Pair, Value};
use op_msg::Message;

/// The command that the first field names.
pub(crate) fn word_in(fields: &[Pair<Value>]) -> Option<Word>
    ensures { result ≡ word_in fields.now }
{
    match fields {
        [field, ..] => word_of(field.name.as_str()),
        [] => None,
    }
}

/// The value that stands beside the command's name.
pub(crate) fn own_in(fields: &[Pair<Value>]) -> Option<&Value>
    ensures { option_copied result ≡ own_in fields.now }
{
    match fields {
        [field, ..] => Some(&field.value),
        [] => None,
    }
}

/// The fields behind the command's name.
pub(crate) fn behind(fields: &[Pair<Value>]) -> &[Pair<Value>]
    ensures { result.now ≡ drop 1 fields.now }
{
    match fields {
        [_, others @ ..] => others,
        [] => fields,
    }
}

/// The text, or an empty one.
fn text_or_none(value: Option<&Value>) -> &str
    ensures { result.now ≡ made_or [] text_of (option_copied value.entry) }
{
    match value {
        Some(value) => text_of(value),
        None => "",
    }
}

/// The name of the database.
pub(crate) fn db_of(message: &Message) -> &str
    ensures { result.now ≡ db_of message.now }
{
    text_or_none(message.body.get("$db"))
}

/// The name of the collection that stands beside the command's name.
pub(crate) fn coll_of(message: &Message) -> &str
    ensures { result.now ≡ coll_of message.now }
{
    text_or_none(own_in(message.body.as_slice()))
}

/// The documents of the sequence of that name.
pub(crate) fn sequence_of<'a>(message: &'a Message, name: &str) -> Option<&'a List<Document>>
    ensures { option_copied result ≡ sequence_of message.now.sequences name.now }
{
    message
        .sequences
        .as_slice()
        .iter()
        .find(|sequence| sequence.name.as_str() == name)
        .map(|sequence| &sequence.docs)
}
