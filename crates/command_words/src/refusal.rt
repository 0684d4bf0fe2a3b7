ghost use Rattle.std.specs.Prelude.{◌≡◌, true, IfNone};
ghost use Rattle.std_words.specs.Reasons.{first};
ghost use Rattle.naming.specs.Names.{is_collection_name};
ghost use Rattle.command_words.specs.Body.{db_of, coll_of};
ghost use Rattle.command_words.specs.Refusal.{is_bad_modify, breaks_rule, field_reasons};
ghost use Rattle.command_words.specs.Told.{Asks};

use crate::body::{behind, coll_of, db_of, word_in};
use crate::fields::{self, has_unknown, lacks, own_refusal, sequences_refusal};
use crate::names::has_twice;
use crate::operands::truth_or;
use crate::refused::CommandRefused;
use crate::tables::is_free;
use crate::word::Word;
use bson_values::{Document, Value};
use case_tables::{
    BAD_UPDATE, FIELD_GIVEN_TWICE, FIELD_MISSING, INVALID_NAMESPACE, Kind, NO_SUCH_COMMAND,
    NOT_SUPPORTED, UNSUPPORTED_TYPE, WRONG_TYPE,
};
use naming::{is_collection_name, is_database_name};
use op_msg::Message;
use std::alloc::Global;

fn is_bad_modify(body: &Document) -> bool
    ensures { result ≡ is_bad_modify body.now }
{
    if truth_or(false, body, "remove") {
        body.get("update").is_some()
            || truth_or(false, body, "new")
            || truth_or(false, body, "upsert")
    } else {
        body.get("update").is_none()
    }
}

/// Whether the fields do not go together.
fn breaks_rule(word: Word, body: &Document) -> bool
    ensures { result ≡ breaks_rule word body.now }
{
    match word {
        Word::FindAndModify => is_bad_modify(body),
        _ => false,
    }
}

fn field_refusal(word: Word, message: &Message) -> Option<Kind>
    ensures value { result ≡ first (field_reasons word message.now) }
    ensures named { IfNone result (is_collection_name (db_of message.now) (coll_of message.now) ≡ true) }
{
    if let Some(kind) = own_refusal(word, message) {
        return Some(kind);
    }
    if let Some(kind) = fields::fields_refusal(word, behind(message.body.as_slice())) {
        return Some(kind);
    }
    if let Some(kind) = sequences_refusal(word, message.sequences.as_slice()) {
        return Some(kind);
    }
    if lacks(word, message) {
        return Some(FIELD_MISSING);
    }
    if !is_collection_name(db_of(message), coll_of(message)) {
        return Some(INVALID_NAMESPACE);
    }
    if has_unknown(word, message) {
        return Some(NOT_SUPPORTED);
    }
    if breaks_rule(word, &message.body) {
        return Some(BAD_UPDATE);
    }
    None
}

/// The command that the message asks for, or why its form is refused.
pub(crate) fn asked(alloc: Global, message: &Message) -> Result<Word, CommandRefused>
    ensures { Asks message.now result }
{
    if message.foreign.is_some() {
        return Err(CommandRefused::Refused(UNSUPPORTED_TYPE));
    }
    let Some(word) = word_in(message.body.as_slice()) else {
        return Err(CommandRefused::Refused(NO_SUCH_COMMAND));
    };
    if has_twice(alloc, message)? {
        return Err(CommandRefused::Refused(FIELD_GIVEN_TWICE));
    }
    let Some(db) = message.body.get("$db") else {
        return Err(CommandRefused::Refused(FIELD_MISSING));
    };
    let Value::Str(db) = db else {
        return Err(CommandRefused::Refused(WRONG_TYPE));
    };
    if !is_database_name(db.as_str()) {
        return Err(CommandRefused::Refused(INVALID_NAMESPACE));
    }
    if is_free(word) {
        return Ok(word);
    }
    match field_refusal(word, message) {
        Some(kind) => Err(CommandRefused::Refused(kind)),
        None => Ok(word),
    }
}
