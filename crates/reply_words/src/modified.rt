ghost use Rattle.std.specs.Prelude.{◌≡◌, ◌++◌, ◌+◌, ◌-◌, ◌^◌, ◌≤◌, [], length, min, codes};
ghost use Rattle.std.specs.List.{flat_map};
ghost use Rattle.bson_spelling.specs.declared.form.Form.TheVariants.{Bson};
ghost use Rattle.bson_spelling.specs.Spelling.{element, element_of, held, spell};
ghost use Rattle.op_msg.specs.Limits.{MOST_REPLY};
ghost use Rattle.op_msg.specs.Reply.{reply};
ghost use Rattle.reply_words.specs.Replies.{count_of, shown, last_error, modified_document};
ghost use Rattle.reply_words.specs.Small.{IsShortId, IsShortDocument};
ghost use Rattle.reply_words.specs.Written.{update_elements, upserted_element};

use crate::elements::{close, open, put_bool, put_int, put_name, put_value};
use bson_spelling::{Form, content_len, put_document};
use bson_values::{Bytes, Document, Room, Value};
use case_tables::type_byte;
use op_msg::head;

/// The bytes of a document `{lastErrorObject: {n: ..}, value: .., ok: 1}` but for the value.
const LEAST_BYTES: u64 = 49;

/// The bytes of a field `updatedExisting`.
const EXISTING_BYTES: u64 = 18;

/// The bytes of a field `upserted` but for the `_id`.
const UPSERTED_BYTES: u64 = 10;

/// How many bytes `put_modified` appends at most, where the `_id` has at most 16,383 bytes and the document at most 16,777,216.
pub const MOST_MODIFIED_SIZE: u64 = 16_793_676;

fn count_of(existed: bool, upserted: &Option<Value>) -> u64
    ensures { result ≡ count_of existed upserted.now }
{
    if existed {
        return 1;
    }
    match upserted {
        None => 0,
        Some(_) => 1,
    }
}

/// Nothing, where no document was inserted.
#[tactic(auto, using(crate::proofs::Shown::upserted_told, crate::proofs::Shown::upserted_sized))]
fn put_upserted_id(upserted: &Option<Value>, out: &mut Room<u8>)
    requires room { length (upserted_element upserted.now) ≤ out.old.spare }
    ensures items { out.new.items ≡ out.old.items ++ upserted_element upserted.now }
    ensures spare { out.new.spare + length (upserted_element upserted.now) ≡ out.old.spare }
{
    match upserted {
        None => {}
        Some(id) => put_value("upserted", id, out),
    }
}

/// What a removal does not tell.
#[tactic(auto, using(crate::proofs::Shown::update_sized))]
fn put_update_told(removed: bool, existed: bool, upserted: &Option<Value>, out: &mut Room<u8>)
    requires room { length (update_elements removed existed upserted.now) ≤ out.old.spare }
    ensures items { out.new.items ≡ out.old.items ++ update_elements removed existed upserted.now }
    ensures spare { out.new.spare + length (update_elements removed existed upserted.now) ≡ out.old.spare }
{
    if removed {
        return;
    }
    put_bool("updatedExisting", existed, out);
    put_upserted_id(upserted, out);
}

#[tactic(auto, using(crate::proofs::Shown::error_fields_sized))]
fn put_error_fields(removed: bool, existed: bool, upserted: &Option<Value>, out: &mut Room<u8>)
    requires room { length (flat_map (element Bson) (last_error removed existed upserted.now)) ≤ out.old.spare }
    ensures items { out.new.items ≡ out.old.items ++ flat_map (element Bson) (last_error removed existed upserted.now) }
    ensures spare { out.new.spare + length (flat_map (element Bson) (last_error removed existed upserted.now)) ≡ out.old.spare }
{
    put_int("n", count_of(existed, upserted), out);
    put_update_told(removed, existed, upserted, out);
}

#[tactic(auto, using(bson_spelling::proofs::Sizes::lengths))]
fn put_last_error(removed: bool, existed: bool, upserted: &Option<Value>, out: &mut Room<u8>)
    requires room { length (spell (last_error removed existed upserted.now)) ≤ out.old.spare }
    ensures items { out.new.items ≡ out.old.items ++ spell (last_error removed existed upserted.now) }
    ensures spare { out.new.spare + length (spell (last_error removed existed upserted.now)) ≡ out.old.spare }
{
    let start = open(out);
    put_error_fields(removed, existed, upserted, out);
    close(start, out);
}

#[tactic(auto, using(bson_spelling::proofs::Sizes::lengths))]
fn put_last_error_field(removed: bool, existed: bool, upserted: &Option<Value>, out: &mut Room<u8>)
    requires room { length (element_of (codes "lastErrorObject") (3, spell (last_error removed existed upserted.now))) ≤ out.old.spare }
    ensures items { out.new.items
        ≡ out.old.items ++ element_of (codes "lastErrorObject") (3, spell (last_error removed existed upserted.now)) }
    ensures spare { out.new.spare + length (element_of (codes "lastErrorObject") (3, spell (last_error removed existed upserted.now)))
        ≡ out.old.spare }
{
    put_name(type_byte!(object), "lastErrorObject", out);
    put_last_error(removed, existed, upserted, out);
}

fn put_field_of(doc: &Document, out: &mut Room<u8>)
    requires room { length (spell doc.now) + 7 ≤ out.old.spare }
    ensures items { out.new.items ≡ out.old.items ++ element_of (codes "value") (3, spell doc.now) }
    ensures spare { out.new.spare + length (spell doc.now) + 7 ≡ out.old.spare }
{
    put_name(type_byte!(object), "value", out);
    put_document(Form::Bson, doc, out);
}

#[tactic(auto, using(crate::proofs::Shown::shown_held, crate::proofs::Shown::shown_sized))]
fn put_shown(value: &Option<Document>, out: &mut Room<u8>)
    requires room { length (element_of (codes "value") (held Bson (shown value.now))) ≤ out.old.spare }
    ensures items { out.new.items ≡ out.old.items ++ element_of (codes "value") (held Bson (shown value.now)) }
    ensures spare { out.new.spare + length (element_of (codes "value") (held Bson (shown value.now))) ≡ out.old.spare }
{
    match value {
        None => put_name(type_byte!(null), "value", out),
        Some(doc) => put_field_of(doc, out),
    }
}

#[tactic(auto, using(crate::proofs::Shown::fields_sized))]
fn put_fields(
    removed: bool,
    existed: bool,
    upserted: &Option<Value>,
    value: &Option<Document>,
    out: &mut Room<u8>,
)
    requires room { length (flat_map (element Bson) (modified_document removed existed upserted.now value.now)) ≤ out.old.spare }
    ensures items { out.new.items
        ≡ out.old.items ++ flat_map (element Bson) (modified_document removed existed upserted.now value.now) }
    ensures spare { out.new.spare + length (flat_map (element Bson) (modified_document removed existed upserted.now value.now))
        ≡ out.old.spare }
{
    put_last_error_field(removed, existed, upserted, out);
    put_shown(value, out);
    put_int("ok", 1, out);
}

/// Appends the document `{lastErrorObject: {n: .., updatedExisting: .., upserted: ..}, value: .., ok: 1}` that tells how findAndModify
/// ended, and takes no memory. `upserted`, the `_id` of a document that was inserted, is left out where none was; of a removal
/// `lastErrorObject` has `n` alone. `value` is the document that is shown, or null.
#[tactic(auto, using(bson_spelling::proofs::Sizes::lengths))]
pub fn put_modified(
    removed: bool,
    existed: bool,
    upserted: &Option<Value>,
    value: &Option<Document>,
    out: &mut Room<u8>,
)
    requires room { length (spell (modified_document removed existed upserted.now value.now)) ≤ out.old.spare }
    ensures items { out.new.items ≡ out.old.items ++ spell (modified_document removed existed upserted.now value.now) }
    ensures spare { out.new.spare + length (spell (modified_document removed existed upserted.now value.now)) ≡ out.old.spare }
{
    let start = open(out);
    put_fields(removed, existed, upserted, value, out);
    close(start, out);
}

#[tactic(auto, using(crate::proofs::Shown::upserted_sized))]
fn upserted_len(upserted: &Option<Value>) -> u64
    ensures { result ≡ min (length (upserted_element upserted.now)) (2 ^ 64 - 1) }
{
    match upserted {
        None => 0,
        Some(id) => content_len(Form::Bson, id).saturating_add(UPSERTED_BYTES),
    }
}

#[tactic(auto, using(crate::proofs::Shown::update_sized))]
fn update_len(removed: bool, existed: bool, upserted: &Option<Value>) -> u64
    ensures { result ≡ min (length (update_elements removed existed upserted.now)) (2 ^ 64 - 1) }
{
    if removed {
        return 0;
    }
    upserted_len(upserted).saturating_add(EXISTING_BYTES)
}

#[tactic(auto, using(crate::proofs::Shown::shown_measured))]
fn shown_len(value: &Option<Document>) -> u64
    ensures { result ≡ min (length (held Bson (shown value.now)).1) (2 ^ 64 - 1) }
{
    match value {
        None => 0,
        Some(doc) => doc.size(),
    }
}

/// How many bytes `put_modified` appends, or `u64::MAX` where they are more.
#[tactic(auto, using(crate::proofs::Shown::document_sized))]
pub fn modified_size(
    removed: bool,
    existed: bool,
    upserted: &Option<Value>,
    value: &Option<Document>,
) -> u64
    ensures size { result ≡ min (length (spell (modified_document removed existed upserted.now value.now))) (2 ^ 64 - 1) }
    ensures bound { IsShortId upserted.now → IsShortDocument value.now → result ≤ MOST_MODIFIED_SIZE }
{
    update_len(removed, existed, upserted)
        .saturating_add(shown_len(value))
        .saturating_add(LEAST_BYTES)
}

/// The bytes of the reply to OP_MSG with that document, as `op_msg::put_reply` gives them. It takes no memory: the room was made
/// before the change, with `MOST_MODIFIED_SIZE` and the 21 bytes before the document.
pub fn put_modified_reply(
    number: i32,
    request: i32,
    removed: bool,
    existed: bool,
    upserted: &Option<Value>,
    value: &Option<Document>,
    mut room: Room<u8>,
) -> Bytes
    requires small { length (spell (modified_document removed existed upserted.now value.now)) ≤ MOST_REPLY }
    requires empty { room.items ≡ [] }
    requires spare { 21 + length (spell (modified_document removed existed upserted.now value.now)) ≤ room.spare }
    ensures { result ≡ reply number request (modified_document removed existed upserted.now value.now) }
{
    room.extend_in(&head(
        number,
        request,
        modified_size(removed, existed, upserted, value),
    ));
    put_modified(removed, existed, upserted, value, &mut room);
    room.bytes()
}
