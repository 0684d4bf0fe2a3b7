ghost use Rattle.std.specs.Prelude.{◌≡◌, ◌++◌, ◌+◌, ◌≤◌, [], length};
ghost use Rattle.std.specs.List.{flat_map};
ghost use Rattle.bson_spelling.specs.declared.form.Form.TheVariants.{Bson};
ghost use Rattle.bson_spelling.specs.Spelling.{element, spell};
ghost use Rattle.op_msg.specs.Limits.{MOST_REPLY};
ghost use Rattle.op_msg.specs.Reply.{reply};
ghost use Rattle.reply_words.specs.Replies.{items_document};
ghost use Rattle.reply_words.specs.Written.{changes_elements};

use crate::arrays::put_listing;
use crate::elements::{close, open, put_int, put_number};
use crate::ends::{ItemEnd, Tally, total};
use crate::listing::Listing;
use crate::sizes::items_size;
use bson_values::{Bytes, Room};
use op_msg::head;

/// What an update tells besides.
#[tactic(auto, using(crate::proofs::Ended::changes_counted))]
fn put_changes(update: bool, ends: &[ItemEnd], out: &mut Room<u8>)
    requires room { length (changes_elements update ends.now) ≤ out.old.spare }
    ensures items { out.new.items ≡ out.old.items ++ changes_elements update ends.now }
    ensures spare { out.new.spare + length (changes_elements update ends.now) ≡ out.old.spare }
{
    if update {
        put_number("nModified", total(Tally::Changed, ends), out);
        put_listing(Listing::Upserted, ends, out);
    }
}

#[tactic(auto, using(crate::proofs::Ended::fields_sized))]
fn put_fields(update: bool, ends: &[ItemEnd], out: &mut Room<u8>)
    requires room { length (flat_map (element Bson) (items_document update ends.now)) ≤ out.old.spare }
    ensures items { out.new.items ≡ out.old.items ++ flat_map (element Bson) (items_document update ends.now) }
    ensures spare { out.new.spare + length (flat_map (element Bson) (items_document update ends.now)) ≡ out.old.spare }
{
    put_number("n", total(Tally::Done, ends), out);
    put_changes(update, ends, out);
    put_listing(Listing::Errors, ends, out);
    put_int("ok", 1, out);
}

/// Appends the document that tells how the items of a write ended, and takes no memory: `{n: .., writeErrors: [..], ok: 1}`, and of an
/// update `{n: .., nModified: .., upserted: [..], writeErrors: [..], ok: 1}`. An array that would have no items is left out. Of a
/// length, a place or an `index` of 2^31 or more it has the low four bytes: a caller who wants BSON has fewer.
#[tactic(auto, using(bson_spelling::proofs::Sizes::lengths))]
pub fn put_items(update: bool, ends: &[ItemEnd], out: &mut Room<u8>)
    requires room { length (spell (items_document update ends.now)) ≤ out.old.spare }
    ensures items { out.new.items ≡ out.old.items ++ spell (items_document update ends.now) }
    ensures spare { out.new.spare + length (spell (items_document update ends.now)) ≡ out.old.spare }
{
    let start = open(out);
    put_fields(update, ends, out);
    close(start, out);
}

/// The bytes of the reply to OP_MSG with that document, as `op_msg::put_reply` gives them. It takes no memory: the room was made
/// before the first item, with `most_items_size` and the 21 bytes before the document.
pub fn put_items_reply(
    number: i32,
    request: i32,
    update: bool,
    ends: &[ItemEnd],
    mut room: Room<u8>,
) -> Bytes
    requires small { length (spell (items_document update ends.now)) ≤ MOST_REPLY }
    requires empty { room.items ≡ [] }
    requires spare { 21 + length (spell (items_document update ends.now)) ≤ room.spare }
    ensures { result ≡ reply number request (items_document update ends.now) }
{
    room.extend_in(&head(number, request, items_size(update, ends)));
    put_items(update, ends, &mut room);
    room.bytes()
}
