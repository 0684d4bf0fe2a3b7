ghost use Rattle.std.specs.Prelude.{◌≡◌, ◌++◌, ◌+◌, ◌-◌, ◌^◌, ◌<◌, ◌≤◌, [], length};
ghost use Rattle.std.specs.Fmt.{decimal};
ghost use Rattle.std.specs.List.{flat_map};
ghost use Rattle.bson_spelling.specs.declared.form.Form.TheVariants.{Bson};
ghost use Rattle.bson_spelling.specs.Spelling.{element, element_of, enclosed, spell};
ghost use Rattle.reply_words.specs.declared.listing.Listing.TheVariants.{Errors, Upserted};
ghost use Rattle.reply_words.specs.Replies.{item_error, item_upserted};
ghost use Rattle.reply_words.specs.Written.{listing_items, end_items, listing_element};

use crate::elements::{close, open, put_int, put_name, put_text, put_value};
use crate::ends::ItemEnd;
use crate::listing::{Listing, name_of, told_count};
use crate::sizes::listing_len;
use bson_values::{Room, Value};
use case_tables::{Kind, code_of, text_of, type_byte};
use itoa::Buffer;

#[tactic(auto, using(crate::proofs::Listed::error_fields_sized))]
fn put_error_fields(index: u64, kind: Kind, out: &mut Room<u8>)
    requires room { length (flat_map (element Bson) (item_error index kind)) ≤ out.old.spare }
    ensures items { out.new.items ≡ out.old.items ++ flat_map (element Bson) (item_error index kind) }
    ensures spare { out.new.spare + length (flat_map (element Bson) (item_error index kind)) ≡ out.old.spare }
{
    put_int("index", index, out);
    put_int("code", u64::from(code_of(kind)), out);
    put_text("errmsg", text_of(kind), out);
}

#[tactic(auto, using(bson_spelling::proofs::Sizes::lengths))]
fn put_error_document(index: u64, kind: Kind, out: &mut Room<u8>)
    requires room { length (spell (item_error index kind)) ≤ out.old.spare }
    ensures items { out.new.items ≡ out.old.items ++ spell (item_error index kind) }
    ensures spare { out.new.spare + length (spell (item_error index kind)) ≡ out.old.spare }
{
    let start = open(out);
    put_error_fields(index, kind, out);
    close(start, out);
}

/// The error of the item `index`, as the item of the array that stands at `place`.
#[tactic(auto, using(bson_spelling::proofs::Sizes::lengths))]
fn put_error(place: u64, index: u64, kind: Kind, out: &mut Room<u8>)
    requires room { length (element_of (decimal place) (3, spell (item_error index kind))) ≤ out.old.spare }
    ensures items { out.new.items ≡ out.old.items ++ element_of (decimal place) (3, spell (item_error index kind)) }
    ensures spare { out.new.spare + length (element_of (decimal place) (3, spell (item_error index kind))) ≡ out.old.spare }
{
    let mut buffer = Buffer::new();
    put_name(type_byte!(object), buffer.format(place), out);
    put_error_document(index, kind, out);
}

#[tactic(auto, using(crate::proofs::Listed::upserted_fields_sized))]
fn put_upserted_fields(index: u64, id: &Value, out: &mut Room<u8>)
    requires room { length (flat_map (element Bson) (item_upserted index id.now)) ≤ out.old.spare }
    ensures items { out.new.items ≡ out.old.items ++ flat_map (element Bson) (item_upserted index id.now) }
    ensures spare { out.new.spare + length (flat_map (element Bson) (item_upserted index id.now)) ≡ out.old.spare }
{
    put_int("index", index, out);
    put_value("_id", id, out);
}

#[tactic(auto, using(bson_spelling::proofs::Sizes::lengths))]
fn put_upserted_document(index: u64, id: &Value, out: &mut Room<u8>)
    requires room { length (spell (item_upserted index id.now)) ≤ out.old.spare }
    ensures items { out.new.items ≡ out.old.items ++ spell (item_upserted index id.now) }
    ensures spare { out.new.spare + length (spell (item_upserted index id.now)) ≡ out.old.spare }
{
    let start = open(out);
    put_upserted_fields(index, id, out);
    close(start, out);
}

/// The document that the item `index` inserted, as the item of the array that stands at `place`.
#[tactic(auto, using(bson_spelling::proofs::Sizes::lengths))]
fn put_upserted(place: u64, index: u64, id: &Value, out: &mut Room<u8>)
    requires room { length (element_of (decimal place) (3, spell (item_upserted index id.now))) ≤ out.old.spare }
    ensures items { out.new.items ≡ out.old.items ++ element_of (decimal place) (3, spell (item_upserted index id.now)) }
    ensures spare { out.new.spare + length (element_of (decimal place) (3, spell (item_upserted index id.now))) ≡ out.old.spare }
{
    let mut buffer = Buffer::new();
    put_name(type_byte!(object), buffer.format(place), out);
    put_upserted_document(index, id, out);
}

fn put_error_end(place: u64, index: u64, end: &ItemEnd, out: &mut Room<u8>)
    requires room { length (end_items Errors place index end.now) ≤ out.old.spare }
    ensures items { out.new.items ≡ out.old.items ++ end_items Errors place index end.now }
    ensures spare { out.new.spare + length (end_items Errors place index end.now) ≡ out.old.spare }
{
    if let ItemEnd::Refused(kind) = end {
        put_error(place, index, *kind, out);
    }
}

fn put_upserted_end(place: u64, index: u64, end: &ItemEnd, out: &mut Room<u8>)
    requires room { length (end_items Upserted place index end.now) ≤ out.old.spare }
    ensures items { out.new.items ≡ out.old.items ++ end_items Upserted place index end.now }
    ensures spare { out.new.spare + length (end_items Upserted place index end.now) ≡ out.old.spare }
{
    if let ItemEnd::Done {
        upserted: Some(id),
        ..
    } = end
    {
        put_upserted(place, index, id, out);
    }
}

/// What one end adds to the array.
fn put_end(listing: Listing, place: u64, index: u64, end: &ItemEnd, out: &mut Room<u8>)
    requires room { length (end_items listing place index end.now) ≤ out.old.spare }
    ensures items { out.new.items ≡ out.old.items ++ end_items listing place index end.now }
    ensures spare { out.new.spare + length (end_items listing place index end.now) ≡ out.old.spare }
{
    match listing {
        Listing::Errors => put_error_end(place, index, end, out),
        Listing::Upserted => put_upserted_end(place, index, end, out),
    }
}

fn put_ends(listing: Listing, ends: &[ItemEnd], out: &mut Room<u8>)
    requires room { length (listing_items listing 0 0 ends.now) ≤ out.old.spare }
    ensures items { out.new.items ≡ out.old.items ++ listing_items listing 0 0 ends.now }
    ensures spare { out.new.spare + length (listing_items listing 0 0 ends.now) ≡ out.old.spare }
{
    let mut place = 0;
    let mut index = 0;
    for end in ends {
        put_end(listing, place, index, end, out);
        place += told_count(listing, end);
        index += 1;
    }
}

#[tactic(auto, using(bson_spelling::proofs::Sizes::lengths))]
fn put_array(listing: Listing, ends: &[ItemEnd], out: &mut Room<u8>)
    requires room { length (enclosed Bson (listing_items listing 0 0 ends.now)) ≤ out.old.spare }
    ensures items { out.new.items ≡ out.old.items ++ enclosed Bson (listing_items listing 0 0 ends.now) }
    ensures spare { out.new.spare + length (enclosed Bson (listing_items listing 0 0 ends.now)) ≡ out.old.spare }
{
    let start = open(out);
    put_ends(listing, ends, out);
    close(start, out);
}

/// Nothing, where the array has no items.
#[tactic(auto, using(crate::proofs::Listed::told_sized, bson_spelling::proofs::Sizes::lengths))]
pub(crate) fn put_listing(listing: Listing, ends: &[ItemEnd], out: &mut Room<u8>)
    requires room { length (listing_element listing ends.now) ≤ out.old.spare }
    ensures items { out.new.items ≡ out.old.items ++ listing_element listing ends.now }
    ensures spare { out.new.spare + length (listing_element listing ends.now) ≡ out.old.spare }
{
    if listing_len(listing, ends) > 0 {
        put_name(type_byte!(array), name_of(listing), out);
        put_array(listing, ends, out);
    }
}
