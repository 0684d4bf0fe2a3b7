ghost use Rattle.std.specs.Prelude.{◌≡◌, ◌≤◌, ◌+◌, ◌-◌, ◌^◌, min, true, length};
ghost use Rattle.std.specs.Fmt.{decimal};
ghost use Rattle.bson_spelling.specs.declared.form.Form.TheVariants.{Bson};
ghost use Rattle.bson_spelling.specs.Spelling.{held, spell};
ghost use Rattle.case_tables.specs.Refusals.{text_of};
ghost use Rattle.reply_words.specs.declared.listing.Listing.TheVariants.{Errors, Upserted};
ghost use Rattle.reply_words.specs.Replies.{number, items_document};
ghost use Rattle.reply_words.specs.Small.{AreShort, MOST_ITEMS, most_items_size};
ghost use Rattle.reply_words.specs.Written.{changes_elements, end_items, listing_element, listing_items};

use crate::ends::{ItemEnd, Tally, total};
use crate::listing::{Listing, name_of, told_count};
use bson_spelling::{Form, content_len};
use bson_values::Value;
use case_tables::{Kind, text_of};
use itoa::Buffer;

/// The bytes of an error but for its place in the array and its sentence: `{index: .., code: .., errmsg: ..}`.
const ERROR_BYTES: u64 = 41;

/// The bytes of an item `{index: .., _id: ..}` but for its place in the array and the `_id`.
const UPSERTED_BYTES: u64 = 23;

/// The bytes of a field with an array but for its name and its items.
const ARRAY_BYTES: u64 = 7;

/// The bytes of a field `nModified` but for the count.
const CHANGED_BYTES: u64 = 11;

/// The most bytes of a document `{n: .., ok: 1}`.
const LEAST_ROOM: u64 = 42;

/// The most bytes of an error in one of the first 1,000 places.
const ROOM_OF_ERROR: u64 = 94;

/// The most bytes of a document `{n: .., nModified: .., upserted: [..], writeErrors: [..], ok: 1}` but for its items.
const LEAST_ROOM_OF_UPDATE: u64 = 76;

/// The most bytes of an item `{index: .., _id: ..}` in one of the first 1,000 places, with an `_id` of at most 16,383.
const ROOM_OF_UPSERTED: u64 = 16_409;

fn place_len(place: u64) -> u64
    ensures value { result ≡ length (decimal place) }
    ensures few { result ≤ 20 }
{
    let mut buffer = Buffer::new();
    buffer.format(place).len() as u64
}

#[tactic(auto, using(crate::proofs::Listed::end_sized))]
fn error_len(place: u64, end: &ItemEnd) -> u64
    ensures { result ≡ min (length (end_items Errors place 0 end.now)) (2 ^ 64 - 1) }
{
    match end {
        ItemEnd::Done { .. } => 0,
        ItemEnd::Refused(kind) => place_len(place) + text_of(*kind).len() as u64 + ERROR_BYTES,
    }
}

#[tactic(auto, using(crate::proofs::Listed::end_sized))]
fn upserted_len(place: u64, end: &ItemEnd) -> u64
    ensures { result ≡ min (length (end_items Upserted place 0 end.now)) (2 ^ 64 - 1) }
{
    match end {
        ItemEnd::Done { upserted, .. } => match upserted {
            None => 0,
            Some(id) => content_len(Form::Bson, id).saturating_add(
                place_len(place) + UPSERTED_BYTES,
            ),
        },
        ItemEnd::Refused(_) => 0,
    }
}

/// The bytes that one end adds to the array, wherever it stands among the ends.
fn end_len(listing: Listing, place: u64, end: &ItemEnd) -> u64
    ensures { result ≡ min (length (end_items listing place 0 end.now)) (2 ^ 64 - 1) }
{
    match listing {
        Listing::Errors => error_len(place, end),
        Listing::Upserted => upserted_len(place, end),
    }
}

/// The bytes of all items of the array, or `u64::MAX` where they are more.
pub(crate) fn listing_len(listing: Listing, ends: &[ItemEnd]) -> u64
    ensures { result ≡ min (length (listing_items listing 0 0 ends.now)) (2 ^ 64 - 1) }
{
    let mut total = 0u64;
    let mut place = 0u64;
    let mut rest = ends;
    while let [end, others @ ..] = rest {
        total = total.saturating_add(end_len(listing, place, end));
        place += told_count(listing, end);
        rest = others;
    }
    total
}

#[tactic(auto, using(crate::proofs::Listed::told_sized))]
fn listing_element_len(listing: Listing, ends: &[ItemEnd]) -> u64
    ensures { result ≡ min (length (listing_element listing ends.now)) (2 ^ 64 - 1) }
{
    match listing_len(listing, ends) {
        0 => 0,
        len => len.saturating_add(name_of(listing).len() as u64 + ARRAY_BYTES),
    }
}

/// The bytes of a count behind its name.
#[tactic(auto, using(crate::proofs::Ended::counts_sized))]
fn number_len(n: u64) -> u64
    ensures value { result ≡ length (held Bson (number n)).1 }
    ensures few { result ≤ 8 }
{
    if n < 1 << 31 { 4 } else { 8 }
}

#[tactic(auto, using(crate::proofs::Ended::changes_sized))]
fn changes_len(update: bool, ends: &[ItemEnd]) -> u64
    ensures { result ≡ min (length (changes_elements update ends.now)) (2 ^ 64 - 1) }
{
    if !update {
        return 0;
    }
    let count = number_len(total(Tally::Changed, ends)) + CHANGED_BYTES;
    listing_element_len(Listing::Upserted, ends).saturating_add(count)
}

/// How many bytes `put_items` appends, or `u64::MAX` where they are more.
#[tactic(auto, using(crate::proofs::Ended::document_sized, crate::proofs::Ended::number_last))]
pub fn items_size(update: bool, ends: &[ItemEnd]) -> u64
    ensures value { result ≡ min (length (spell (items_document update ends.now))) (2 ^ 64 - 1) }
    ensures bound { length ends.now ≤ MOST_ITEMS → (update ≡ true → AreShort ends.now) → result ≤ most_items_size update (length ends.now) }
{
    let count = number_len(total(Tally::Done, ends)) + 16;
    listing_element_len(Listing::Errors, ends)
        .saturating_add(changes_len(update, ends))
        .saturating_add(count)
}

/// How many bytes `put_items` appends at most for so many items, where each `_id` that it tells has at most 16,383 bytes.
pub fn most_items_size(update: bool, items: u64) -> u64
    requires { items ≤ MOST_ITEMS }
    ensures { result ≡ most_items_size update items }
{
    if update {
        LEAST_ROOM_OF_UPDATE + ROOM_OF_UPSERTED * items
    } else {
        LEAST_ROOM + ROOM_OF_ERROR * items
    }
}
