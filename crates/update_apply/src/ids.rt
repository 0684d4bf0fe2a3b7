ghost use Rattle.std.specs.Prelude.{◌≡◌, ◌<◌, ◌≤◌, ◌+◌, ◌++◌, length, take, drop, IfOk, OnOk, Some, ◌∷◌, [], codes};
ghost use Rattle.std.specs.Option.{option_copied};
ghost use Rattle.update_apply.specs.Answers.{Gives};
ghost use Rattle.update_syntax.specs.After.{bad_id, keeps_id, may_name, not_stored, refused, replaced, with_id};
ghost use Rattle.bson_values.specs.Storable.{storable};
ghost use Rattle.doc_paths.specs.Changes.{taken};

use crate::refused::ApplyRefused;
use bson_order::same;
use bson_spelling::{Form, content_len};
use bson_values::{Document, List, NoMemory, Pair, Text, Unstorable, Value, storable};
use case_tables::{BAD_ID, DOCUMENT_TOO_LARGE, ID_CANNOT_CHANGE, Kind, NOT_STORABLE};
use naming::can_be_id;
use std::alloc::Global;

/// The most bytes of the key of an `_id` that an update puts.
const MOST_KEY: u64 = 16_384;

// ---- replacements

fn keeps_id(old: Option<&Value>, id: Option<&Value>) -> bool
    ensures { result ≡ keeps_id (option_copied old.entry) (option_copied id.entry) }
{
    let Some(old) = old else {
        return true;
    };
    match id {
        Some(id) => same(id, old),
        None => false,
    }
}

fn may_name(old: Option<&Value>, id: Option<&Value>) -> bool
    ensures { result ≡ may_name (option_copied old.entry) (option_copied id.entry) }
{
    match id {
        Some(_) => keeps_id(old, id),
        None => true,
    }
}

fn before(pairs: &[Pair<Value>], place: usize) -> &[Pair<Value>]
    requires { place ≤ length pairs.now }
    ensures { result.now ≡ take place pairs.now }
{
    &pairs[..place]
}

fn behind(pairs: &[Pair<Value>], place: usize) -> &[Pair<Value>]
    requires { place ≤ length pairs.now }
    ensures { result.now ≡ drop place pairs.now }
{
    &pairs[place..]
}

fn add_pair(
    alloc: Global,
    name: &Text,
    value: &Value,
    out: &mut List<Pair<Value>>,
) -> Result<(), NoMemory>
    ensures { OnOk result (out.new ≡ out.old ++ (record { name = name.now; value = value.now }) ∷ []) }
{
    let name = name.copy(alloc)?;
    let value = value.copy(alloc)?;
    out.add(Pair { name, value })
}

fn add_pairs(
    alloc: Global,
    pairs: &[Pair<Value>],
    out: &mut List<Pair<Value>>,
) -> Result<(), NoMemory>
    ensures { OnOk result (out.new ≡ out.old ++ pairs.now) }
{
    for pair in pairs {
        add_pair(alloc, &pair.name, &pair.value, out)?;
    }
    Ok(())
}

/// Adds the fields before a place, and those behind it.
fn add_around(
    alloc: Global,
    doc: &Document,
    place: usize,
    out: &mut List<Pair<Value>>,
) -> Result<(), NoMemory>
    requires { place < length doc.now }
    ensures { OnOk result (out.new ≡ out.old ++ (take place doc.now ++ drop (place + 1) doc.now)) }
{
    let pairs = doc.as_slice();
    add_pairs(alloc, before(pairs, place), out)?;
    add_pairs(alloc, behind(pairs, place + 1), out)
}

/// Adds all fields but the first `_id`.
fn add_others(alloc: Global, doc: &Document, out: &mut List<Pair<Value>>) -> Result<(), NoMemory>
    ensures { OnOk result (out.new ≡ out.old ++ taken (codes "_id" ∷ []) doc.now) }
{
    match doc.place("_id") {
        Some(place) => add_around(alloc, doc, place, out),
        None => add_pairs(alloc, doc.as_slice(), out),
    }
}

/// The document with that `_id` first, and without the one that it names.
fn with_id(alloc: Global, id: &Value, doc: &Document) -> Result<Document, NoMemory>
    ensures { IfOk result (λ made. made ≡ with_id (Some id.now) doc.now) }
{
    let name = Text::of(alloc, "_id")?;
    let mut pairs = List::new(alloc);
    add_pair(alloc, &name, id, &mut pairs)?;
    add_others(alloc, doc, &mut pairs)?;
    Document::of(alloc, pairs)
}

/// A replacement: the old `_id` stays, and goes first.
#[tactic(auto, unfolding(update_syntax::specs::After::replaced))]
pub(crate) fn replaced(
    alloc: Global,
    new: &Document,
    doc: &Document,
) -> Result<Document, ApplyRefused>
    ensures { Gives result (replaced new.now doc.now) }
{
    let old = doc.get("_id");
    let named = new.get("_id");
    if !may_name(old, named) {
        return Err(ApplyRefused::Refused(ID_CANNOT_CHANGE));
    }
    match old {
        Some(id) => Ok(with_id(alloc, id, new)?),
        None => match named {
            Some(id) => Ok(with_id(alloc, id, new)?),
            None => Ok(new.copy(alloc)?),
        },
    }
}

// ---- results that are refused

fn bad_id(id: Option<&Value>) -> Option<Kind>
    ensures { result ≡ bad_id (option_copied id.entry) }
{
    let id = id?;
    if !can_be_id(id) {
        return Some(BAD_ID);
    }
    // The type byte is not counted.
    if content_len(Form::Key, id) >= MOST_KEY {
        return Some(DOCUMENT_TOO_LARGE);
    }
    None
}

fn not_stored(doc: &Document) -> Option<Kind>
    ensures { result ≡ not_stored (storable doc.now) }
{
    match storable(doc) {
        Ok(()) => None,
        Err(Unstorable::TooLarge) => Some(DOCUMENT_TOO_LARGE),
        Err(_) => Some(NOT_STORABLE),
    }
}

/// What is wrong with the document that an update made of another.
#[tactic(auto, unfolding(update_syntax::specs::After::refused))]
pub(crate) fn refused(inserting: bool, old: &Document, new: &Document) -> Option<Kind>
    ensures { result ≡ refused inserting old.now new.now }
{
    let id = new.get("_id");
    if inserting {
        if let Some(kind) = bad_id(id) {
            return Some(kind);
        }
    }
    if !keeps_id(old.get("_id"), id) {
        return Some(ID_CANNOT_CHANGE);
    }
    if inserting {
        return None;
    }
    not_stored(new)
}
