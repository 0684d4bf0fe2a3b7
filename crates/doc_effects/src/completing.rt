ghost use Rattle.std.specs.Prelude.{◌≡◌, ◌∷◌, ◌++◌, [], codes, None, Ok, IfErr, IfNone, IfOk, OnOk};
ghost use Rattle.bson_values.specs.Names.{first_of};
ghost use Rattle.bson_values.specs.Storable.{storable};
ghost use Rattle.bson_values.specs.declared.value.Value.TheViews.{out-Value};
ghost use Rattle.doc_model.specs.Insert.{completed, generated, id_of, not_stored, unstored};
ghost use Rattle.doc_effects.specs.Replies.{Declines};
ghost use Rattle.doc_effects.specs.Rows.{IsRowFor};

use crate::rows::row_for;
use bson_values::{Document, NoMemory, Pair, Text, Unstorable, Value, storable};
use byteorder::{BigEndian, ByteOrder};
use case_tables::{BAD_ID, DOCUMENT_TOO_LARGE, Kind, NOT_STORABLE};
use doc_model::OpReply;
use history_lock::Who;
use naming::can_be_id;
use std::alloc::Global;
use table_rows::Row;

/// The ObjectId of an operation: the seconds of its moment (4 bytes), the number of its seat (2), its connection (3) and itself (3).
fn generated(who: Who, now: u64) -> [u8; 12]
    ensures { result ≡ generated who now }
{
    let mut id = [0; 12];
    BigEndian::write_u32(&mut id, (now / 1000 % (1 << 32)) as u32);
    BigEndian::write_u16(&mut id[4..], (who.seat % (1 << 16)) as u16);
    BigEndian::write_u24(&mut id[6..], (who.link % (1 << 24)) as u32);
    BigEndian::write_u24(&mut id[9..], (who.op % (1 << 24)) as u32);
    id
}

/// Adds a field last.
fn add(doc: &mut Document, name: Text, value: Value) -> Result<(), NoMemory>
    ensures { OnOk result (doc.new ≡ doc.old ++ (record { name = name; value = value }) ∷ []) }
{
    match doc.push(name, value) {
        Ok(()) => Ok(()),
        Err(_) => Err(NoMemory),
    }
}

fn add_copy(alloc: Global, doc: &mut Document, field: &Pair<Value>) -> Result<(), NoMemory>
    ensures { OnOk result (doc.new ≡ doc.old ++ field.now ∷ []) }
{
    let name = field.name.copy(alloc)?;
    let value = field.value.copy(alloc)?;
    add(doc, name, value)
}

/// The `_id`, and behind it the fields.
fn with_id(alloc: Global, id: Value, fields: &Document) -> Result<Document, NoMemory>
    ensures { IfOk result (λ it. it ≡ (record { name = codes "_id"; value = id }) ∷ fields.now) }
{
    let name = Text::of(alloc, "_id")?;
    let mut doc = Document::new(alloc);
    add(&mut doc, name, id)?;
    let mut rest = fields.as_slice();
    while let [field, others @ ..] = rest {
        add_copy(alloc, &mut doc, field)?;
        rest = others;
    }
    Ok(doc)
}

/// What an insert stores: the document with its `_id` first, a generated one where it has none.
#[tactic(auto, using(crate::proofs::Completed::with_none, crate::proofs::Completed::with_first))]
pub(crate) fn completed(
    alloc: Global,
    who: Who,
    now: u64,
    mut doc: Document,
) -> Result<Document, NoMemory>
    ensures { IfOk result (λ it. it ≡ completed who now doc) }
{
    match doc.place("_id") {
        Some(0) => Ok(doc),
        Some(place) => {
            let field = doc.remove(place)?;
            with_id(alloc, field.value, &doc)
        }
        None => with_id(alloc, Value::Id(generated(who, now)), &doc),
    }
}

/// Why a document is not stored that cannot be.
fn unstored(found: Result<(), Unstorable>) -> Option<Kind>
    ensures { result ≡ unstored found }
{
    match found {
        Ok(()) => None,
        Err(Unstorable::TooLarge) => Some(DOCUMENT_TOO_LARGE),
        Err(_) => Some(NOT_STORABLE),
    }
}

/// Why a document with that `_id` is not stored.
pub(crate) fn not_stored(id: &Value, doc: &Document) -> Option<Kind>
    ensures kind { result ≡ not_stored id.now doc.now }
    ensures stored { IfNone result (storable doc.now ≡ Ok tt) }
{
    if can_be_id(id) {
        unstored(storable(doc))
    } else {
        Some(BAD_ID)
    }
}

/// The row of what an insert stores, or what it is replied in its place.
pub fn stored(alloc: Global, who: Who, now: u64, doc: Document) -> Result<Row, OpReply>
    ensures ok { IfOk result (λ row. (not_stored (id_of who now doc) (completed who now doc) ≡ None)
        × IsRowFor (id_of who now doc) (completed who now doc) row) }
    ensures err { IfErr result (λ reply. Declines (not_stored (id_of who now doc) (completed who now doc)) reply) }
{
    let Ok(doc) = completed(alloc, who, now, doc) else {
        return Err(OpReply::NoMemory);
    };
    let Some(id) = doc.get("_id") else {
        unreachable!()
    };
    if let Some(kind) = not_stored(id, &doc) {
        return Err(OpReply::Refused(kind));
    }
    match row_for(alloc, id, &doc) {
        Ok(row) => Ok(row),
        Err(NoMemory) => Err(OpReply::NoMemory),
    }
}
