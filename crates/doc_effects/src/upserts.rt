ghost use Rattle.std.specs.Prelude.{◌≡◌, Ok, Some, IfOk, IfErr, codes};
ghost use Rattle.bson_values.specs.Names.{first_of};
ghost use Rattle.doc_model.specs.Change.{built, id_in};
ghost use Rattle.doc_model.specs.Insert.{completed, id_of, not_stored};
ghost use Rattle.doc_effects.specs.Edited.{IsBuilt, begun};
ghost use Rattle.doc_effects.specs.Rows.{IsRowFor};
ghost use Rattle.update_apply.specs.Answers.{Fails};
ghost use Rattle.update_syntax.specs.After.{unless};

use crate::completing::{completed, not_stored};
use crate::rows::row_for;
use bson_values::{Document, NoMemory, Value};
use filter_syntax::Filter;
use history_lock::Who;
use std::alloc::Global;
use table_rows::Row;
use update_apply::{ApplyRefused, apply, seed};
use update_syntax::Update;

/// A document that an upsert inserts, and its row.
#[derive(Drop)]
pub(crate) struct Built {
    pub(crate) doc: Document,
    pub(crate) row: Row,
}

/// What the filter's equalities give with the update applied.
fn updated_seed(
    alloc: Global,
    now: u64,
    filter: &Filter,
    update: &Update,
) -> Result<Document, ApplyRefused>
    ensures ok { IfOk result (λ made. begun filter.now update.now now ≡ Ok made) }
    ensures refused { IfErr result (λ why. Fails why (begun filter.now update.now now)) }
{
    let begun = seed(alloc, filter)?;
    apply(alloc, update, &begun, now, true)
}

/// The row of a completed document. It is refused where the document is not stored.
fn stored_row(alloc: Global, id: &Value, doc: &Document) -> Result<Row, ApplyRefused>
    requires { first_of (codes "_id") doc.now ≡ Some id.now }
    ensures ok { IfOk result (λ row. (unless (not_stored id.now doc.now) doc.now ≡ Ok doc.now) × IsRowFor id.now doc.now row) }
    ensures refused { IfErr result (λ why. Fails why (unless (not_stored id.now doc.now) doc.now)) }
{
    if let Some(kind) = not_stored(id, doc) {
        return Err(ApplyRefused::Refused(kind));
    }
    let row = row_for(alloc, id, doc)?;
    Ok(row)
}

/// A document with its `_id` first, and its row. It is refused where the document is not stored.
fn with_row(alloc: Global, who: Who, now: u64, made: Document) -> Result<Built, ApplyRefused>
    ensures ok { IfOk result (λ it. (unless (not_stored (id_of who now made) (completed who now made)) (completed who now made) ≡ Ok it.doc)
        × IsRowFor (id_of who now made) it.doc it.row) }
    ensures refused { IfErr result (λ why. Fails why
        (unless (not_stored (id_of who now made) (completed who now made)) (completed who now made))) }
{
    let doc = completed(alloc, who, now, made)?;
    let Some(id) = doc.get("_id") else {
        unreachable!()
    };
    let row = stored_row(alloc, id, &doc)?;
    Ok(Built { doc, row })
}

/// The document that an upsert inserts: of the equalities of the filter, updated, with its `_id` first. It is refused as `seed` and `apply`
/// are, and where the document is not stored.
pub(crate) fn build(
    alloc: Global,
    who: Who,
    now: u64,
    filter: &Filter,
    update: &Update,
) -> Result<Built, ApplyRefused>
    ensures ok { IfOk result (λ it. IsBuilt (built who now filter.now update.now) it) }
    ensures refused { IfErr result (λ why. Fails why (built who now filter.now update.now)) }
{
    let made = updated_seed(alloc, now, filter, update)?;
    with_row(alloc, who, now, made)
}

/// A copy of the `_id`.
pub(crate) fn id_in(alloc: Global, doc: &Document) -> Result<Option<Value>, NoMemory>
    ensures { IfOk result (λ id. id ≡ id_in doc.now) }
{
    match doc.get("_id") {
        Some(id) => {
            let id = id.copy(alloc)?;
            Ok(Some(id))
        }
        None => Ok(None),
    }
}
