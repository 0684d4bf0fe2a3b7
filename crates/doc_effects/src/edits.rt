ghost use Rattle.std.specs.Prelude.{◌≡◌, ◌≤◌, ◌<◌, ◌^◌, ◌∷◌, ◌++◌, [], true, false, if◌then◌else◌, length, take, Ok, IfOk, IfErr, OnOk};
ghost use Rattle.std.specs.Str.{bytes_eq};
ghost use Rattle.bson_values.specs.Storable.{storable};
ghost use Rattle.doc_history.specs.Docs.{doc_of, docs_in_rows};
ghost use Rattle.doc_model.specs.Change.{becoming};
ghost use Rattle.doc_model.specs.Step.{matching};
ghost use Rattle.doc_effects.specs.Edited.{AreFirst, AreRenewals, Exchanges, IsRenewal, Removes, Renews, replacing, taken};
ghost use Rattle.std.specs.List.{All};
ghost use Rattle.doc_shape.specs.Sorted.{sorted};
ghost use Rattle.doc_effects.specs.Rows.{AreSound, IsStored};
ghost use Rattle.table_words.specs.Sound.{IsSound};
ghost use Rattle.table_words.specs.declared.call.Edit.TheVariants as edit;
ghost use Rattle.update_apply.specs.Answers.{Fails};
ghost use Rattle.update_syntax.specs.After.{after, id_of, keeps_id};

use crate::rows::{found, row_for, wanted};
use bson_values::{Bytes, Document, List, NoMemory};
use doc_shape::{Order, sort_stably};
use filter_syntax::Filter;
use std::alloc::Global;
use table_rows::Row;
use table_words::Edit;
use update_apply::{ApplyRefused, apply};
use update_syntax::Update;

/// The first document that a filter holds of, and its row.
#[derive(Drop)]
pub(crate) struct First {
    pub(crate) doc: Document,
    pub(crate) row: Row,
}

/// What an update makes of a document, and its row, unless that is the one which is there.
#[derive(Drop)]
pub(crate) struct Renewal {
    pub(crate) doc: Document,
    pub(crate) row: Option<Row>,
}

/// Of how many documents an update is, and the edits of those that it makes others.
#[derive(Drop)]
pub(crate) struct Renewals {
    pub(crate) matched: u64,
    pub(crate) edits: List<Edit>,
}

/// A row with its document, where the filter holds of it.
fn first_if_matching(alloc: Global, filter: &Filter, row: &Row) -> Result<Option<First>, NoMemory>
    requires { IsSound row.now }
    ensures { IfOk result (λ first. AreFirst (matching filter.now (doc_of row.now ∷ [])) first) }
{
    match wanted(alloc, filter, row)? {
        Some(doc) => {
            let row = row.copy(alloc)?;
            Ok(Some(First { doc, row }))
        }
        None => Ok(None),
    }
}

/// The first of the rows whose document the filter holds of. Those behind it are not read.
pub(crate) fn first_matching(
    alloc: Global,
    filter: &Filter,
    rows: &[Row],
) -> Result<Option<First>, NoMemory>
    requires { AreSound rows.now }
    ensures { IfOk result (λ first. AreFirst (matching filter.now (docs_in_rows rows.now)) first) }
{
    let mut rest = rows;
    while let [row, others @ ..] = rest {
        if let Some(first) = first_if_matching(alloc, filter, row)? {
            return Ok(Some(first));
        }
        rest = others;
    }
    Ok(None)
}

/// The row of a document that was read of one.
fn row_again(alloc: Global, doc: &Document) -> Result<Row, NoMemory>
    requires { IsStored doc.now }
    ensures { IfOk result (λ row. IsSound row × (doc.now ≡ doc_of row)) }
{
    let Some(id) = doc.get("_id") else {
        unreachable!()
    };
    row_for(alloc, id, doc)
}

/// The first of documents that were read of rows, with its row.
fn first_in(alloc: Global, docs: &[Document]) -> Result<Option<First>, NoMemory>
    requires { All IsStored docs.now }
    ensures { IfOk result (λ first. AreFirst docs.now first) }
{
    let Some(first) = docs.first() else {
        return Ok(None);
    };
    let row = row_again(alloc, first)?;
    let doc = first.copy(alloc)?;
    Ok(Some(First { doc, row }))
}

/// The first in an order of the documents that the filter holds of. All of them are read.
fn first_sorted(
    alloc: Global,
    filter: &Filter,
    order: &Order,
    rows: &[Row],
) -> Result<Option<First>, NoMemory>
    requires { AreSound rows.now }
    ensures { IfOk result (λ first. AreFirst (sorted order.now (matching filter.now (docs_in_rows rows.now))) first) }
{
    let mut docs = found(alloc, filter, None, rows)?;
    sort_stably(alloc, order, &mut docs)?;
    first_in(alloc, docs.as_slice())
}

/// The first of the documents that the filter holds of, in an order or else as the rows stand.
#[tactic(auto, using(crate::proofs::Firsts::unsorted_first))]
pub(crate) fn first_by(
    alloc: Global,
    filter: &Filter,
    order: &Order,
    rows: &[Row],
) -> Result<Option<First>, NoMemory>
    requires { AreSound rows.now }
    ensures { IfOk result (λ first. AreFirst (sorted order.now (matching filter.now (docs_in_rows rows.now))) first) }
{
    if order.is_empty() {
        first_matching(alloc, filter, rows)
    } else {
        first_sorted(alloc, filter, order, rows)
    }
}

fn is_same_text(one: &Row, other: &Row) -> bool
    ensures { result ≡ bytes_eq one.now.text other.now.text }
{
    one.text.as_str() == other.text.as_str()
}

/// The row of a document that takes the place of another, unless the rows have one text.
fn exchange(alloc: Global, row: &Row, new: &Document) -> Result<Option<Row>, NoMemory>
    requires sound { IsSound row.now }
    requires id { keeps_id (id_of (doc_of row.now)) (id_of new.now) ≡ true }
    requires stored { storable new.now ≡ Ok tt }
    ensures { IfOk result (λ it. Exchanges (doc_of row.now) new.now it) }
{
    let Some(id) = new.get("_id") else {
        unreachable!()
    };
    let made = row_for(alloc, id, new)?;
    if is_same_text(row, &made) {
        Ok(None)
    } else {
        Ok(Some(made))
    }
}

/// What an update makes of the document of a row. It is refused as `apply` is.
pub(crate) fn renew(
    alloc: Global,
    update: &Update,
    now: u64,
    row: &Row,
    doc: &Document,
) -> Result<Renewal, ApplyRefused>
    requires sound { IsSound row.now }
    requires is_of { doc.now ≡ doc_of row.now }
    ensures ok { IfOk result (λ it. IsRenewal update.now now doc.now it) }
    ensures refused { IfErr result (λ why. Fails why (after update.now doc.now now false)) }
{
    let new = apply(alloc, update, doc, now, false)?;
    let row = exchange(alloc, row, &new)?;
    Ok(Renewal { doc: new, row })
}

/// Adds the edit by which a row takes its place, where there is one.
pub(crate) fn add_row(edits: &mut List<Edit>, row: Option<Row>) -> Result<(), NoMemory>
    ensures { OnOk result (edits.new ≡ edits.old ++ replacing row) }
{
    match row {
        Some(row) => edits.add(Edit::Replace(row)),
        None => Ok(()),
    }
}

/// Adds the edit that an update makes of the document of a row.
fn renew_row(
    alloc: Global,
    update: &Update,
    now: u64,
    row: &Row,
    doc: &Document,
    edits: &mut List<Edit>,
) -> Result<(), ApplyRefused>
    requires sound { IsSound row.now }
    requires is_of { doc.now ≡ doc_of row.now }
    ensures ok { OnOk result (Renews update.now now (doc.now ∷ []) edits.old edits.new) }
    ensures refused { IfErr result (λ why. Fails why (becoming update.now now (doc.now ∷ []))) }
{
    let Renewal { row, .. } = renew(alloc, update, now, row, doc)?;
    add_row(edits, row)?;
    Ok(())
}

/// Adds the edit that an update makes of a row, and tells of how many documents it is.
fn renew_if_matching(
    alloc: Global,
    update: &Update,
    now: u64,
    filter: &Filter,
    row: &Row,
    edits: &mut List<Edit>,
) -> Result<u64, ApplyRefused>
    requires { IsSound row.now }
    ensures ok { IfOk result (λ n. Renews update.now now (matching filter.now (doc_of row.now ∷ [])) edits.old edits.new) }
    ensures matched { IfOk result (λ n. n ≡ length (matching filter.now (doc_of row.now ∷ []))) }
    ensures few { IfOk result (λ n. n ≤ 1) }
    ensures refused { IfErr result (λ why. Fails why (becoming update.now now (matching filter.now (doc_of row.now ∷ [])))) }
{
    match wanted(alloc, filter, row)? {
        Some(doc) => {
            renew_row(alloc, update, now, row, &doc, edits)?;
            Ok(1)
        }
        None => Ok(0),
    }
}

fn renew_all(
    alloc: Global,
    update: &Update,
    now: u64,
    filter: &Filter,
    rows: &[Row],
) -> Result<Renewals, ApplyRefused>
    requires { AreSound rows.now }
    ensures ok { IfOk result (λ it. AreRenewals update.now now (matching filter.now (docs_in_rows rows.now)) it) }
    ensures refused { IfErr result (λ why. Fails why (becoming update.now now (matching filter.now (docs_in_rows rows.now)))) }
{
    let _len = rows.len();
    let mut matched = 0;
    let mut edits = List::new(alloc);
    let mut rest = rows;
    while let [row, others @ ..] = rest {
        matched += renew_if_matching(alloc, update, now, filter, row, &mut edits)?;
        rest = others;
    }
    Ok(Renewals { matched, edits })
}

fn renew_first(
    alloc: Global,
    update: &Update,
    now: u64,
    filter: &Filter,
    rows: &[Row],
) -> Result<Renewals, ApplyRefused>
    requires { AreSound rows.now }
    ensures ok { IfOk result (λ it. AreRenewals update.now now (take 1 (matching filter.now (docs_in_rows rows.now))) it) }
    ensures refused { IfErr result (λ why. Fails why (becoming update.now now (take 1 (matching filter.now (docs_in_rows rows.now))))) }
{
    let mut edits = List::new(alloc);
    match first_matching(alloc, filter, rows)? {
        Some(First { doc, row }) => {
            renew_row(alloc, update, now, &row, &doc, &mut edits)?;
            Ok(Renewals { matched: 1, edits })
        }
        None => Ok(Renewals { matched: 0, edits }),
    }
}

/// The edits of an update of all documents that the filter holds of, or of the first. The first refusal refuses all.
pub(crate) fn renew_matching(
    alloc: Global,
    update: &Update,
    now: u64,
    filter: &Filter,
    all: bool,
    rows: &[Row],
) -> Result<Renewals, ApplyRefused>
    requires { AreSound rows.now }
    ensures ok { IfOk result (λ it. AreRenewals update.now now (taken all (matching filter.now (docs_in_rows rows.now))) it) }
    ensures refused { IfErr result (λ why. Fails why (becoming update.now now (taken all (matching filter.now (docs_in_rows rows.now))))) }
{
    if all {
        renew_all(alloc, update, now, filter, rows)
    } else {
        renew_first(alloc, update, now, filter, rows)
    }
}

/// The edit by which a row goes.
pub(crate) fn removal(alloc: Global, row: &Row) -> Result<Edit, NoMemory>
    ensures edit { IfOk result (λ it. it ≡ edit.Remove row.now.key) }
    ensures short { IfOk result (λ it. length row.now.key < 2 ^ 63) }
{
    let key = row.key.as_slice();
    let _len = key.len();
    let key = Bytes::of(alloc, key)?;
    Ok(Edit::Remove(key))
}

/// Adds that edit.
pub(crate) fn remove_row(alloc: Global, row: &Row, edits: &mut List<Edit>) -> Result<(), NoMemory>
    requires { IsSound row.now }
    ensures { OnOk result (Removes (doc_of row.now ∷ []) edits.old edits.new) }
{
    let edit = removal(alloc, row)?;
    edits.add(edit)?;
    Ok(())
}

fn remove_if_matching(
    alloc: Global,
    filter: &Filter,
    row: &Row,
    edits: &mut List<Edit>,
) -> Result<(), NoMemory>
    requires { IsSound row.now }
    ensures { OnOk result (Removes (matching filter.now (doc_of row.now ∷ [])) edits.old edits.new) }
{
    match wanted(alloc, filter, row)? {
        Some(_) => remove_row(alloc, row, edits),
        None => Ok(()),
    }
}

fn remove_all(alloc: Global, filter: &Filter, rows: &[Row]) -> Result<List<Edit>, NoMemory>
    requires { AreSound rows.now }
    ensures { IfOk result (λ edits. Removes (matching filter.now (docs_in_rows rows.now)) [] edits) }
{
    let mut edits = List::new(alloc);
    let mut rest = rows;
    while let [row, others @ ..] = rest {
        remove_if_matching(alloc, filter, row, &mut edits)?;
        rest = others;
    }
    Ok(edits)
}

fn remove_first(alloc: Global, filter: &Filter, rows: &[Row]) -> Result<List<Edit>, NoMemory>
    requires { AreSound rows.now }
    ensures { IfOk result (λ edits. Removes (take 1 (matching filter.now (docs_in_rows rows.now))) [] edits) }
{
    let mut edits = List::new(alloc);
    match first_matching(alloc, filter, rows)? {
        Some(First { row, .. }) => {
            remove_row(alloc, &row, &mut edits)?;
            Ok(edits)
        }
        None => Ok(edits),
    }
}

/// The edits by which all documents go that the filter holds of, or the first.
pub(crate) fn remove_matching(
    alloc: Global,
    filter: &Filter,
    one: bool,
    rows: &[Row],
) -> Result<List<Edit>, NoMemory>
    requires { AreSound rows.now }
    ensures { IfOk result (λ edits. Removes
        (if one then take 1 (matching filter.now (docs_in_rows rows.now)) else matching filter.now (docs_in_rows rows.now)) [] edits) }
{
    if one {
        remove_first(alloc, filter, rows)
    } else {
        remove_all(alloc, filter, rows)
    }
}
