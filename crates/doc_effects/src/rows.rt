ghost use Rattle.std.specs.Prelude.{◌≡◌, ◌≤◌, ◌++◌, ◌∷◌, [], true, Ok, Some, codes, length, option_to_list, IfOk, IfSome, OnOk};
ghost use Rattle.std.specs.List.{flat_map, fold};
ghost use Rattle.bson_values.specs.Names.{first_of};
ghost use Rattle.bson_values.specs.Storable.{storable};
ghost use Rattle.bson_values.specs.declared.value.Value.TheViews.{out-Value};
ghost use Rattle.bson_order.specs.Plain.{IsPlain};
ghost use Rattle.bson_values.specs.declared.value.Value.TheVariants as value;
ghost use Rattle.distinct_values.specs.Distinct.{distinct, joined, values_at};
ghost use Rattle.doc_history.specs.Docs.{doc_of, docs_in_rows};
ghost use Rattle.doc_model.specs.Step.{matching};
ghost use Rattle.doc_effects.specs.Replies.{IsEnough, are_enough};
ghost use Rattle.doc_effects.specs.Rows.{IsRowFor, AreSound};
ghost use Rattle.naming.specs.Ids.{can_be_id};
ghost use Rattle.table_words.specs.Sound.{IsSound};

use bson_order::id_key;
use bson_values::{Document, List, NoMemory, Value};
use distinct_values::Distinct;
use doc_paths::Path;
use filter_match::matches;
use filter_syntax::Filter;
use std::alloc::Global;
use table_rows::Row;
use typed_json::{RowRefused, a_row_is_read_as_its_document, from_row, to_row};

/// The row of a document with that `_id`.
pub(crate) fn row_for(alloc: Global, id: &Value, doc: &Document) -> Result<Row, NoMemory>
    requires id { first_of (codes "_id") doc.now ≡ Some id.now }
    requires may { can_be_id (out-Value id.now) ≡ true }
    requires stored { storable doc.now ≡ Ok tt }
    ensures { IfOk result (λ row. IsRowFor id.now doc.now row) }
{
    let json = to_row(alloc, doc)?;
    let key = id_key(alloc, id)?;
    Row::new(alloc, key, json)
}

/// The document of a sound row.
fn document_of(alloc: Global, row: &Row) -> Result<Document, NoMemory>
    requires { IsSound row.now }
    ensures { IfOk result (λ doc. doc ≡ doc_of row.now) }
{
    a_row_is_read_as_its_document();
    match from_row(alloc, row.json.get()) {
        Ok(doc) => Ok(doc),
        Err(RowRefused::NotRow) => unreachable!(),
        Err(RowRefused::NoMemory) => Err(NoMemory),
    }
}

/// The document of a sound row, where the filter holds of it.
pub(crate) fn wanted(
    alloc: Global,
    filter: &Filter,
    row: &Row,
) -> Result<Option<Document>, NoMemory>
    requires { IsSound row.now }
    ensures value { IfOk result (λ found. option_to_list found ≡ matching filter.now (doc_of row.now ∷ [])) }
    ensures plain { IfOk result (λ found. IfSome found (λ doc. IsPlain (value.Doc doc))) }
{
    let doc = document_of(alloc, row)?;
    if matches(filter, &doc) {
        Ok(Some(doc))
    } else {
        Ok(None)
    }
}

/// Adds the document of a row, where the filter holds of it.
fn add_if_matching(
    alloc: Global,
    filter: &Filter,
    row: &Row,
    docs: &mut List<Document>,
) -> Result<(), NoMemory>
    requires { IsSound row.now }
    ensures { OnOk result (docs.new ≡ docs.old ++ matching filter.now (doc_of row.now ∷ [])) }
{
    match wanted(alloc, filter, row)? {
        Some(doc) => docs.add(doc),
        None => Ok(()),
    }
}

/// Whether so many are as many as suffice.
fn are_enough(most: Option<u64>, count: usize) -> bool
    ensures { result ≡ are_enough most count }
{
    match most {
        Some(most) => most <= count as u64,
        None => false,
    }
}

/// The documents of rows that a filter holds of, in order; of the rows behind the first `most` of them none is read.
#[tactic(auto, using(crate::proofs::Displaying::first_ones, crate::proofs::Displaying::all_ones))]
pub(crate) fn found(
    alloc: Global,
    filter: &Filter,
    most: Option<u64>,
    rows: &[Row],
) -> Result<List<Document>, NoMemory>
    requires { AreSound rows.now }
    ensures { IfOk result (λ docs. IsEnough most (matching filter.now (docs_in_rows rows.now)) docs) }
{
    let mut docs = List::new(alloc);
    let mut rest = rows;
    while let [row, others @ ..] = rest {
        if are_enough(most, docs.len()) {
            return Ok(docs);
        }
        add_if_matching(alloc, filter, row, &mut docs)?;
        rest = others;
    }
    Ok(docs)
}

/// How many documents of a row the filter holds of.
fn count_if_matching(alloc: Global, filter: &Filter, row: &Row) -> Result<u64, NoMemory>
    requires { IsSound row.now }
    ensures value { IfOk result (λ n. n ≡ length (matching filter.now (doc_of row.now ∷ []))) }
    ensures few { IfOk result (λ n. n ≤ 1) }
{
    match wanted(alloc, filter, row)? {
        Some(_) => Ok(1),
        None => Ok(0),
    }
}

/// How many documents of rows a filter holds of. None of them is kept.
pub(crate) fn counted(alloc: Global, filter: &Filter, rows: &[Row]) -> Result<u64, NoMemory>
    requires { AreSound rows.now }
    ensures { IfOk result (λ n. n ≡ length (matching filter.now (docs_in_rows rows.now))) }
{
    let _len = rows.len();
    let mut count = 0;
    let mut rest = rows;
    while let [row, others @ ..] = rest {
        count += count_if_matching(alloc, filter, row)?;
        rest = others;
    }
    Ok(count)
}

/// Adds the values at a path of the document of a row, where the filter holds of it.
fn gather_if_matching(
    alloc: Global,
    path: &Path,
    filter: &Filter,
    row: &Row,
    values: &mut Distinct,
) -> Result<(), NoMemory>
    requires { IsSound row.now }
    ensures { OnOk result (values.new ≡ fold joined values.old (flat_map (values_at path.now) (matching filter.now (doc_of row.now ∷ [])))) }
{
    match wanted(alloc, filter, row)? {
        Some(doc) => values.add_at(path, &doc),
        None => Ok(()),
    }
}

/// The values at a path of the documents of rows that a filter holds of, each once, in order. None of the documents is kept.
pub(crate) fn values(
    alloc: Global,
    path: &Path,
    filter: &Filter,
    rows: &[Row],
) -> Result<List<Value>, NoMemory>
    requires { AreSound rows.now }
    ensures { IfOk result (λ values. values ≡ distinct path.now (matching filter.now (docs_in_rows rows.now))) }
{
    let mut values = Distinct::new(alloc);
    let mut rest = rows;
    while let [row, others @ ..] = rest {
        gather_if_matching(alloc, path, filter, row, &mut values)?;
        rest = others;
    }
    values.values()
}
