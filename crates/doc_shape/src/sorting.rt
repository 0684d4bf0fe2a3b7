ghost use Rattle.std.specs.Prelude.{◌≡◌, ◌∷◌, [], map, OnOk, OnErr, IfOk};
ghost use Rattle.std.specs.Cmp.Lexicographic.{slice_cmp};
ghost use Rattle.std.specs.Option.{option_copied};
ghost use Rattle.doc_shape.specs.Keys.{key};
ghost use Rattle.doc_shape.specs.Sorted.{sorted, stably_sorted};
ghost use Rattle.doc_shape.specs.declared.sorting.Row.{Row};
ghost use Rattle.doc_shape.specs.Rows.{row, row_below, sort_key, sort_key_cmp};

use crate::bests::Best;
use crate::comparing::compare_keys;
use crate::order::{Order, Way};
use crate::walking::best_key;
use bson_values::{Document, List, NoMemory, Value};
use std::alloc::Global;
use std::cmp::Ordering;

/// The key of a document for one path; `None` is that of an empty array.
#[derive(Drop)]
pub(crate) enum SortKey {
    Up(Option<Value>),
    Down(Option<Value>),
}

/// A document with its keys.
#[derive(Drop)]
pub(crate) struct Row {
    pub(crate) keys: List<SortKey>,
    pub(crate) doc: Document,
}

fn compare_sort_keys(one: &SortKey, other: &SortKey) -> Ordering
    ensures { result ≡ sort_key_cmp one.now other.now }
{
    match (one, other) {
        (SortKey::Up(one), SortKey::Up(other)) => compare_keys(true, one.as_ref(), other.as_ref()),
        (SortKey::Up(_), SortKey::Down(_)) => Ordering::Less,
        (SortKey::Down(_), SortKey::Up(_)) => Ordering::Greater,
        (SortKey::Down(one), SortKey::Down(other)) => compare_keys(
            false,
            one.as_ref(),
            other.as_ref(),
        ),
    }
}

fn compare_all(one: &[SortKey], other: &[SortKey]) -> Ordering
    ensures { result ≡ slice_cmp sort_key_cmp one.now other.now }
{
    match (one.split_first(), other.split_first()) {
        (None, None) => Ordering::Equal,
        (None, Some(_)) => Ordering::Less,
        (Some(_), None) => Ordering::Greater,
        (Some((one, ones)), Some((other, others))) => match compare_sort_keys(one, other) {
            Ordering::Equal => compare_all(ones, others),
            told => told,
        },
    }
}

#[tactic(auto, using(crate::proofs::Tails::key_told))]
fn key_of(alloc: Global, way: &Way, doc: &Document) -> Result<Option<Value>, NoMemory>
    ensures { IfOk result (λ it. it ≡ key way.now doc.now) }
{
    match best_key(way, doc) {
        Best::Unasked => Ok(Some(Value::Null)),
        Best::Nothing => Ok(Some(Value::Null)),
        Best::Missing => Ok(Some(Value::Null)),
        Best::Empty => Ok(None),
        Best::At(value) => Ok(Some(value.copy(alloc)?)),
    }
}

fn sort_key(alloc: Global, way: &Way, doc: &Document) -> Result<SortKey, NoMemory>
    ensures { IfOk result (λ it. it ≡ sort_key doc.now way.now) }
{
    let key = key_of(alloc, way, doc)?;
    if way.ascends {
        Ok(SortKey::Up(key))
    } else {
        Ok(SortKey::Down(key))
    }
}

fn sort_keys(alloc: Global, ways: &[Way], doc: &Document) -> Result<List<SortKey>, NoMemory>
    ensures { IfOk result (λ keys. keys ≡ map (sort_key doc.now) ways.now) }
{
    let mut keys = List::new(alloc);
    for way in ways {
        let key = sort_key(alloc, way, doc)?;
        keys.add(key)?;
    }
    Ok(keys)
}

fn row_of(alloc: Global, ways: &[Way], doc: &Document) -> Result<Row, NoMemory>
    ensures { IfOk result (λ it. it ≡ row ways.now doc.now) }
{
    let keys = sort_keys(alloc, ways, doc)?;
    let doc = doc.copy(alloc)?;
    Ok(Row { keys, doc })
}

/// The documents with their keys, each made once.
fn rows_of(alloc: Global, ways: &[Way], docs: &[Document]) -> Result<List<Row>, NoMemory>
    ensures { IfOk result (λ rows. rows ≡ map (row ways.now) docs.now) }
{
    let mut rows = List::new(alloc);
    for doc in docs {
        let row = row_of(alloc, ways, doc)?;
        rows.add(row)?;
    }
    Ok(rows)
}

fn sorted_rows(rows: List<Row>) -> Result<Vec<Row>, NoMemory>
    ensures { IfOk result (λ sorted. sorted.items ≡ stably_sorted row_below rows) }
{
    let mut rows = rows.into_vec();
    match rows.sort_by(|one, other| compare_all(one.keys.as_slice(), other.keys.as_slice())) {
        Ok(()) => Ok(rows),
        Err(_) => Err(NoMemory),
    }
}

fn docs_of(alloc: Global, rows: Vec<Row>) -> Result<List<Document>, NoMemory>
    ensures { IfOk result (λ docs. docs ≡ map (λ (row : Row). row.doc) rows.items) }
{
    let mut docs = List::new(alloc);
    for row in rows {
        docs.add(row.doc)?;
    }
    Ok(docs)
}

#[tactic(auto, using(crate::proofs::Orders::rows_sorted))]
fn sorted_docs(alloc: Global, ways: &[Way], docs: &[Document]) -> Result<List<Document>, NoMemory>
    ensures { IfOk result (λ it. it ≡ sorted ways.now docs.now) }
{
    let rows = rows_of(alloc, ways, docs)?;
    let rows = sorted_rows(rows)?;
    docs_of(alloc, rows)
}

/// Sorts documents by the order, stably. The keys of each document are made once. At want of memory the list is as before.
#[tactic(auto, using(crate::proofs::Orders::sorted_by_none))]
pub fn sort_stably(alloc: Global, order: &Order, docs: &mut List<Document>) -> Result<(), NoMemory>
    ensures ok { OnOk result (docs.new ≡ sorted order.now docs.old) }
    ensures err { OnErr result (docs.new ≡ docs.old) }
{
    if order.is_empty() {
        return Ok(());
    }
    *docs = sorted_docs(alloc, order.ways(), docs.as_slice())?;
    Ok(())
}
