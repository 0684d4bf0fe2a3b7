ghost use Rattle.std.specs.Prelude.{◌≡◌, ◌≤◌, ◌<◌, ◌+◌, ◌-◌, [], length, map, take, drop, IfOk, IfSome};
ghost use Rattle.bson_values.specs.Cut.{cut, further};
ghost use Rattle.bson_values.specs.Measures.{size};
ghost use Rattle.doc_history.specs.Docs.{docs_in_rows};
ghost use Rattle.doc_model.specs.Step.{cut_to, limited, matching, valued};
ghost use Rattle.doc_shape.specs.Shown.{shown};
ghost use Rattle.doc_effects.specs.Replies.{Answers, Fits, SufficeFor, answer_to, counted, displayed};
ghost use Rattle.doc_effects.specs.Rows.{AreSound};

use crate::aims::{Aim, Show};
use crate::rows::{counted, found, values};
use bson_values::{Document, List, NoMemory, Value};
use case_tables::DOCUMENT_TOO_LARGE;
use doc_model::OpReply;
use doc_shape::{Shape, project, sort_stably};
use filter_syntax::Filter;
use std::alloc::Global;
use table_rows::Row;

/// The most bytes of an array of values, as BSON 1.1 spells it, and of a batch of several documents.
const MOST_BYTES: u64 = 16_777_216;

/// How many of the documents that a filter holds of suffice: without a sort no more are read than are skipped and shown.
fn enough(show: &Show) -> Option<u64>
    ensures { IfSome result (λ most. SufficeFor show.now most) }
{
    if show.limit == 0 || !show.order.is_empty() {
        return None;
    }
    show.skip.checked_add(show.limit)
}

/// Those past the first `skip`.
fn past(skip: u64, docs: List<Document>) -> Result<List<Document>, NoMemory>
    ensures { IfOk result (λ rest. rest ≡ drop skip docs) }
{
    if skip == 0 {
        return Ok(docs);
    }
    let mut items = docs.into_vec();
    let at = items.len().min(skip as usize);
    match items.split_off(at) {
        Ok(rest) => Ok(List::from_vec(rest)),
        Err(_) => Err(NoMemory),
    }
}

/// Those past the first `skip`, and of them at most `limit`, where that is not 0.
fn limited(skip: u64, limit: u64, docs: List<Document>) -> Result<List<Document>, NoMemory>
    ensures { IfOk result (λ rest. rest ≡ limited skip limit docs) }
{
    let mut rest = past(skip, docs)?;
    if limit != 0 {
        rest.truncate(rest.len().min(limit as usize));
    }
    Ok(rest)
}

/// What the shape shows of each of the documents. They are moved where nothing is hidden.
#[tactic(auto, using(crate::proofs::Displaying::shown_whole))]
fn shown_all(alloc: Global, shape: &Shape, docs: List<Document>) -> Result<List<Document>, NoMemory>
    ensures { IfOk result (λ all. all ≡ map (shown shape.now) docs) }
{
    if shape.shows_all() {
        return Ok(docs);
    }
    let mut all = List::new(alloc);
    for doc in docs.as_slice() {
        let it = project(alloc, shape, doc)?;
        all.add(it)?;
    }
    Ok(all)
}

/// How many documents a batch takes whose first one has so many bytes.
fn batch_len(first: u64, most: u64, docs: &[Document]) -> usize
    requires { (0 < length docs.now) × (0 < most) }
    ensures { result ≡ further first (map size (drop 1 docs.now)) (most - 1) + 1 }
{
    let mut bytes = first;
    let mut count = 1;
    while let Some(doc) = docs.get(count) {
        if count as u64 == most {
            return count;
        }
        bytes = bytes.saturating_add(doc.size());
        if MOST_BYTES < bytes {
            return count;
        }
        count += 1;
    }
    count
}

/// How many documents a batch of at most `most` takes.
fn cut(most: u64, docs: &[Document]) -> usize
    ensures { result ≡ cut (map size docs.now) most }
{
    let Some(first) = docs.first() else {
        return 0;
    };
    if most == 0 {
        return 0;
    }
    batch_len(first.size(), most, docs)
}

fn cut_to(cut_at: Option<u64>, docs: &mut List<Document>)
    ensures { docs.new ≡ cut_to cut_at docs.old }
{
    if let Some(most) = cut_at {
        let count = cut(most, docs.as_slice());
        docs.truncate(count);
    }
}

/// What a find shows of the documents of rows that a filter holds of.
fn documents(
    alloc: Global,
    show: &Show,
    filter: &Filter,
    rows: &[Row],
) -> Result<List<Document>, NoMemory>
    requires { AreSound rows.now }
    ensures { IfOk result (λ docs. docs ≡ displayed show.now (matching filter.now (docs_in_rows rows.now))) }
{
    let mut docs = found(alloc, filter, enough(show), rows)?;
    sort_stably(alloc, &show.order, &mut docs)?;
    let docs = limited(show.skip, show.limit, docs)?;
    let mut docs = shown_all(alloc, &show.shape, docs)?;
    cut_to(show.cut, &mut docs);
    Ok(docs)
}

/// How many are left past the first `skip`, and up to `limit`, where that is not 0.
fn counted_within(skip: u64, limit: u64, count: u64) -> u64
    ensures { result ≡ counted skip limit count }
{
    let rest = count.saturating_sub(skip);
    if limit == 0 { rest } else { limit.min(rest) }
}

fn valued(values: List<Value>) -> OpReply
    ensures value { result ≡ valued values }
    ensures fits { Fits result }
{
    if values.size() <= MOST_BYTES {
        OpReply::Values(values)
    } else {
        OpReply::Refused(DOCUMENT_TOO_LARGE)
    }
}

/// What is replied of the rows that a Select gave: what is asked of the documents that the filter holds of, or that memory was wanting.
#[tactic(auto, using(crate::proofs::Sizes::counted_is))]
pub fn answered(alloc: Global, aim: &Aim, filter: &Filter, rows: &[Row]) -> OpReply
    requires { AreSound rows.now }
    ensures answers { Answers result (answer_to aim.now (matching filter.now (docs_in_rows rows.now))) }
    ensures fits { Fits result }
{
    match aim {
        Aim::Documents(show) => match documents(alloc, show, filter, rows) {
            Ok(docs) => OpReply::Selected(docs),
            Err(NoMemory) => OpReply::NoMemory,
        },
        Aim::Number { skip, limit } => match counted(alloc, filter, rows) {
            Ok(count) => OpReply::Counted(counted_within(*skip, *limit, count)),
            Err(NoMemory) => OpReply::NoMemory,
        },
        Aim::Values(path) => match values(alloc, path, filter, rows) {
            Ok(values) => valued(values),
            Err(NoMemory) => OpReply::NoMemory,
        },
    }
}
