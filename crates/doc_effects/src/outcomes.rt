ghost use Rattle.std.specs.Prelude.{◌≡◌, ◌∷◌, [], true, false, if◌then◌else◌, IfOk, IfErr, Ok, Err, None, Some};
ghost use Rattle.doc_history.specs.Docs.{doc_of, docs_in_rows};
ghost use Rattle.doc_model.specs.Change.{built, deletes, modifies, removing, updates};
ghost use Rattle.doc_model.specs.Step.{matching};
ghost use Rattle.doc_model.specs.declared.op.Modify.TheVariants as modify;
ghost use Rattle.doc_model.specs.declared.op.OpReply.TheVariants as told;
ghost use Rattle.doc_effects.specs.Deeds.{effect_of};
ghost use Rattle.doc_effects.specs.Edited.{Ends, Refuses, inserts, inserts_shown, shows};
ghost use Rattle.doc_effects.specs.Outcomes.{IsAnswer, Settles};
ghost use Rattle.doc_effects.specs.Replies.{Fits, FitsDoc};
ghost use Rattle.doc_shape.specs.Shown.{shown};
ghost use Rattle.doc_shape.specs.Sorted.{sorted};
ghost use Rattle.doc_effects.specs.Rows.{AreSound};
ghost use Rattle.table_words.specs.Sound.{IsSound};
ghost use Rattle.update_apply.specs.Answers.{Fails};

use crate::deeds::{Deed, Outcome};
use crate::edits::{
    First, Renewal, Renewals, add_row, first_by, remove_matching, remove_row, renew, renew_matching,
};
use crate::upserts::{Built, build, id_in};
use bson_values::{Document, List, NoMemory};
use doc_model::{Modify, OpReply};
use doc_shape::{Order, Shape, project};
use filter_syntax::Filter;
use history_lock::Who;
use std::alloc::Global;
use table_rows::Row;
use update_apply::ApplyRefused;
use update_syntax::Update;

/// Changes nothing.
fn only(alloc: Global, reply: OpReply) -> Outcome
    ensures { result ≡ record { reply = reply; edits = []; added = None } }
{
    Outcome {
        reply,
        edits: List::new(alloc),
        added: None,
    }
}

fn adding(alloc: Global, reply: OpReply, row: Row) -> Outcome
    ensures { result ≡ record { reply = reply; edits = []; added = Some row } }
{
    Outcome {
        reply,
        edits: List::new(alloc),
        added: Some(row),
    }
}

/// The upsert of an update.
fn insert(
    alloc: Global,
    who: Who,
    now: u64,
    filter: &Filter,
    update: &Update,
) -> Result<Outcome, ApplyRefused>
    ensures ok { IfOk result (λ it. Ends (inserts (built who now filter.now update.now)) it) }
    ensures refused { IfErr result (λ why. Fails why (built who now filter.now update.now)) }
{
    let Built { doc, row } = build(alloc, who, now, filter, update)?;
    let upserted = id_in(alloc, &doc)?;
    Ok(adding(
        alloc,
        OpReply::Updated {
            matched: 0,
            changed: 0,
            upserted,
        },
        row,
    ))
}

/// What is shown of a document that was inserted: nothing, where what was there before is asked for.
fn shown_if(
    alloc: Global,
    fresh: bool,
    shape: &Shape,
    doc: &Document,
) -> Result<Option<Document>, NoMemory>
    ensures value { IfOk result (λ it. it ≡ (if fresh then Some (shown shape.now doc.now) else None)) }
    ensures fits { IfOk result (λ it. FitsDoc (Some doc.now) → FitsDoc it) }
{
    if !fresh {
        return Ok(None);
    }
    let it = project(alloc, shape, doc)?;
    Ok(Some(it))
}

/// The upsert of a findAndModify.
fn insert_shown(
    alloc: Global,
    who: Who,
    now: u64,
    filter: &Filter,
    update: &Update,
    fresh: bool,
    shape: &Shape,
) -> Result<Outcome, ApplyRefused>
    ensures ok { IfOk result (λ it. Ends (inserts_shown fresh shape.now (built who now filter.now update.now)) it) }
    ensures refused { IfErr result (λ why. Fails why (built who now filter.now update.now)) }
{
    let Built { doc, row } = build(alloc, who, now, filter, update)?;
    let upserted = id_in(alloc, &doc)?;
    let value = shown_if(alloc, fresh, shape, &doc)?;
    Ok(adding(
        alloc,
        OpReply::Modified {
            existed: false,
            upserted,
            value,
        },
        row,
    ))
}

fn updated(
    alloc: Global,
    who: Who,
    now: u64,
    filter: &Filter,
    update: &Update,
    multi: bool,
    upsert: bool,
    rows: &[Row],
) -> Result<Outcome, ApplyRefused>
    requires { AreSound rows.now }
    ensures ok { IfOk result (λ it. Ends
        (updates who now filter.now update.now multi upsert (matching filter.now (docs_in_rows rows.now))) it) }
    ensures refused { IfErr result (λ why. Fails why
        (updates who now filter.now update.now multi upsert (matching filter.now (docs_in_rows rows.now)))) }
{
    let Renewals { matched, edits } = renew_matching(alloc, update, now, filter, multi, rows)?;
    if matched == 0 && upsert {
        return insert(alloc, who, now, filter, update);
    }
    let reply = OpReply::Updated {
        matched,
        changed: edits.len() as u64,
        upserted: None,
    };
    Ok(Outcome {
        reply,
        edits,
        added: None,
    })
}

fn deleted(alloc: Global, filter: &Filter, one: bool, rows: &[Row]) -> Result<Outcome, NoMemory>
    requires { AreSound rows.now }
    ensures { IfOk result (λ it. Ends (Ok (deletes one (matching filter.now (docs_in_rows rows.now)))) it) }
{
    let edits = remove_matching(alloc, filter, one, rows)?;
    Ok(Outcome {
        reply: OpReply::Deleted(edits.len() as u64),
        edits,
        added: None,
    })
}

/// The reply that shows a document of the store in a shape.
fn shown(alloc: Global, shape: &Shape, doc: &Document) -> Result<OpReply, NoMemory>
    ensures value { IfOk result (λ it. it ≡ told.Modified true None (Some (shown shape.now doc.now))) }
    ensures fits { IfOk result (λ it. FitsDoc (Some doc.now) → Fits it) }
{
    let it = project(alloc, shape, doc)?;
    Ok(OpReply::Modified {
        existed: true,
        upserted: None,
        value: Some(it),
    })
}

fn chosen<'a>(fresh: bool, old: &'a Document, new: &'a Document) -> &'a Document
    ensures { result.now ≡ (if fresh then new.now else old.now) }
{
    if fresh { new } else { old }
}

/// The first document goes, and is shown.
fn removed(alloc: Global, shape: &Shape, first: &First) -> Result<Outcome, NoMemory>
    requires sound { IsSound first.now.row }
    requires is_of { first.now.doc ≡ doc_of first.now.row }
    ensures { IfOk result (λ it. Ends
        (Ok (removing (told.Modified true None (Some (shown shape.now first.now.doc))) (first.now.doc ∷ []))) it) }
{
    let reply = shown(alloc, shape, &first.doc)?;
    let mut edits = List::new(alloc);
    remove_row(alloc, &first.row, &mut edits)?;
    Ok(Outcome {
        reply,
        edits,
        added: None,
    })
}

/// The first document is updated, and shown as it was or is then.
fn changed(
    alloc: Global,
    now: u64,
    update: &Update,
    fresh: bool,
    shape: &Shape,
    first: &First,
) -> Result<Outcome, ApplyRefused>
    requires sound { IsSound first.now.row }
    requires is_of { first.now.doc ≡ doc_of first.now.row }
    ensures ok { IfOk result (λ it. Ends (shows now (modify.Change update.now) fresh shape.now first.now.doc) it) }
    ensures refused { IfErr result (λ why. Fails why (shows now (modify.Change update.now) fresh shape.now first.now.doc)) }
{
    let Renewal { doc: new, row } = renew(alloc, update, now, &first.row, &first.doc)?;
    let reply = shown(alloc, shape, chosen(fresh, &first.doc, &new))?;
    let mut edits = List::new(alloc);
    add_row(&mut edits, row)?;
    Ok(Outcome {
        reply,
        edits,
        added: None,
    })
}

/// What a findAndModify does to the first document.
fn modified_first(
    alloc: Global,
    now: u64,
    change: &Modify,
    fresh: bool,
    shape: &Shape,
    first: &First,
) -> Result<Outcome, ApplyRefused>
    requires sound { IsSound first.now.row }
    requires is_of { first.now.doc ≡ doc_of first.now.row }
    ensures ok { IfOk result (λ it. Ends (shows now change.now fresh shape.now first.now.doc) it) }
    ensures refused { IfErr result (λ why. Fails why (shows now change.now fresh shape.now first.now.doc)) }
{
    match change {
        Modify::Remove => {
            let outcome = removed(alloc, shape, first)?;
            Ok(outcome)
        }
        Modify::Change(update) => changed(alloc, now, update, fresh, shape, first),
    }
}

/// What it does where there is none.
fn modified_none(
    alloc: Global,
    who: Who,
    now: u64,
    filter: &Filter,
    change: &Modify,
    fresh: bool,
    upsert: bool,
    shape: &Shape,
) -> Result<Outcome, ApplyRefused>
    ensures ok { IfOk result (λ it. Ends (modifies who now filter.now change.now fresh upsert shape.now []) it) }
    ensures refused { IfErr result (λ why. Fails why (modifies who now filter.now change.now fresh upsert shape.now [])) }
{
    if let Modify::Change(update) = change {
        if upsert {
            return insert_shown(alloc, who, now, filter, update, fresh, shape);
        }
    }
    let reply = OpReply::Modified {
        existed: false,
        upserted: None,
        value: None,
    };
    Ok(only(alloc, reply))
}

fn modified(
    alloc: Global,
    who: Who,
    now: u64,
    filter: &Filter,
    order: &Order,
    change: &Modify,
    fresh: bool,
    upsert: bool,
    shape: &Shape,
    rows: &[Row],
) -> Result<Outcome, ApplyRefused>
    requires { AreSound rows.now }
    ensures ok { IfOk result (λ it. Ends
        (modifies who now filter.now change.now fresh upsert shape.now (sorted order.now (matching filter.now (docs_in_rows rows.now)))) it) }
    ensures refused { IfErr result (λ why. Fails why
        (modifies who now filter.now change.now fresh upsert shape.now (sorted order.now (matching filter.now (docs_in_rows rows.now))))) }
{
    match first_by(alloc, filter, order, rows)? {
        Some(first) => modified_first(alloc, now, change, fresh, shape, &first),
        None => modified_none(alloc, who, now, filter, change, fresh, upsert, shape),
    }
}

fn settled(
    alloc: Global,
    who: Who,
    now: u64,
    filter: &Filter,
    deed: &Deed,
    rows: &[Row],
) -> Result<Outcome, ApplyRefused>
    requires { AreSound rows.now }
    ensures ok { IfOk result (λ it. Ends (effect_of who now filter.now deed.now (matching filter.now (docs_in_rows rows.now))) it) }
    ensures refused { IfErr result (λ why. Fails why
        (effect_of who now filter.now deed.now (matching filter.now (docs_in_rows rows.now)))) }
{
    match deed {
        Deed::Update {
            update,
            multi,
            upsert,
        } => { updated(alloc, who, now, filter, update, *multi, *upsert, rows) }
        Deed::Delete { one } => {
            let outcome = deleted(alloc, filter, *one, rows)?;
            Ok(outcome)
        }
        Deed::Modify {
            order,
            change,
            fresh,
            upsert,
            shape,
        } => {
            modified(
                alloc, who, now, filter, order, change, *fresh, *upsert, shape, rows,
            )
        }
    }
}

/// What comes of a deed that is refused.
fn refused(alloc: Global, why: ApplyRefused) -> Result<Outcome, NoMemory>
    ensures { IfOk result (λ it. Refuses why it) }
{
    match why {
        ApplyRefused::Refused(kind) => Ok(only(alloc, OpReply::Refused(kind))),
        ApplyRefused::NoMemory => Err(NoMemory),
    }
}

/// What a deed makes of the rows that were selected, of which the filter holds or not. A refusal changes nothing. A row behind the first
/// that the filter holds of is read only for an update or a removal of all.
pub fn finish(
    alloc: Global,
    who: Who,
    now: u64,
    filter: &Filter,
    deed: &Deed,
    rows: &[Row],
) -> Result<Outcome, NoMemory>
    requires { AreSound rows.now }
    ensures settles { IfOk result (λ outcome. Settles
        (effect_of who now filter.now deed.now (matching filter.now (docs_in_rows rows.now))) outcome) }
    ensures fits { IfOk result (λ outcome. Fits outcome.reply) }
    ensures answer { IfOk result (λ outcome. IsAnswer outcome.reply) }
{
    match settled(alloc, who, now, filter, deed, rows) {
        Ok(outcome) => Ok(outcome),
        Err(why) => refused(alloc, why),
    }
}
