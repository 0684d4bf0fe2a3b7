//! What is asked of tables, as rows of scripts have it, and what they reply, as words.

ghost use Rattle.std.specs.Prelude.{◌≡◌, ◌∷◌, [], true, IfSome};
ghost use Rattle.naming.specs.Names.{is_valid};
ghost use Rattle.table_words.specs.Sound.{IsSound, SoundAdded, SoundEdits, accepted};

use super::kept::space;
use bson_order::id_key;
use bson_values::{Bytes, Document, List, Space, Text, storable};
use jsonb_contain::Cond;
use naming::{can_be_id, is_valid};
use notation::document;
use std::alloc::Global;
use table_rows::Row;
use table_words::{Edit, TableCall, TableReply};
use typed_json::to_row;

/// An edit: the document of the row that replaces one, or the key of that which is removed.
#[derive(Clone, Copy)]
pub enum Change {
    Replace(&'static str),
    Remove(&'static [u8]),
}

/// A call. A row is written as its document.
#[derive(Clone, Copy)]
pub enum Ask {
    /// All rows.
    SelectNamed(&'static str),
    /// The row of a key.
    Select(u64, &'static [u8]),
    InsertNamed(&'static str, &'static str),
    Insert(u64, &'static str),
    /// The number, the stamp, the edits, and the row that is added.
    Commit(u64, u64, &'static [Change], Option<&'static str>),
    Create(&'static str),
    Drop(&'static str),
    DropDatabase(&'static str),
    ListTables(&'static str),
    ListDatabases,
}

fn valid_space(alloc: Global, name: &str) -> Option<Space>
    ensures { IfSome result (λ it. is_valid it ≡ true) }
{
    let space = space(alloc, name)?;
    if is_valid(&space) { Some(space) } else { None }
}

/// The row of a document that may be stored.
fn row_of(alloc: Global, document: &Document) -> Option<Row>
    ensures { IfSome result IsSound }
{
    let id = document.get("_id")?;
    if !can_be_id(id) {
        return None;
    }
    match storable(document) {
        Ok(()) => {}
        Err(_) => return None,
    }
    let json = to_row(alloc, document).ok()?;
    let key = id_key(alloc, id).ok()?;
    Row::new(alloc, key, json).ok()
}

/// The same, of a document's text.
fn row(alloc: Global, text: &str) -> Option<Row>
    ensures { IfSome result IsSound }
{
    let document = document(alloc, text)?;
    let row = row_of(alloc, &document);
    drop(document);
    row
}

fn edit(alloc: Global, change: &Change) -> Option<Edit>
    ensures { IfSome result (λ it. SoundEdits (it ∷ [])) }
{
    match change {
        Change::Replace(text) => Some(Edit::Replace(row(alloc, text)?)),
        Change::Remove(key) => Some(Edit::Remove(Bytes::of(alloc, key).ok()?)),
    }
}

#[tactic(auto, using(crate::proofs::Edits::sound_added))]
fn edits(alloc: Global, changes: &[Change]) -> Option<List<Edit>>
    ensures { IfSome result SoundEdits }
{
    let mut edits = List::new(alloc);
    for change in changes {
        let edit = edit(alloc, change)?;
        edits.add(edit).ok()?;
    }
    Some(edits)
}

fn added(alloc: Global, text: Option<&str>) -> Option<Option<Row>>
    ensures { IfSome result SoundAdded }
{
    match text {
        Some(text) => Some(Some(row(alloc, text)?)),
        None => Some(None),
    }
}

fn commit(
    alloc: Global,
    table: u64,
    stamp: u64,
    changes: &[Change],
    text: Option<&str>,
) -> Option<TableCall>
    ensures { IfSome result accepted }
{
    let edits = edits(alloc, changes)?;
    let added = added(alloc, text)?;
    Some(TableCall::Commit {
        table,
        stamp,
        edits,
        added,
    })
}

fn insert_named(alloc: Global, name: &str, text: &str) -> Option<TableCall>
    ensures { IfSome result accepted }
{
    let space = valid_space(alloc, name)?;
    let row = row(alloc, text)?;
    Some(TableCall::InsertNamed { space, row })
}

fn insert(alloc: Global, table: u64, text: &str) -> Option<TableCall>
    ensures { IfSome result accepted }
{
    let row = row(alloc, text)?;
    Some(TableCall::Insert { table, row })
}

fn select_named(alloc: Global, name: &str) -> Option<TableCall>
    ensures { IfSome result accepted }
{
    let space = space(alloc, name)?;
    let cond = Cond::All(List::new(alloc));
    Some(TableCall::SelectNamed { space, cond })
}

fn select(alloc: Global, table: u64, key: &[u8]) -> Option<TableCall>
    ensures { IfSome result accepted }
{
    let key = Bytes::of(alloc, key).ok()?;
    let cond = Cond::KeyIs(key);
    Some(TableCall::Select { table, cond })
}

fn create(alloc: Global, name: &str) -> Option<TableCall>
    ensures { IfSome result accepted }
{
    let space = valid_space(alloc, name)?;
    Some(TableCall::Create { space })
}

fn drop_space(alloc: Global, name: &str) -> Option<TableCall>
    ensures { IfSome result accepted }
{
    let space = space(alloc, name)?;
    Some(TableCall::Drop { space })
}

fn drop_database(alloc: Global, name: &str) -> Option<TableCall>
    ensures { IfSome result accepted }
{
    let db = Text::of(alloc, name).ok()?;
    Some(TableCall::DropDatabase { db })
}

fn list_tables(alloc: Global, name: &str) -> Option<TableCall>
    ensures { IfSome result accepted }
{
    let db = Text::of(alloc, name).ok()?;
    Some(TableCall::ListTables { db })
}

pub fn call_of(alloc: Global, ask: &Ask) -> Option<TableCall>
    ensures { IfSome result accepted }
{
    match ask {
        Ask::SelectNamed(name) => select_named(alloc, name),
        Ask::Select(table, key) => select(alloc, *table, key),
        Ask::InsertNamed(name, text) => insert_named(alloc, name, text),
        Ask::Insert(table, text) => insert(alloc, *table, text),
        Ask::Commit(table, stamp, changes, text) => commit(alloc, *table, *stamp, changes, *text),
        Ask::Create(name) => create(alloc, name),
        Ask::Drop(name) => drop_space(alloc, name),
        Ask::DropDatabase(name) => drop_database(alloc, name),
        Ask::ListTables(name) => list_tables(alloc, name),
        Ask::ListDatabases => Some(TableCall::ListDatabases),
    }
}

/// Adds a word. One that finds no memory is missing, and its row fails.
fn put(out: &mut String, word: &str) {
    if !out.is_empty() {
        let _ = out.push_str(" ");
    }
    let _ = out.push_str(word);
}

fn put_number(out: &mut String, number: u64) {
    let _ = write!(out, " {number}");
}

fn tell_rows(out: &mut String, table: u64, stamp: u64, rows: &List<Row>) {
    put(out, "Rows");
    put_number(out, table);
    put_number(out, stamp);
    for row in rows.as_slice() {
        put(out, row.text.as_str());
    }
}

fn tell_names(out: &mut String, names: &List<Text>) {
    put(out, "Names");
    for name in names.as_slice() {
        put(out, name.as_str());
    }
}

fn tell_numbers(out: &mut String, word: &str, numbers: &[u64]) {
    put(out, word);
    for number in numbers {
        put_number(out, *number);
    }
}

/// Adds the words of a reply: its variant, its numbers, and the texts of its rows or its names.
fn tell(out: &mut String, reply: &TableReply) {
    match reply {
        TableReply::Rows { table, stamp, rows } => tell_rows(out, *table, *stamp, rows),
        TableReply::Absent => put(out, "Absent"),
        TableReply::Gone => put(out, "Gone"),
        TableReply::Moved(stamp) => tell_numbers(out, "Moved", &[*stamp]),
        TableReply::Duplicate => put(out, "Duplicate"),
        TableReply::Inserted { table, stamp } => tell_numbers(out, "Inserted", &[*table, *stamp]),
        TableReply::Done(stamp) => tell_numbers(out, "Done", &[*stamp]),
        TableReply::Dropped(count) => tell_numbers(out, "Dropped", &[*count]),
        TableReply::Exists => put(out, "Exists"),
        TableReply::Names(names) => tell_names(out, names),
        TableReply::Spent => put(out, "Spent"),
        TableReply::Full => put(out, "Full"),
        TableReply::Fault => put(out, "Fault"),
        TableReply::NoMemory => put(out, "NoMemory"),
    }
}

/// The words of a reply.
pub fn told(alloc: Global, reply: &TableReply) -> String {
    let mut out = String::new(alloc);
    tell(&mut out, reply);
    out
}
