ghost use Rattle.std.specs.Prelude.{◌≡◌, codes, true, IfOk, IfErr, OnOk};
ghost use Rattle.bson_values.specs.Names.{first_of};
ghost use Rattle.jsonb_contain.specs.Texts.{read_json};
ghost use Rattle.table_rows.specs.Rows.{above};
ghost use Rattle.table_rows.specs.declared.row.Row.{Row as Made};
ghost use Rattle.table_store.specs.Loading.{IsRead, may_stand};
ghost use Rattle.table_store.specs.LoadingSteps.{AddsRow, HasRows, RefusesRows, is_key_of, keys_in};

use crate::live::LAST_NUMBER;
use crate::load_refused::LoadRefused;
use bson_order::id_key;
use bson_values::{Bytes, Document, List, NoMemory, Text};
use jsonb_contain::{Json, TextRefused, read_text};
use naming::can_be_id;
use outside::KeptRow;
use std::alloc::Global;
use table_rows::{Row, Table};
use typed_json::{RowRefused, from_row};

/// The JSON of a kept text.
fn json_of(alloc: Global, text: &Text) -> Result<Json, RowRefused>
    ensures ok { IfOk result (λ json. read_json text.now ≡ Some json) }
    ensures err { IfErr result (λ e. e ≡ RowRefused.NotRow → read_json text.now ≡ None) }
{
    match read_text(alloc, text.as_str()) {
        Ok(json) => Ok(json),
        Err(TextRefused::NotJson) => Err(RowRefused::NotRow),
        Err(TextRefused::NoMemory) => Err(RowRefused::NoMemory),
    }
}

/// Whether the document has an `_id` that may be one, and this is its key.
fn is_key_of(alloc: Global, doc: &Document, key: &Bytes) -> Result<bool, NoMemory>
    ensures { IfOk result (λ it. it ≡ is_key_of (first_of (codes "_id") doc.now) key.now) }
{
    let Some(id) = doc.get("_id") else {
        return Ok(false);
    };
    if !can_be_id(id) {
        return Ok(false);
    }
    let own = id_key(alloc, id)?;
    Ok(own.as_slice() == key.as_slice())
}

/// The row that is kept under a key as a text.
fn row_of(alloc: Global, key: Bytes, text: &Text) -> Result<Row, RowRefused>
    ensures ok { IfOk result (λ row. IsRead key text.now row) }
    ensures err { IfErr result (λ e. e ≡ RowRefused.NotRow → (row : Made) → IsRead key text.now row → ⊥) }
{
    let json = json_of(alloc, text)?;
    let doc = from_row(alloc, &json)?;
    if !is_key_of(alloc, &doc, &key)? {
        return Err(RowRefused::NotRow);
    }
    let row = Row::new(alloc, key, json)?;
    Ok(row)
}

/// Whether a row may stand last.
#[tactic(auto, using(crate::proofs::RowLoads::key_in))]
fn may_stand(table: &Table, least: u64, kept: &KeptRow) -> bool
    ensures { result ≡ may_stand least (keys_in table.now.rows) kept.now }
{
    least <= kept.place && kept.place <= LAST_NUMBER && !table.has(&kept.key)
}

/// Adds a kept row last.
fn add_row(alloc: Global, table: &mut Table, least: u64, kept: KeptRow) -> Result<(), RowRefused>
    requires { above least table.old.rows ≡ true }
    ensures ok { OnOk result (AddsRow least kept table.old table.new) }
    ensures err { IfErr result (λ e. e ≡ RowRefused.NotRow → may_stand least (keys_in table.old.rows) kept ≡ true
        → (row : Made) → IsRead kept.key kept.text row → ⊥) }
{
    if !may_stand(table, least, &kept) {
        return Err(RowRefused::NotRow);
    }
    let KeptRow { place, key, text } = kept;
    let row = row_of(alloc, key, &text)?;
    match table.insert(place, row) {
        Ok(()) => {
            table.set_stamp(place);
            Ok(())
        }
        Err(_) => Err(RowRefused::NoMemory),
    }
}

/// A table's kept rows, and the least number above their places.
pub(crate) fn load_rows(
    alloc: Global,
    number: u64,
    rows: List<KeptRow>,
) -> Result<(Table, u64), LoadRefused>
    ensures ok { IfOk result (λ it. HasRows number rows it.0 it.1) }
    ensures err { IfErr result (RefusesRows number rows) }
{
    let mut table = Table::new(alloc, number);
    let mut least = 0;
    for row in rows.into_vec() {
        let place = row.place;
        match add_row(alloc, &mut table, least, row) {
            Ok(()) => least = place + 1,
            Err(RowRefused::NotRow) => {
                return Err(LoadRefused::BadKept {
                    table: number,
                    place,
                });
            }
            Err(RowRefused::NoMemory) => return Err(LoadRefused::NoMemory),
        }
    }
    Ok((table, least))
}
