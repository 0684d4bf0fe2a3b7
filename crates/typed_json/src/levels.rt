ghost use Rattle.std.specs.Prelude.{◌≡◌, ◌∷◌, ◌++◌, [], None, Some, IfOk, IfErr, OnOk, option_map};
ghost use Rattle.jsonb_contain.specs.declared.value.Json.TheViews.{out-Json};
ghost use Rattle.typed_json.specs.Reading.{doc_at, held_within, items_at, pairs_with, schema_parts, value_for, value_within};

use crate::adding::room;
use crate::leaves::leaf_of;
use crate::refused::RowRefused;
use crate::tags::{fields_of, items_of, part_of, text_of};
use bson_values::{Document, List, NoMemory, Pair, Text, Value};
use jsonb_contain::{Fields, Json};
use std::alloc::Global;

/// The names of a document in order, and what is at each.
struct Schema<'a> {
    names: &'a List<Json>,
    kinds: &'a Fields<Json>,
}

fn schema_parts(schema: &Json) -> Option<Schema<'_>>
    ensures { option_map (λ it. (it.names.now, it.kinds.now)) result ≡ schema_parts schema.now }
{
    match fields_of(schema) {
        Some(parts) => match parts.as_slice() {
            [first, last] => {
                if first.name.as_str() == "$k" && last.name.as_str() == "p" {
                    match (items_of(&first.value), fields_of(&last.value)) {
                        (Some(names), Some(kinds)) => Some(Schema { names, kinds }),
                        _ => None,
                    }
                } else {
                    None
                }
            }
            _ => None,
        },
        None => None,
    }
}

fn add_pair(
    pairs: &mut List<Pair<Value>>,
    alloc: Global,
    name: &Text,
    value: Value,
) -> Result<(), NoMemory>
    ensures { OnOk result (pairs.new ≡ pairs.old ++ (record { name = name.now; value = value }) ∷ []) }
{
    let name = name.copy(alloc)?;
    pairs.add(Pair { name, value })
}

/// The value that is this, and holds that.
#[cycle(read)]
fn value_of(alloc: Global, kind: &Json, plain: &Json, levels: u32) -> Result<Value, RowRefused>
    ensures ok { IfOk result (λ it. value_within levels kind.now plain.now ≡ Some it) }
    ensures err { IfErr result (λ e. e ≡ RowRefused.NotRow → value_within levels kind.now plain.now ≡ None) }
{
    match fields_of(kind) {
        Some(tag) => value_in(alloc, tag.as_slice(), plain, levels),
        None => Err(RowRefused::NotRow),
    }
}

#[cycle(read)]
fn value_in(
    alloc: Global,
    tag: &[Pair<Json>],
    plain: &Json,
    levels: u32,
) -> Result<Value, RowRefused>
    ensures ok { IfOk result (λ it. held_within levels tag.now (out-Json plain.now) ≡ Some it) }
    ensures err { IfErr result (λ e. e ≡ RowRefused.NotRow → held_within levels tag.now (out-Json plain.now) ≡ None) }
{
    match plain {
        Json::Array(plains) => match part_of(tag, "array", "i") {
            Some(kinds) => match items_of(kinds) {
                Some(kinds) => Ok(Value::Arr(items_at(alloc, kinds, plains, levels)?)),
                None => Err(RowRefused::NotRow),
            },
            None => Err(RowRefused::NotRow),
        },
        Json::Object(fields) => match part_of(tag, "object", "$s") {
            Some(schema) => Ok(Value::Doc(doc_at(alloc, schema, fields, 0, levels)?)),
            None => Err(RowRefused::NotRow),
        },
        Json::Null => leaf_of(alloc, tag, plain),
        Json::Bool(_) => leaf_of(alloc, tag, plain),
        Json::Whole(_) => leaf_of(alloc, tag, plain),
        Json::Text(_) => leaf_of(alloc, tag, plain),
    }
}

/// The items of an array, with at most so many levels of containers.
#[cycle(read)]
fn items_at(
    alloc: Global,
    kinds: &List<Json>,
    plains: &List<Json>,
    levels: u32,
) -> Result<List<Value>, RowRefused>
    ensures ok { IfOk result (λ it. items_at levels kinds.now plains.now ≡ Some it) }
    ensures err { IfErr result (λ e. e ≡ RowRefused.NotRow → items_at levels kinds.now plains.now ≡ None) }
{
    let kinds = kinds.as_slice();
    let plains = plains.as_slice();
    if levels == 0 {
        return Err(RowRefused::NotRow);
    }
    if kinds.len() != plains.len() {
        return Err(RowRefused::NotRow);
    }
    let mut items = room(alloc, kinds.len())?;
    for (index, kind) in kinds.iter().enumerate() {
        let value = value_of(alloc, kind, &plains[index], levels - 1)?;
        items.add(value)?;
    }
    Ok(items)
}

/// The document of a schema and its fields, beside which there are so many others.
#[cycle(read)]
pub(crate) fn doc_at(
    alloc: Global,
    schema: &Json,
    fields: &Fields<Json>,
    others: usize,
    levels: u32,
) -> Result<Document, RowRefused>
    ensures ok { IfOk result (λ it. doc_at levels schema.now fields.now others ≡ Some it) }
    ensures err { IfErr result (λ e. e ≡ RowRefused.NotRow → doc_at levels schema.now fields.now others ≡ None) }
{
    if levels == 0 {
        return Err(RowRefused::NotRow);
    }
    let Some(Schema { names, kinds }) = schema_parts(schema) else {
        return Err(RowRefused::NotRow);
    };
    if names.len() != kinds.len() {
        return Err(RowRefused::NotRow);
    }
    if fields.len() < others {
        return Err(RowRefused::NotRow);
    }
    if fields.len() - others != names.len() {
        return Err(RowRefused::NotRow);
    }
    // Lent, so that it is known that their names rise.
    let _kinds = kinds.as_slice();
    let _fields = fields.as_slice();
    pairs_of(alloc, names, kinds, fields, levels - 1)
}

/// The fields that are listed, in this order.
#[cycle(read)]
fn pairs_of(
    alloc: Global,
    names: &List<Json>,
    kinds: &Fields<Json>,
    fields: &Fields<Json>,
    levels: u32,
) -> Result<Document, RowRefused>
    ensures ok { IfOk result (λ it. pairs_with (value_within levels) kinds.now fields.now names.now ≡ Some it) }
    ensures err { IfErr result (λ e. e ≡ RowRefused.NotRow → pairs_with (value_within levels) kinds.now fields.now names.now ≡ None) }
{
    let mut pairs = room(alloc, names.len())?;
    for listed in names.as_slice() {
        let Some(name) = text_of(listed) else {
            return Err(RowRefused::NotRow);
        };
        let value = value_at(alloc, name.as_str(), kinds, fields, levels)?;
        add_pair(&mut pairs, alloc, name, value)?;
    }
    Ok(Document::of(alloc, pairs)?)
}

/// The value of that name in both tables.
#[cycle(read)]
fn value_at(
    alloc: Global,
    name: &str,
    kinds: &Fields<Json>,
    fields: &Fields<Json>,
    levels: u32,
) -> Result<Value, RowRefused>
    ensures ok { IfOk result (λ it. value_for (value_within levels) kinds.now fields.now name.now ≡ Some it) }
    ensures err { IfErr result (λ e. e ≡ RowRefused.NotRow → value_for (value_within levels) kinds.now fields.now name.now ≡ None) }
{
    match kinds.get(name) {
        Some(kind) => match fields.get(name) {
            Some(plain) => value_of(alloc, kind, plain, levels),
            None => Err(RowRefused::NotRow),
        },
        None => Err(RowRefused::NotRow),
    }
}
