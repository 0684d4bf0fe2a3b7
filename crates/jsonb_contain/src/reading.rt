ghost use Rattle.std.specs.Prelude.{◌≡◌, None, Some, IfOk, IfErr};
ghost use Rattle.serde_json.specs.View.{view, items_view, members_view};
ghost use Rattle.jsonb_contain.specs.Texts.{json_of, list_of, fields_of, read_json};

use crate::fields::Fields;
use crate::refused::TextRefused;
use crate::value::Json;
use bson_values::{List, Pair, Text};
use serde_json::{Map, Value};
use std::alloc::Global;

#[cycle(whole)]
fn whole(alloc: Global, value: Value) -> Result<Json, TextRefused>
    ensures ok { IfOk result (λ it. json_of (view value) ≡ Some it) }
    ensures err { IfErr result (λ e. e ≡ TextRefused.NotJson → json_of (view value) ≡ None) }
{
    match value {
        Value::Null => Ok(Json::Null),
        Value::Bool(truth) => Ok(Json::Bool(truth)),
        Value::Number(number) => match number.as_i128() {
            Some(whole) => Ok(Json::Whole(whole)),
            None => Err(TextRefused::NotJson),
        },
        Value::String(text) => Ok(Json::Text(Text::from_string(alloc, text)?)),
        Value::Array(items) => Ok(Json::Array(whole_items(alloc, items)?)),
        Value::Object(members) => Ok(Json::Object(whole_members(alloc, members)?)),
    }
}

#[cycle(whole)]
fn whole_items(alloc: Global, items: Vec<Value>) -> Result<List<Json>, TextRefused>
    ensures ok { IfOk result (λ it. list_of (items_view items.items) ≡ Some it) }
    ensures err { IfErr result (λ e. e ≡ TextRefused.NotJson → list_of (items_view items.items) ≡ None) }
{
    let mut list = List::new(alloc);
    for item in items {
        let json = whole(alloc, item)?;
        list.add(json)?;
    }
    Ok(list)
}

#[cycle(whole)]
fn whole_members(alloc: Global, members: Map<String, Value>) -> Result<Fields<Json>, TextRefused>
    ensures ok { IfOk result (λ it. fields_of (members_view members.entries) ≡ Some it) }
    ensures err { IfErr result (λ e. e ≡ TextRefused.NotJson → fields_of (members_view members.entries) ≡ None) }
{
    let mut pairs = List::new(alloc);
    for (name, member) in members {
        let value = whole(alloc, member)?;
        let name = Text::from_string(alloc, name)?;
        pairs.add(Pair { name, value })?;
    }
    Ok(Fields::from_list(pairs))
}

/// The JSON that a text is.
pub fn read_text(alloc: Global, text: &str) -> Result<Json, TextRefused>
    ensures ok { IfOk result (λ it. read_json text.now ≡ Some it) }
    ensures err { IfErr result (λ e. e ≡ TextRefused.NotJson → read_json text.now ≡ None) }
{
    match Value::from_str(alloc, text) {
        Ok(value) => whole(alloc, value),
        Err(refused) => {
            if refused.is_memory() {
                Err(TextRefused::NoMemory)
            } else {
                Err(TextRefused::NotJson)
            }
        }
    }
}
