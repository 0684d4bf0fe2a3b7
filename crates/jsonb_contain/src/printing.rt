ghost use Rattle.std.specs.Prelude.{◌≡◌, ◌≤◌, IfOk, OnOk, Some, true};
ghost use Rattle.serde_json.specs.Data.{depth};
ghost use Rattle.serde_json.specs.Events.{SendsValue};
ghost use Rattle.serde_json.specs.Read.{max_depth};
ghost use Rattle.serde_json.specs.Written.{compact_text};
ghost use Rattle.jsonb_contain.specs.Texts.{data_of, fits, number_data, read_json, rises};

use crate::fields::Fields;
use crate::value::Json;
use bson_values::{List, NoMemory, Text};
use serde::{Described, Serialize, Serializer};
use std::alloc::Global;

impl Described for Json {
    ghost writes = { λ it old new. SendsValue (data_of it) old new × (rises it ≡ true) };
}

impl Serialize for Json {
    fn serialize<S: Serializer>(&self, out: &mut S) -> Result<(), S::Error> {
        send(self, out)
    }
}

#[cycle(send)]
fn send<S: Serializer>(json: &Json, out: &mut S) -> Result<(), S::Error>
    ensures sends { OnOk result (SendsValue (data_of json.now) (S.written out.old) (S.written out.new)) }
    ensures rises { OnOk result (rises json.now ≡ true) }
{
    match json {
        Json::Null => out.unit(),
        Json::Bool(truth) => out.bool(*truth),
        Json::Whole(number) => send_whole(*number, out),
        Json::Text(text) => out.str(text.as_str()),
        Json::Array(items) => send_items(items, out),
        Json::Object(fields) => send_fields(fields, out),
    }
}

fn send_whole<S: Serializer>(number: i128, out: &mut S) -> Result<(), S::Error>
    ensures { OnOk result (SendsValue (number_data number) (S.written out.old) (S.written out.new)) }
{
    if number < 0 {
        out.i128(number)
    } else {
        out.u128(number.unsigned_abs())
    }
}

#[cycle(send)]
fn send_items<S: Serializer>(items: &List<Json>, out: &mut S) -> Result<(), S::Error>
    ensures sends { OnOk result (SendsValue (data_of (Json.Array items.now)) (S.written out.old) (S.written out.new)) }
    ensures rises { OnOk result (rises (Json.Array items.now) ≡ true) }
{
    out.begin_seq(Some(items.len()))?;
    for item in items.as_slice() {
        send(item, out)?;
    }
    out.end_seq()
}

#[cycle(send)]
fn send_fields<S: Serializer>(fields: &Fields<Json>, out: &mut S) -> Result<(), S::Error>
    ensures sends { OnOk result (SendsValue (data_of (Json.Object fields.now)) (S.written out.old) (S.written out.new)) }
    ensures rises { OnOk result (rises (Json.Object fields.now) ≡ true) }
{
    out.begin_map(Some(fields.len()))?;
    for pair in fields.as_slice() {
        out.key(pair.name.as_str())?;
        send(&pair.value, out)?;
    }
    out.end_map()
}

/// The compact text of a JSON value, as `serde_json` writes it: no space, names in the order of their bytes.
pub fn text(alloc: Global, json: &Json) -> Result<Text, NoMemory>
    ensures text { IfOk result (λ it. it ≡ compact_text (data_of json.now)) }
    ensures read_again { IfOk result (λ it. fits json.now ≡ true → depth (data_of json.now) ≤ max_depth
        → read_json it ≡ Some json.now) }
{
    match serde_json::to_string(alloc, json) {
        Ok(text) => Text::from_string(alloc, text),
        Err(_) => Err(NoMemory),
    }
}
