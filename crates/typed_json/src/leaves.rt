ghost use Rattle.std.specs.Prelude.{◌≡◌, None, Some, IfOk, IfErr, option_map};
ghost use Rattle.jsonb_contain.specs.declared.value.Json.TheViews.{out-Json};
ghost use Rattle.typed_json.specs.Leaf.{binary_value, bytes_value, id_value, leaf_of, number_value, regex_value, tagged_value};
ghost use Rattle.typed_json.specs.Leaf.{text_value};

use crate::refused::RowRefused;
use crate::tags::{is_alone, part_of, text_of};
use base64::DecodeAllocError;
use base64::engine::general_purpose::STANDARD;
use bson_values::{Binary, Bytes, Pair, Regex, Text, Value};
use hex::FromHex;
use jsonb_contain::Json;
use std::alloc::Global;

/// The ObjectId whose 24 hex digits, in lower case, are this text.
#[tactic(auto, unfolding(crate::specs::Plain::hex_text))]
fn id_of(text: &str) -> Option<[u8; 12]>
    ensures { option_map (λ id. Value.Id id) result ≡ id_value text.now }
{
    let Ok(id) = <[u8; 12] as FromHex>::from_hex(text) else {
        return None;
    };
    // Digits in capitals are hex too, so the text is made again.
    let mut again = [0u8; 24];
    if hex::encode_to_slice(id.as_slice(), &mut again).is_err() {
        return None;
    }
    if again.as_slice() == text.as_bytes() {
        Some(id)
    } else {
        None
    }
}

fn number_value(tag: &[Pair<Json>], number: i128) -> Result<Value, RowRefused>
    ensures ok { IfOk result (λ it. number_value tag.now number ≡ Some it) }
    ensures err { IfErr result (λ e. e ≡ RowRefused.NotRow → number_value tag.now number ≡ None) }
{
    if is_alone(tag, "int") {
        return match i32::try_from(number) {
            Ok(number) => Ok(Value::Int(number)),
            Err(_) => Err(RowRefused::NotRow),
        };
    }
    if is_alone(tag, "long") {
        return match i64::try_from(number) {
            Ok(number) => Ok(Value::Long(number)),
            Err(_) => Err(RowRefused::NotRow),
        };
    }
    if is_alone(tag, "date") {
        return match i64::try_from(number) {
            Ok(moment) => Ok(Value::Date(moment)),
            Err(_) => Err(RowRefused::NotRow),
        };
    }
    if is_alone(tag, "timestamp") {
        return match u64::try_from(number) {
            Ok(stamp) => Ok(Value::Stamp(stamp)),
            Err(_) => Err(RowRefused::NotRow),
        };
    }
    Err(RowRefused::NotRow)
}

/// The bytes whose base64 text, with its padding, is this.
#[tactic(auto, using(crate::proofs::LeafAgain::bytes_found), unfolding(crate::specs::Plain::base64_text))]
fn bytes_value(alloc: Global, text: &str) -> Result<Bytes, RowRefused>
    ensures ok { IfOk result (λ it. bytes_value text.now ≡ Some it) }
    ensures err { IfErr result (λ e. e ≡ RowRefused.NotRow → bytes_value text.now ≡ None) }
{
    match STANDARD.decode(alloc, text.as_bytes()) {
        Ok(bytes) => Ok(Bytes::from_vec(bytes)),
        Err(DecodeAllocError::OutOfMemory) => Err(RowRefused::NoMemory),
        Err(_) => Err(RowRefused::NotRow),
    }
}

fn binary_value(alloc: Global, more: &Json, text: &Text) -> Result<Value, RowRefused>
    ensures ok { IfOk result (λ it. binary_value text.now more.now ≡ Some it) }
    ensures err { IfErr result (λ e. e ≡ RowRefused.NotRow → binary_value text.now more.now ≡ None) }
{
    let Json::Whole(number) = more else {
        return Err(RowRefused::NotRow);
    };
    let Ok(subtype) = u8::try_from(*number) else {
        return Err(RowRefused::NotRow);
    };
    let bytes = bytes_value(alloc, text.as_str())?;
    Ok(Value::Bin(Binary { subtype, bytes }))
}

fn regex_value(alloc: Global, more: &Json, pattern: &Text) -> Result<Value, RowRefused>
    ensures ok { IfOk result (λ it. regex_value pattern.now more.now ≡ Some it) }
    ensures err { IfErr result (λ e. e ≡ RowRefused.NotRow → regex_value pattern.now more.now ≡ None) }
{
    let Some(options) = text_of(more) else {
        return Err(RowRefused::NotRow);
    };
    let pattern = pattern.copy(alloc)?;
    let options = options.copy(alloc)?;
    Ok(Value::Regex(Regex { pattern, options }))
}

fn tagged_value(alloc: Global, tag: &[Pair<Json>], text: &Text) -> Result<Value, RowRefused>
    ensures ok { IfOk result (λ it. tagged_value tag.now text.now ≡ Some it) }
    ensures err { IfErr result (λ e. e ≡ RowRefused.NotRow → tagged_value tag.now text.now ≡ None) }
{
    match part_of(tag, "binData", "s") {
        Some(more) => binary_value(alloc, more, text),
        None => match part_of(tag, "regex", "o") {
            Some(more) => regex_value(alloc, more, text),
            None => Err(RowRefused::NotRow),
        },
    }
}

fn text_value(alloc: Global, tag: &[Pair<Json>], text: &Text) -> Result<Value, RowRefused>
    ensures ok { IfOk result (λ it. text_value tag.now text.now ≡ Some it) }
    ensures err { IfErr result (λ e. e ≡ RowRefused.NotRow → text_value tag.now text.now ≡ None) }
{
    if is_alone(tag, "string") {
        return Ok(Value::Str(text.copy(alloc)?));
    }
    if is_alone(tag, "objectId") {
        return match id_of(text.as_str()) {
            Some(id) => Ok(Value::Id(id)),
            None => Err(RowRefused::NotRow),
        };
    }
    tagged_value(alloc, tag, text)
}

/// The value of this type that is so as plain JSON, where it holds no others.
pub(crate) fn leaf_of(alloc: Global, tag: &[Pair<Json>], plain: &Json) -> Result<Value, RowRefused>
    ensures ok { IfOk result (λ it. leaf_of tag.now (out-Json plain.now) ≡ Some it) }
    ensures err { IfErr result (λ e. e ≡ RowRefused.NotRow → leaf_of tag.now (out-Json plain.now) ≡ None) }
{
    match plain {
        Json::Null => {
            if is_alone(tag, "null") {
                return Ok(Value::Null);
            }
            Err(RowRefused::NotRow)
        }
        Json::Bool(truth) => {
            if is_alone(tag, "bool") {
                return Ok(Value::Bool(*truth));
            }
            Err(RowRefused::NotRow)
        }
        Json::Whole(number) => number_value(tag, *number),
        Json::Text(text) => text_value(alloc, tag, text),
        Json::Array(_) => Err(RowRefused::NotRow),
        Json::Object(_) => Err(RowRefused::NotRow),
    }
}
