//! Values that hold no others.

use bson_values::{Binary, Bytes, Regex, Text, Value};
use std::alloc::Global;

/// The text behind a sign and the blanks that follow it.
pub(crate) fn behind(text: &str, sign: char) -> Option<&str> {
    let rest = text.strip_prefix(sign)?;
    Some(rest.trim_start())
}

/// What stands before a sign, and the text behind it and the blanks that follow it.
pub(crate) fn cut(text: &str, sign: char) -> Option<(&str, &str)> {
    let (before, rest) = text.split_once(sign)?;
    Some((before, rest.trim_start()))
}

fn text(alloc: Global, bytes: &str) -> Option<Value> {
    let text = Text::of(alloc, bytes).ok()?;
    Some(Value::Str(text))
}

fn regex(alloc: Global, pattern: &str, options: &str) -> Option<Value> {
    let pattern = Text::of(alloc, pattern).ok()?;
    let options = Text::of(alloc, options).ok()?;
    Some(Value::Regex(Regex { pattern, options }))
}

fn binary(alloc: Global, text: &str) -> Option<Value> {
    let (subtype, digits) = cut(text, ',')?;
    let subtype = subtype.parse().ok()?;
    let bytes = hex::decode(alloc, digits).ok()?;
    let bytes = Bytes::from_vec(bytes);
    Some(Value::Bin(Binary { subtype, bytes }))
}

fn id(digits: &str) -> Option<Value> {
    let mut id = [0; 12];
    hex::decode_to_slice(digits, &mut id).ok()?;
    Some(Value::Id(id))
}

/// `12` or `12L`.
fn number(word: &str) -> Option<Value> {
    match word.strip_suffix('L') {
        Some(digits) => Some(Value::Long(digits.parse().ok()?)),
        None => Some(Value::Int(word.parse().ok()?)),
    }
}

fn bare(word: &str) -> Option<Value> {
    match word {
        "null" => Some(Value::Null),
        "true" => Some(Value::Bool(true)),
        "false" => Some(Value::Bool(false)),
        _ => number(word),
    }
}

/// Whether a word ends before that byte.
fn ends(byte: u8) -> bool {
    matches!(byte, b',' | b'(' | b']' | b'}' | b' ' | b'\n')
}

/// A word, and the text behind it.
fn word(text: &str) -> Option<(&str, &str)> {
    let len = text.bytes().position(ends).unwrap_or(text.len());
    text.split_at_checked(len)
}

/// `Date(-2)`, `Stamp(3)`, `Id(0102030405060708090a0b0c)`, `Bin(5, 00ff)`.
fn named(alloc: Global, name: &str, given: &str) -> Option<Value> {
    match name {
        "Date" => Some(Value::Date(given.parse().ok()?)),
        "Stamp" => Some(Value::Stamp(given.parse().ok()?)),
        "Id" => id(given),
        "Bin" => binary(alloc, given),
        _ => None,
    }
}

/// A word, or a name with what stands in brackets behind it.
fn unquoted(alloc: Global, text: &str) -> Option<(Value, &str)> {
    let (word, rest) = word(text)?;
    match rest.strip_prefix('(') {
        Some(rest) => {
            let (given, rest) = cut(rest, ')')?;
            Some((named(alloc, word, given)?, rest))
        }
        None => Some((bare(word)?, rest.trim_start())),
    }
}

fn quoted(alloc: Global, rest: &str) -> Option<(Value, &str)> {
    let (bytes, rest) = cut(rest, '"')?;
    Some((text(alloc, bytes)?, rest))
}

fn slashed(alloc: Global, rest: &str) -> Option<(Value, &str)> {
    let (pattern, rest) = rest.split_once('/')?;
    let (options, rest) = word(rest)?;
    Some((regex(alloc, pattern, options)?, rest.trim_start()))
}

/// The value at the front that holds no others, and the text behind it.
pub(crate) fn scalar(alloc: Global, text: &str) -> Option<(Value, &str)> {
    if let Some(rest) = text.strip_prefix('"') {
        return quoted(alloc, rest);
    }
    if let Some(rest) = text.strip_prefix('/') {
        return slashed(alloc, rest);
    }
    unquoted(alloc, text)
}
