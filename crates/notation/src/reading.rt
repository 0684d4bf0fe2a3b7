//! Documents and lists. A text is handed on without blanks at its front.

use crate::scalars::{behind, cut, scalar};
use bson_values::{Document, List, Text, Value};
use std::alloc::Global;

/// The most levels of documents and lists.
const MOST_LEVELS: u32 = 64;

/// The text behind a comma; the text itself where a bracket closes.
fn next(text: &str) -> Option<&str> {
    if text.starts_with('}') || text.starts_with(']') {
        return Some(text);
    }
    behind(text, ',')
}

/// A name, in quotes or as it stands before its colon, and the text behind that.
fn name(text: &str) -> Option<(&str, &str)> {
    match text.strip_prefix('"') {
        Some(quoted) => {
            let (name, rest) = cut(quoted, '"')?;
            Some((name, behind(rest, ':')?))
        }
        None => cut(text, ':'),
    }
}

fn add(alloc: Global, document: &mut Document, name: &str, value: Value) -> Option<()> {
    let name = Text::of(alloc, name).ok()?;
    document.push(name, value).ok()
}

#[cycle(reading)]
fn push_pair<'a>(
    alloc: Global,
    document: &mut Document,
    text: &'a str,
    levels: u32,
) -> Option<&'a str> {
    let (name, rest) = name(text)?;
    let (value, rest) = front(alloc, rest, levels)?;
    add(alloc, document, name, value)?;
    next(rest)
}

/// The pairs up to the bracket that closes them, and the text behind it.
#[cycle(reading)]
fn pairs(alloc: Global, text: &str, levels: u32) -> Option<(Document, &str)> {
    let mut document = Document::new(alloc);
    let mut rest = text;
    for _ in 0..text.len() {
        if let Some(rest) = behind(rest, '}') {
            return Some((document, rest));
        }
        rest = push_pair(alloc, &mut document, rest, levels)?;
    }
    None
}

#[cycle(reading)]
fn push_item<'a>(
    alloc: Global,
    items: &mut List<Value>,
    text: &'a str,
    levels: u32,
) -> Option<&'a str> {
    let (item, rest) = front(alloc, text, levels)?;
    items.add(item).ok()?;
    next(rest)
}

/// The items up to the bracket that closes them, and the text behind it.
#[cycle(reading)]
fn items(alloc: Global, text: &str, levels: u32) -> Option<(List<Value>, &str)> {
    let mut items = List::new(alloc);
    let mut rest = text;
    for _ in 0..text.len() {
        if let Some(rest) = behind(rest, ']') {
            return Some((items, rest));
        }
        rest = push_item(alloc, &mut items, rest, levels)?;
    }
    None
}

/// The value at the front, and the text behind it.
#[cycle(reading)]
fn front(alloc: Global, text: &str, levels: u32) -> Option<(Value, &str)> {
    if levels == 0 {
        return None;
    }
    if let Some(rest) = behind(text, '{') {
        let (document, rest) = pairs(alloc, rest, levels - 1)?;
        return Some((Value::Doc(document), rest));
    }
    if let Some(rest) = behind(text, '[') {
        let (items, rest) = items(alloc, rest, levels - 1)?;
        return Some((Value::Arr(items), rest));
    }
    scalar(alloc, text)
}

/// The value that the text writes. None for another text, and where memory is wanting.
pub fn value(alloc: Global, text: &str) -> Option<Value> {
    match front(alloc, text.trim_start(), MOST_LEVELS)? {
        (value, "") => Some(value),
        _ => None,
    }
}

/// The document that the text writes. None for another text, and where memory is wanting.
pub fn document(alloc: Global, text: &str) -> Option<Document> {
    match value(alloc, text)? {
        Value::Doc(document) => Some(document),
        _ => None,
    }
}

fn push_document<'a>(
    alloc: Global,
    documents: &mut List<Document>,
    text: &'a str,
) -> Option<&'a str> {
    let rest = behind(text, '{')?;
    let (document, rest) = pairs(alloc, rest, MOST_LEVELS)?;
    documents.add(document).ok()?;
    next(rest)
}

/// The documents of the list that the text writes. None for another text, and where memory is wanting.
pub fn documents(alloc: Global, text: &str) -> Option<List<Document>> {
    let mut documents = List::new(alloc);
    let mut rest = behind(text, '[')?;
    for _ in 0..text.len() {
        if rest == "]" {
            return Some(documents);
        }
        rest = push_document(alloc, &mut documents, rest)?;
    }
    None
}
