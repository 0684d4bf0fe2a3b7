//! Messages as tables write them: a body, and a document whose fields are the sequences.

use bson_values::{Document, List, Text, Value};
use notation::document;
use op_msg::{Message, Sequence};
use std::alloc::Global;

/// A body, and the sequences beside it.
pub(crate) type Words = (&'static str, &'static str);

fn documents(alloc: Global, items: &[Value]) -> Option<List<Document>> {
    let mut docs = List::new(alloc);
    for item in items {
        let Value::Doc(doc) = item.copy(alloc).ok()? else {
            return None;
        };
        docs.add(doc).ok()?;
    }
    Some(docs)
}

fn sequence(alloc: Global, name: &str, value: &Value) -> Option<Sequence> {
    let Value::Arr(items) = value else {
        return None;
    };
    let docs = documents(alloc, items.as_slice())?;
    let name = Text::of(alloc, name).ok()?;
    Some(Sequence { name, docs })
}

fn sequences(alloc: Global, text: &str) -> Option<List<Sequence>> {
    let written = document(alloc, text)?;
    let mut sequences = List::new(alloc);
    for pair in written.as_slice() {
        let sequence = sequence(alloc, pair.name.as_str(), &pair.value)?;
        sequences.add(sequence).ok()?;
    }
    Some(sequences)
}

/// The message that the texts write. None for other texts, and where memory is wanting.
pub(crate) fn message(alloc: Global, words: Words) -> Option<Message> {
    let (body, beside) = words;
    let body = document(alloc, body)?;
    let sequences = sequences(alloc, beside)?;
    Some(Message {
        request: 7,
        body,
        sequences,
        foreign: None,
    })
}
