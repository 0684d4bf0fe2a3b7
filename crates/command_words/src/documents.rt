ghost use Rattle.std.specs.Prelude.{◌≡◌, ◌<◌, [], map, length, IfSome, IfOk};
ghost use Rattle.std.specs.List.{position};
ghost use Rattle.std.specs.Option.{unwrap_or};
ghost use Rattle.std.specs.Str.{bytes_eq};
ghost use Rattle.bson_values.specs.declared.value.Value.TheViews.{out-Value};
ghost use Rattle.command_words.specs.Body.{pairs_of, documents_in, sequence_of, documents_of};

use bson_values::{Document, List, NoMemory, Value};
use op_msg::{Message, Sequence};
use std::alloc::Global;

/// The document that the value is, moved out of it.
fn document_in(alloc: Global, value: Value) -> Document
    ensures { result ≡ pairs_of (out-Value value) }
{
    match value {
        Value::Doc(document) => document,
        _ => Document::new(alloc),
    }
}

fn documents_among(alloc: Global, items: List<Value>) -> Result<List<Document>, NoMemory>
    ensures { IfOk result (λ docs. docs ≡ map (λ item. pairs_of (out-Value item)) items) }
{
    let mut docs = List::new(alloc);
    for item in items.into_vec() {
        docs.add(document_in(alloc, item))?;
    }
    Ok(docs)
}

/// The documents of the array that the value is, moved out of it.
fn documents_in(alloc: Global, value: Value) -> Result<List<Document>, NoMemory>
    ensures { IfOk result (λ docs. docs ≡ documents_in (out-Value value)) }
{
    match value {
        Value::Arr(items) => documents_among(alloc, items),
        _ => Ok(List::new(alloc)),
    }
}

/// Where the sequence of that name stands.
fn place_of(sequences: &[Sequence], name: &str) -> Option<usize>
    ensures value { result ≡ position (λ sequence. bytes_eq sequence.name name.now) sequences.now }
    ensures within { IfSome result (λ place. place < length sequences.now) }
{
    sequences
        .iter()
        .position(|sequence| sequence.name.as_str() == name)
}

/// The documents of the sequence of that name.
fn documents_beside(alloc: Global, mut sequences: List<Sequence>, name: &str) -> List<Document>
    ensures { result ≡ unwrap_or (sequence_of sequences name.now) [] }
{
    match place_of(sequences.as_slice(), name) {
        Some(place) => sequences.remove(place).docs,
        None => List::new(alloc),
    }
}

/// The documents of that name, moved out of the message.
pub(crate) fn documents_named(
    alloc: Global,
    message: Message,
    name: &str,
) -> Result<List<Document>, NoMemory>
    ensures { IfOk result (λ docs. docs ≡ documents_of message name.now) }
{
    let Message {
        mut body,
        sequences,
        ..
    } = message;
    match body.place(name) {
        Some(place) => documents_in(alloc, body.remove(place)?.value),
        None => Ok(documents_beside(alloc, sequences, name)),
    }
}
