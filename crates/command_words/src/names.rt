ghost use Rattle.std.specs.Prelude.{◌≡◌, ◌<◌, ◌∷◌, ◌++◌, [], false, length, map, take, IfOk, OnOk, OnErr};
ghost use Rattle.bson_values.specs.Names.{names};
ghost use Rattle.bson_values.specs.Storable.{stands};
ghost use Rattle.command_words.specs.Body.{names_of, has_twice};

use bson_values::{Document, NoMemory, Text, Value};
use op_msg::{Message, Sequence};
use std::alloc::Global;

/// Whether the name stands before that place.
fn stands_before(document: &Document, place: usize, name: &str) -> bool
    ensures { result ≡ stands (take place (names document.now)) name.now }
{
    match document.place(name) {
        Some(first) => first < place,
        None => false,
    }
}

/// Whether the name stands in the document.
fn stands_in(document: &Document, name: &str) -> bool
    ensures { result ≡ stands (names document.now) name.now }
{
    match document.place(name) {
        Some(_) => true,
        None => false,
    }
}

/// Whether two fields have one name. Each name is looked up once, in the document's index.
fn body_has_twice(body: &Document) -> bool
    ensures { result ≡ has_twice (names body.now) }
{
    for (place, field) in body.as_slice().iter().enumerate() {
        if stands_before(body, place, field.name.as_str()) {
            return true;
        }
    }
    false
}

#[tactic(auto, using(crate::proofs::Twice::stands_either))]
fn stands_in_either(body: &Document, seen: &Document, name: &str) -> bool
    ensures { result ≡ stands (names body.now ++ names seen.now) name.now }
{
    stands_in(body, name) || stands_in(seen, name)
}

/// Adds a name to those that were seen.
fn see(alloc: Global, seen: &mut Document, name: &Text) -> Result<(), NoMemory>
    ensures { OnOk result (names seen.new ≡ names seen.old ++ name.now ∷ []) }
{
    let name = name.copy(alloc)?;
    match seen.push(name, Value::Null) {
        Ok(()) => Ok(()),
        Err(_) => Err(NoMemory),
    }
}

/// Whether a sequence has the name of a field, of which no two are one, or of another sequence.
fn sequences_have_twice(
    alloc: Global,
    body: &Document,
    sequences: &[Sequence],
) -> Result<bool, NoMemory>
    requires { has_twice (names body.now) ≡ false }
    ensures value { IfOk result (λ is. is ≡ has_twice (names body.now ++ map (λ it. it.name) sequences.now)) }
    ensures wanting { OnErr result (1 < length sequences.now) }
{
    // The names of the sequences so far, as a document with an index of its names.
    let mut seen = Document::new(alloc);
    for (place, sequence) in sequences.iter().enumerate() {
        if stands_in_either(body, &seen, sequence.name.as_str()) {
            return Ok(true);
        }
        if sequences.len() - place == 1 {
            return Ok(false);
        }
        see(alloc, &mut seen, &sequence.name)?;
    }
    Ok(false)
}

/// Whether two of the names that the message gives are one. It takes memory only to compare the names of several sequences.
pub(crate) fn has_twice(alloc: Global, message: &Message) -> Result<bool, NoMemory>
    ensures value { IfOk result (λ is. is ≡ has_twice (names_of message.now)) }
    ensures wanting { OnErr result (1 < length message.now.sequences) }
{
    if body_has_twice(&message.body) {
        return Ok(true);
    }
    sequences_have_twice(alloc, &message.body, message.sequences.as_slice())
}
