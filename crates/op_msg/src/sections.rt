ghost use Rattle.std.specs.Prelude.{◌≡◌, ◌≤◌, ◌<◌, ◌+◌, ◌-◌, ◌==◌, ◌++◌, [], length, slice_index, IfOk};
ghost use Rattle.bson_wire.specs.Grammar.{MOST_NESTED};
ghost use Rattle.bson_wire.specs.Reading.{Before, document_at};
ghost use Rattle.op_msg.specs.Limits.{MOST_MESSAGE};
ghost use Rattle.op_msg.specs.Stream.{moved};
ghost use Rattle.op_msg.specs.Reading.{in_message, document_in, documents_at, sized_at, sequence_at, sequences_at, behind_those};
ghost use Rattle.op_msg.specs.Reading.{body_at, end_at, content_at};
ghost use Rattle.op_msg.specs.Front.{Gives};

use crate::message::{BadKind, Message, Sequence};
use crate::refused::Refused;
use bson_values::{Document, List, Text};
use bson_wire::{Foreign, ReadRefused, name, read};
use byteorder::{ByteOrder, LittleEndian};
use std::alloc::Global;
use std_words::{head, tail};

/// A foreign element of a document that begins at `place`, with its place in the message.
fn moved(foreign: Option<Foreign>, place: u64) -> Option<Foreign>
    requires within { place ≤ MOST_MESSAGE }
    requires near { Before MOST_MESSAGE foreign }
    ensures { result ≡ moved place foreign }
{
    match foreign {
        Some(it) => Some(Foreign {
            code: it.code,
            place: place + it.place,
        }),
        None => None,
    }
}

/// The document at the front of some bytes, which begin at `place`, its first foreign element, and the bytes behind it.
fn read_at(
    alloc: Global,
    bytes: &[u8],
    place: u64,
) -> Result<(Document, Option<Foreign>, &[u8]), Refused>
    requires { place + length bytes.now ≤ MOST_MESSAGE }
    ensures value { Gives (λ it. (it.0, it.1, it.2.now)) result
        (in_message place (document_at MOST_NESTED (length bytes.now) bytes.now)) }
    ensures shorter { IfOk result (λ it. length it.2.now < length bytes.now) }
{
    match read(alloc, bytes) {
        Ok(front) => {
            let foreign = moved(front.foreign, place);
            Ok((front.doc, foreign, tail(bytes, front.used as usize)))
        }
        Err(ReadRefused::Malformed(at)) => Err(Refused::Bad(BadKind::Document, place + at)),
        Err(ReadRefused::NoMemory) => Err(Refused::NoMemory),
    }
}

/// The same within the section whose kind byte stands at `section`.
#[tactic(auto, unfolding(crate::specs::Reading::document_in))]
fn document(
    alloc: Global,
    bytes: &[u8],
    place: u64,
    section: u64,
) -> Result<(Document, Option<Foreign>, &[u8]), Refused>
    requires { place + length bytes.now ≤ MOST_MESSAGE }
    ensures value { Gives (λ it. (it.0, it.1, it.2.now)) result (document_in section place bytes.now) }
    ensures shorter { IfOk result (λ it. length it.2.now < length bytes.now) }
{
    if bytes.len() < 4 {
        return Err(Refused::Bad(BadKind::Section, section));
    }
    read_at(alloc, bytes, place)
}

/// The documents that fill some bytes of that section, which end at `end`, and their first foreign element.
fn documents(
    alloc: Global,
    bytes: &[u8],
    end: u64,
    section: u64,
) -> Result<(List<Document>, Option<Foreign>), Refused>
    requires within { length bytes.now ≤ end }
    requires near { end ≤ MOST_MESSAGE }
    ensures { Gives (λ it. (it.0, it.1, [])) result (documents_at end section bytes.now) }
{
    let mut docs = List::new(alloc);
    let mut foreign = None;
    let mut rest = bytes;
    while rest.len() > 0 {
        let place = end - rest.len() as u64;
        let (doc, own, after) = match document(alloc, rest, place, section) {
            Ok(found) => found,
            Err(refused) => return Err(refused),
        };
        if let Err(_) = docs.add(doc) {
            return Err(Refused::NoMemory);
        }
        foreign = foreign.or(own);
        rest = after;
    }
    Ok((docs, foreign))
}

/// What stands within the size at the front, and the bytes behind it.
#[tactic(auto, unfolding(crate::specs::Reading::sized_at))]
fn sized(bytes: &[u8], section: u64) -> Result<(&[u8], &[u8]), Refused>
    ensures value { Gives (λ it. (it.0.now, it.1.now)) result (sized_at section bytes.now) }
    ensures shorter { IfOk result (λ it. length it.0.now + length it.1.now ≤ length bytes.now) }
{
    if bytes.len() < 4 {
        return Err(Refused::Bad(BadKind::Section, section));
    }
    let size = LittleEndian::read_u32(bytes) as usize;
    if size < 5 {
        return Err(Refused::Bad(BadKind::Section, section));
    }
    if bytes.len() < size {
        return Err(Refused::Bad(BadKind::Section, section));
    }
    Ok((tail(head(bytes, size), 4), tail(bytes, size)))
}

/// The section of kind 1 whose kind byte stands at `section`, before these bytes, its first foreign element, and the bytes behind it.
#[tactic(auto, unfolding(crate::specs::Reading::sequence_at))]
fn sequence(
    alloc: Global,
    bytes: &[u8],
    end: u64,
    section: u64,
) -> Result<(Sequence, Option<Foreign>, &[u8]), Refused>
    requires within { length bytes.now ≤ end }
    requires near { end ≤ MOST_MESSAGE }
    ensures value { Gives (λ it. (it.0, it.1, it.2.now)) result (sequence_at end section bytes.now) }
    ensures shorter { IfOk result (λ it. length it.2.now ≤ length bytes.now) }
{
    let (inside, rest) = sized(bytes, section)?;
    let (identifier, inside) = match name(inside, section) {
        Ok(found) => found,
        Err(_) => return Err(Refused::Bad(BadKind::Section, section)),
    };
    let (docs, foreign) = documents(alloc, inside, end - rest.len() as u64, section)?;
    let name = Text::of(alloc, identifier)?;
    Ok((Sequence { name, docs }, foreign, rest))
}

/// The sections of kind 1 up to one of another kind, behind those before them, their first foreign element, and the bytes behind them.
fn sequences(
    alloc: Global,
    before: List<Sequence>,
    bytes: &[u8],
    end: u64,
) -> Result<(List<Sequence>, Option<Foreign>, &[u8]), Refused>
    requires within { length bytes.now ≤ end }
    requires near { end ≤ MOST_MESSAGE }
    ensures value { Gives (λ it. (it.0, it.1, it.2.now)) result (behind_those before (sequences_at end bytes.now)) }
    ensures shorter { IfOk result (λ it. length it.2.now ≤ length bytes.now) }
{
    let mut sequences = before;
    let mut foreign = None;
    let mut rest = bytes;
    while rest.len() > 0 && rest[0] == 1 {
        let section = end - rest.len() as u64;
        let (it, own, after) = match sequence(alloc, tail(rest, 1), end, section) {
            Ok(found) => found,
            Err(refused) => return Err(refused),
        };
        if let Err(_) = sequences.add(it) {
            return Err(Refused::NoMemory);
        }
        foreign = foreign.or(own);
        rest = after;
    }
    Ok((sequences, foreign, rest))
}

/// The document of the section of kind 0 at the front, its first foreign element, and the bytes behind it. They end at `end`.
#[tactic(auto, unfolding(crate::specs::Reading::body_at))]
fn body(
    alloc: Global,
    bytes: &[u8],
    end: u64,
) -> Result<(Document, Option<Foreign>, &[u8]), Refused>
    requires within { length bytes.now ≤ end }
    requires near { end ≤ MOST_MESSAGE }
    ensures value { Gives (λ it. (it.0, it.1, it.2.now)) result (body_at end bytes.now) }
    ensures shorter { IfOk result (λ it. length it.2.now ≤ length bytes.now) }
{
    if bytes.len() == 0 {
        return Err(Refused::Bad(BadKind::Body, end));
    }
    let section = end - bytes.len() as u64;
    if bytes[0] != 0 {
        return Err(Refused::Bad(BadKind::Section, section));
    }
    document(alloc, tail(bytes, 1), section + 1, section)
}

/// Refuses what is left behind the sections.
#[tactic(auto, unfolding(crate::specs::Reading::end_at))]
fn ended(alloc: Global, bytes: &[u8], end: u64) -> Result<(), Refused>
    requires within { length bytes.now ≤ end }
    requires near { end ≤ MOST_MESSAGE }
    ensures { Gives (λ it. it) result (end_at end bytes.now) }
{
    if bytes.len() == 0 {
        return Ok(());
    }
    match body(alloc, bytes, end) {
        Ok(_) => Err(Refused::Bad(BadKind::Body, end - bytes.len() as u64)),
        Err(refused) => Err(refused),
    }
}

/// The message with that `requestID` whose sections these are. They end at `end`.
#[tactic(auto, unfolding(crate::specs::Reading::content_at))]
pub(crate) fn content(
    alloc: Global,
    request: i32,
    sections: &[u8],
    end: u64,
) -> Result<Message, Refused>
    requires within { length sections.now ≤ end }
    requires near { end ≤ MOST_MESSAGE }
    ensures { Gives (λ it. it) result (content_at request end sections.now) }
{
    let (front, ahead, rest) = sequences(alloc, List::new(alloc), sections, end)?;
    let (body, own, rest) = body(alloc, rest, end)?;
    let (sequences, behind, rest) = sequences(alloc, front, rest, end)?;
    ended(alloc, rest, end)?;
    Ok(Message {
        request,
        body,
        sequences,
        foreign: ahead.or(own.or(behind)),
    })
}
