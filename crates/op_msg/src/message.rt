use bson_values::{Document, List, Text};
use bson_wire::Foreign;

/// A document sequence: what a section of kind 1 holds.
#[derive(Drop)]
pub struct Sequence {
    /// The identifier, which names the field of the command that the documents stand for.
    pub name: Text,
    pub docs: List<Document>,
}

/// A request: OP_MSG with one body and any number of document sequences.
#[derive(Drop)]
pub struct Message {
    /// The `requestID`, which the reply answers to.
    pub request: i32,
    /// The document of the section of kind 0.
    pub body: Document,
    /// The sections of kind 1, in order.
    pub sequences: List<Sequence>,
    /// The first foreign element of all documents, in the order of the bytes, with its place counted from the front of the message.
    /// It is in none of them.
    pub foreign: Option<Foreign>,
}

/// What is wrong with the bytes of a message.
#[derive(Clone, Copy, Debug, PartialEq, Eq)]
pub enum BadKind {
    /// The `messageLength` is below 16 or above 48,000,000.
    Length,
    /// The `opCode` is none that is spoken.
    OpCode,
    /// A bit of the flags is set that must be known to be ignored.
    Flags,
    /// A checksum follows.
    Checksum,
    /// A section has another kind byte, a size that does not fit, no identifier, or too few bytes for a length.
    Section,
    /// There is no section of kind 0, or a second.
    Body,
    /// A document is malformed.
    Document,
}

/// What stands at the front of the bytes of a stream.
#[derive(Drop)]
pub enum Taken {
    /// A message, and how many bytes it takes.
    Whole { message: Message, used: u64 },
    /// Not all of a message yet.
    Short,
    /// Bytes that begin no message, whatever follows. The place of the fault is counted from their front.
    Bad { kind: BadKind, place: u64 },
    NoMemory,
}

/// The one opcode that is spoken.
pub(crate) const OP_MSG: u32 = 2013;
