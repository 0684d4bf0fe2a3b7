ghost use Rattle.std.specs.Prelude.{◌≡◌, ◌≤◌, length, IfOk};
ghost use Rattle.bson_wire.specs.Spelling.{spell};
ghost use Rattle.op_msg.specs.Limits.{MOST_REPLY};
ghost use Rattle.op_msg.specs.Reply.{header, reply};

use crate::message::OP_MSG;
use bson_values::{Bytes, Document, NoMemory, Room};
use bson_wire::write_in;
use byteorder::{ByteOrder, LittleEndian};
use std::alloc::Global;

/// How many bytes of a reply stand before its document.
const BEFORE: u64 = 21;

/// The bytes of a reply to OP_MSG before its document, which has `size` bytes: what `put_reply` begins with. It takes no memory.
pub fn head(number: i32, request: i32, size: u64) -> [u8; 21]
    requires { size ≤ MOST_REPLY }
    ensures { result ≡ header number request size }
{
    let mut bytes = [0; 21];
    LittleEndian::write_u32(&mut bytes, (size + BEFORE) as u32);
    LittleEndian::write_i32(&mut bytes[4..], number);
    LittleEndian::write_i32(&mut bytes[8..], request);
    LittleEndian::write_u32(&mut bytes[12..], OP_MSG);
    bytes
}

/// The bytes of a reply to OP_MSG: OP_MSG with no flags and one section, of kind 0. `number` becomes its `requestID`, and `request`,
/// that of the message it answers, its `responseTo`.
#[tactic(auto, using(bson_wire::proofs::Measured::measured))]
pub fn put_reply(
    alloc: Global,
    number: i32,
    request: i32,
    doc: &Document,
) -> Result<Bytes, NoMemory>
    requires { length (spell doc.now) ≤ MOST_REPLY }
    ensures { IfOk result (λ bytes. bytes ≡ reply number request doc.now) }
{
    let size = doc.size();
    let mut room = Room::new(alloc, BEFORE + size)?;
    room.extend_in(&head(number, request, size));
    write_in(doc, &mut room);
    Ok(room.bytes())
}
