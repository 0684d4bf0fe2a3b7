ghost use Rattle.std.specs.Prelude.{◌≡◌, ◌++◌, ◌+◌, ◌<◌, ◌≤◌, length, OnOk, OnErr};
ghost use Rattle.bson_values.specs.Measures.{size};
ghost use Rattle.bson_spelling.specs.Spelling.{spell};
ghost use Rattle.bson_wire.specs.Grammar.{LENGTH_LIMIT};

use bson_spelling::{Form, put_document};
use bson_values::{Bytes, Document, NoMemory, Room};

/// Appends the spelling of a document and takes no memory: a caller gives `out` room beforehand, as `Room::new` does
/// for `doc.size()` bytes.
#[tactic(auto, using(crate::proofs::Measured::measured))]
pub fn write_in(doc: &Document, out: &mut Room<u8>)
    requires small { size doc.now < LENGTH_LIMIT }
    requires room { size doc.now ≤ out.old.spare }
    ensures items { out.new.items ≡ out.old.items ++ spell doc.now }
    ensures spare { out.new.spare + size doc.now ≡ out.old.spare }
{
    put_document(Form::Bson, doc, out);
}

/// Appends the bytes of a document, as BSON 1.1 spells it. Want of memory appends nothing.
#[tactic(auto, using(crate::proofs::Measured::measured))]
pub fn write(doc: &Document, out: &mut Bytes) -> Result<(), NoMemory>
    requires small { length (spell doc.now) < LENGTH_LIMIT }
    ensures ok { OnOk result (out.new ≡ out.old ++ spell doc.now) }
    ensures err { OnErr result (out.new ≡ out.old) }
{
    match Room::behind(out.take(), doc.size()) {
        Ok(mut room) => {
            write_in(doc, &mut room);
            *out = room.bytes();
            Ok(())
        }
        Err(bytes) => {
            *out = bytes;
            Err(NoMemory)
        }
    }
}
