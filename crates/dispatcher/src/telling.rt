ghost use Rattle.std.specs.Prelude.{◌≡◌, FitsSigned, IfOk, None};
ghost use Rattle.std.specs.Int.{w32};
ghost use Rattle.op_msg.specs.Reply.{reply};
ghost use Rattle.bson_spelling.specs.Spelling.{spell};
ghost use Rattle.reply_words.specs.declared.replies.Reply.TheVariants as told_by;
ghost use Rattle.reply_words.specs.Replies.{document_of};
ghost use Rattle.reply_words.specs.Small.{IsSmall};
ghost use Rattle.dispatcher.specs.Answers.{no_memory, number_after};

use bson_values::{Bytes, NoMemory};
use op_msg::{head, put_reply};
use reply_words::Reply;
use std::alloc::Global;

/// How many bytes of a reply stand before its document.
pub(crate) const BEFORE: u64 = 21;

/// The `requestID` of the reply that comes after so many: they are counted modulo 2^31, from 1 on.
pub(crate) fn number_after(replies: u64) -> i32
    ensures value { result ≡ number_after replies }
    ensures fits { FitsSigned w32 result }
{
    (replies.wrapping_add(1) % 0x8000_0000) as i32
}

/// The bytes of a reply, by its own number on the connection and that of the request.
#[tactic(auto, using(reply_words::proofs::Fitting::fits))]
pub(crate) fn put(alloc: Global, number: i32, request: i32, told: Reply) -> Result<Bytes, NoMemory>
    requires { IsSmall told }
    ensures { IfOk result (λ bytes. bytes ≡ reply number request (document_of told)) }
{
    let doc = told.document(alloc)?;
    put_reply(alloc, number, request, &doc)
}

/// `{ok: 0, errmsg: "out of memory", code: 146, codeName: "ExceededMemoryLimit"}`.
const STARVED: &[u8; 83] =
    b"S\0\0\0\x10ok\0\0\0\0\0\x02errmsg\0\x0e\0\0\0out of memory\0\x10code\0\x92\0\0\0\x02codeName\0\x14\0\0\0ExceededMemoryLimit\0\0";

#[tactic(auto, using(crate::proofs::Starved::starved_is))]
fn starved() -> &'static [u8; 83]
    ensures { result.now ≡ spell (document_of (told_by.Error 24 None)) }
{
    STARVED
}

/// The bytes that answer the message of that `requestID`, which comes after so many replies, where memory was wanting. It takes none.
#[tactic(auto, unfolding(crate::specs::Answers::no_memory))]
pub fn no_memory(replies: u64, request: i32) -> [u8; 104]
    ensures { result ≡ no_memory replies request }
{
    let mut bytes = [0; 104];
    bytes[..21].copy_from_slice(&head(number_after(replies), request, 83));
    bytes[21..].copy_from_slice(starved());
    bytes
}
