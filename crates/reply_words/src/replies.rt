ghost use Rattle.std.specs.Prelude.{◌≡◌, IfOk};
ghost use Rattle.reply_words.specs.declared.replies.Reply.TheVariants as reply;
ghost use Rattle.reply_words.specs.Replies.{document_of};

use crate::batches::batch;
use crate::fields::{add, number};
use crate::refusals::error;
use bson_values::{Document, List, NoMemory, Space, Value};
use case_tables::Kind;
use std::alloc::Global;

/// What a message is answered.
#[derive(Drop)]
pub enum Reply {
    /// It was done, and there is nothing more to tell.
    Done,
    /// It was refused. `foreign` is the type byte of its first element of an unsupported type.
    Error { kind: Kind, foreign: Option<u8> },
    /// So many documents were found.
    Counted { n: u64 },
    /// The values that it asked for.
    Values { values: List<Value> },
    /// The documents that it asked for, of that collection.
    Batch { space: Space, docs: List<Document> },
}

impl Reply {
    /// The document that tells it.
    pub fn document(self, alloc: Global) -> Result<Document, NoMemory>
        ensures { IfOk result (λ doc. doc ≡ document_of self) }
    {
        match self {
            Reply::Done => done(alloc),
            Reply::Error { kind, foreign } => error(alloc, kind, foreign),
            Reply::Counted { n } => counted(alloc, n),
            Reply::Values { values } => listed(alloc, values),
            Reply::Batch { space, docs } => batch(alloc, &space, docs),
        }
    }
}

/// `{ok: 1}`: what `ping` is answered.
pub fn done(alloc: Global) -> Result<Document, NoMemory>
    ensures { IfOk result (λ doc. doc ≡ document_of reply.Done) }
{
    let mut doc = Document::new(alloc);
    add(alloc, &mut doc, "ok", Value::Int(1))?;
    Ok(doc)
}

/// `{n: .., ok: 1}`
fn counted(alloc: Global, n: u64) -> Result<Document, NoMemory>
    ensures { IfOk result (λ doc. doc ≡ document_of (reply.Counted n)) }
{
    let mut doc = Document::new(alloc);
    add(alloc, &mut doc, "n", number(n))?;
    add(alloc, &mut doc, "ok", Value::Int(1))?;
    Ok(doc)
}

/// `{values: [..], ok: 1}`
fn listed(alloc: Global, values: List<Value>) -> Result<Document, NoMemory>
    ensures { IfOk result (λ doc. doc ≡ document_of (reply.Values values)) }
{
    let mut doc = Document::new(alloc);
    add(alloc, &mut doc, "values", Value::Arr(values))?;
    add(alloc, &mut doc, "ok", Value::Int(1))?;
    Ok(doc)
}
