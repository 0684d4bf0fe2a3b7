ghost use Rattle.std.specs.Prelude.{◌≡◌, ◌^◌, ◌-◌, min, map, IfOk, OnOk, ◌++◌, ◌∷◌, []};
ghost use Rattle.bson_values.specs.declared.value.Value.TheVariants as value;
ghost use Rattle.reply_words.specs.declared.replies.Reply.TheVariants as reply;
ghost use Rattle.reply_words.specs.Replies.{namespace, cursor, document_of, total_size, fit_a_batch};

use crate::fields::add;
use bson_values::{Document, List, NoMemory, Space, Text, Value};
use std::alloc::Global;

/// The most bytes that the documents of one batch take.
const MOST_BYTES: u64 = 16_777_216;

/// Whether the documents go into one batch: at most `most` of them, of at most 16,777,216 bytes.
pub fn fit_a_batch(most: u64, docs: &[Document]) -> bool
    ensures { result ≡ fit_a_batch most docs.now }
{
    docs.len() as u64 <= most && total_size(docs) <= MOST_BYTES
}

fn total_size(docs: &[Document]) -> u64
    ensures { result ≡ min (total_size docs.now) (2 ^ 64 - 1) }
{
    let mut total = 0u64;
    let mut rest = docs;
    while let [doc, others @ ..] = rest {
        total = total.saturating_add(doc.size());
        rest = others;
    }
    total
}

/// The documents as values.
fn values(alloc: Global, docs: List<Document>) -> Result<List<Value>, NoMemory>
    ensures { IfOk result (λ values. values ≡ map value.Doc docs) }
{
    let mut values = List::new(alloc);
    for doc in docs.into_vec() {
        values.add(Value::Doc(doc))?;
    }
    Ok(values)
}

fn namespace(alloc: Global, space: &Space) -> Result<Text, NoMemory>
    ensures { IfOk result (λ text. text ≡ namespace space.now) }
{
    let mut text = String::from_str(alloc, space.db.as_str())?;
    text.push_str(".")?;
    text.push_str(space.coll.as_str())?;
    Text::from_string(alloc, text)
}

fn cursor(alloc: Global, space: &Space, docs: List<Document>) -> Result<Document, NoMemory>
    ensures { IfOk result (λ doc. doc ≡ cursor space.now docs) }
{
    let batch = values(alloc, docs)?;
    let namespace = namespace(alloc, space)?;
    let mut cursor = Document::new(alloc);
    add(alloc, &mut cursor, "firstBatch", Value::Arr(batch))?;
    add(alloc, &mut cursor, "id", Value::Long(0))?;
    add(alloc, &mut cursor, "ns", Value::Str(namespace))?;
    Ok(cursor)
}

/// `{cursor: {firstBatch: [..], id: 0L, ns: ..}, ok: 1}`: all of the documents in one batch, and no cursor behind it.
pub(crate) fn batch(
    alloc: Global,
    space: &Space,
    docs: List<Document>,
) -> Result<Document, NoMemory>
    ensures { IfOk result (λ doc. doc ≡ document_of (reply.Batch space.now docs)) }
{
    let cursor = cursor(alloc, space, docs)?;
    let mut doc = Document::new(alloc);
    add(alloc, &mut doc, "cursor", Value::Doc(cursor))?;
    add(alloc, &mut doc, "ok", Value::Int(1))?;
    Ok(doc)
}
