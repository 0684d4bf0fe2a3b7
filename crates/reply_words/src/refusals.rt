ghost use Rattle.std.specs.Prelude.{◌≡◌, ◌++◌, ◌∷◌, [], pos, codes, IfOk, OnOk};
ghost use Rattle.case_tables.specs.Refusals.{code_of};
ghost use Rattle.reply_words.specs.declared.replies.Reply.TheVariants as reply;
ghost use Rattle.reply_words.specs.Replies.{sentence, document_of};

use crate::fields::{add, add_text};
use bson_values::{Document, NoMemory, Text, Value};
use case_tables::{Kind, UNSUPPORTED_TYPE, code_name_of, code_of, text_of, type_name_of};
use std::alloc::Global;

fn add_code(alloc: Global, doc: &mut Document, kind: Kind) -> Result<(), NoMemory>
    ensures { OnOk result (doc.new ≡ doc.old ++ (record { name = codes "code"; value = Value.Int (pos (code_of kind)) }) ∷ []) }
{
    add(alloc, doc, "code", Value::Int(code_of(kind) as i32))
}

/// The sentence of a kind, with the name of a type that is not supported.
fn sentence(alloc: Global, kind: Kind, foreign: Option<u8>) -> Result<Text, NoMemory>
    ensures { IfOk result (λ text. text ≡ sentence kind foreign) }
{
    let Some(code) = foreign else {
        return Text::of(alloc, text_of(kind));
    };
    let name = type_name_of(code as u32);
    if kind != UNSUPPORTED_TYPE {
        return Text::of(alloc, text_of(kind));
    }
    if name.is_empty() {
        return Text::of(alloc, text_of(kind));
    }
    let mut text = String::from_str(alloc, text_of(kind))?;
    text.push_str(" ")?;
    text.push_str(name)?;
    Text::from_string(alloc, text)
}

/// `{ok: 0, errmsg: .., code: .., codeName: ..}`: what a refused message is answered. `foreign` is the type byte of its first element of
/// an unsupported type; it is looked at where that is the kind of the refusal.
pub fn error(alloc: Global, kind: Kind, foreign: Option<u8>) -> Result<Document, NoMemory>
    ensures { IfOk result (λ doc. doc ≡ document_of (reply.Error kind foreign)) }
{
    let sentence = sentence(alloc, kind, foreign)?;
    let mut doc = Document::new(alloc);
    add(alloc, &mut doc, "ok", Value::Int(0))?;
    add(alloc, &mut doc, "errmsg", Value::Str(sentence))?;
    add_code(alloc, &mut doc, kind)?;
    add_text(alloc, &mut doc, "codeName", code_name_of(kind))?;
    Ok(doc)
}
