ghost use Rattle.std.specs.Prelude.{◌≡◌, ◌≤◌, length, IfOk};
ghost use Rattle.bson_wire.specs.Reading.{Gives, is_foreign, past_at, past_text_at, past_scoped_at, foreign_at};

use crate::refused::ReadRefused;
use crate::scalars::{length, part, text_part};
use case_tables::type_byte;

/// An element of a type of BSON 1.1 that no value has here: double, undefined, dbPointer, javascript, symbol, javascript with scope,
/// decimal, minKey, maxKey.
#[derive(Clone, Copy, Debug, PartialEq, Eq)]
pub struct Foreign {
    /// The type byte.
    pub code: u8,
    /// Where that stands, counted from the front of the bytes.
    pub place: u64,
}

#[tactic(auto, unfolding(crate::specs::Reading::is_foreign))]
pub(crate) fn is_foreign(code: u8) -> bool
    ensures { result ≡ is_foreign code }
{
    matches!(
        code,
        type_byte!(double)
            | type_byte!(undefined)
            | type_byte!(dbPointer)
            | type_byte!(javascript)
            | type_byte!(symbol)
            | type_byte!(javascriptWithScope)
            | type_byte!(decimal)
            | type_byte!(maxKey)
            | type_byte!(minKey)
    )
}

#[tactic(auto, unfolding(crate::specs::Reading::past_at))]
fn past(bytes: &[u8], len: usize, place: u64) -> Result<&[u8], ReadRefused>
    ensures value { Gives (λ it. it.now) result (past_at place len bytes.now) }
    ensures shorter { IfOk result (λ it. length it.now ≤ length bytes.now) }
{
    let (_, rest) = part(bytes, len, place)?;
    Ok(rest)
}

#[tactic(auto, unfolding(crate::specs::Reading::past_text_at))]
fn past_text(bytes: &[u8], place: u64) -> Result<&[u8], ReadRefused>
    ensures value { Gives (λ it. it.now) result (past_text_at place bytes.now) }
    ensures shorter { IfOk result (λ it. length it.now ≤ length bytes.now) }
{
    let (_, rest) = text_part(bytes, place)?;
    Ok(rest)
}

/// The least javascript with scope is a length, an empty string and an empty document: 4, 5 and 5 bytes.
#[tactic(auto, unfolding(crate::specs::Reading::past_scoped_at))]
fn past_scoped(bytes: &[u8], place: u64) -> Result<&[u8], ReadRefused>
    ensures value { Gives (λ it. it.now) result (past_scoped_at place bytes.now) }
    ensures shorter { IfOk result (λ it. length it.now ≤ length bytes.now) }
{
    let (len, rest) = length(bytes, 14, place)?;
    past(rest, len - 4, place)
}

/// The bytes after a value of a foreign type.
#[tactic(auto, unfolding(crate::specs::Reading::foreign_at))]
pub(crate) fn past_foreign(code: u8, bytes: &[u8], place: u64) -> Result<&[u8], ReadRefused>
    ensures value { Gives (λ it. it.now) result (foreign_at place code bytes.now) }
    ensures shorter { IfOk result (λ it. length it.now ≤ length bytes.now) }
{
    match code {
        type_byte!(double) => past(bytes, 8, place),
        type_byte!(undefined) => Ok(bytes),
        type_byte!(dbPointer) => {
            let rest = past_text(bytes, place)?;
            past(rest, 12, place)
        }
        type_byte!(javascript) => past_text(bytes, place),
        type_byte!(symbol) => past_text(bytes, place),
        type_byte!(javascriptWithScope) => past_scoped(bytes, place),
        type_byte!(decimal) => past(bytes, 16, place),
        type_byte!(maxKey) => Ok(bytes),
        type_byte!(minKey) => Ok(bytes),
        _ => Err(ReadRefused::Malformed(place)),
    }
}
