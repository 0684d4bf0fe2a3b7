ghost use Rattle.std.specs.Prelude.{◌≡◌, ◌≤◌, ◌<◌, ◌++◌, ◌+◌, [], length, IfOk, IfErr, OnOk, ℕ, List as Seq, take};
ghost use Rattle.std.specs.Result.{MatchResult};
ghost use Rattle.bson_values.specs.declared.pairs.Pair.{Pair as Named};
ghost use Rattle.bson_values.specs.declared.value.Value.{Value as Held};
ghost use Rattle.bson_wire.specs.declared.foreign.Foreign.{Foreign as Other};
ghost use Rattle.bson_wire.specs.Grammar.{pair_of, values, spells};
ghost use Rattle.bson_wire.specs.Reading.{Gives, Tells, value_at, element_at, all_at, document_at, array_at, first, Before, with_first};
ghost use Rattle.bson_wire.specs.Reading.{element_told, pairs_told, items_told};

use crate::foreign::{Foreign, is_foreign, past_foreign};
use crate::refused::ReadRefused;
use crate::scalars::{ended, length, name, part, scalar};
use bson_values::{Document, List, Pair, Text, Value};
use case_tables::type_byte;
use std::alloc::Global;
use std_words::{head, tail};

/// The document at the front of some bytes.
#[derive(Drop)]
pub struct Front {
    pub doc: Document,
    /// How many bytes it takes.
    pub used: u64,
    /// The first of its elements that are foreign, at any depth. They are not in `doc`.
    pub foreign: Option<Foreign>,
}

/// A value behind its type byte, which stands at `place`, unless it is foreign, and the first foreign element. All bytes end at `end`.
#[tactic(auto, unfolding(crate::specs::Reading::value_at))]
#[cycle(reader)]
fn value(
    alloc: Global,
    code: u8,
    bytes: &[u8],
    place: u64,
    end: u64,
    levels: u32,
) -> Result<(Option<Value>, Option<Foreign>, &[u8]), ReadRefused>
    requires within { length bytes.now ≤ end }
    requires near { place < end }
    ensures value { Gives (λ it. (it.0, it.1, it.2.now)) result
        (with_first (value_at (document_at levels) (array_at levels) end place code bytes.now)) }
    ensures shorter { IfOk result (λ it. length it.2.now ≤ length bytes.now) }
    ensures near { IfOk result (λ it. Before end it.1) }
{
    match code {
        type_byte!(object) => {
            let (doc, foreign, rest) = document(alloc, bytes, end, levels)?;
            Ok((Some(Value::Doc(doc)), foreign, rest))
        }
        type_byte!(array) => {
            let (items, foreign, rest) = array(alloc, bytes, end, levels)?;
            Ok((Some(Value::Arr(items)), foreign, rest))
        }
        _ => {
            if is_foreign(code) {
                let rest = past_foreign(code, bytes, place)?;
                return Ok((None, Some(Foreign { code, place }), rest));
            }
            let (value, rest) = scalar(alloc, code, bytes, place)?;
            Ok((Some(value), None, rest))
        }
    }
}

/// The name of an element and what `value` gives, behind its type byte.
#[tactic(auto, unfolding(crate::specs::Reading::element_at))]
#[cycle(reader)]
fn element(
    alloc: Global,
    code: u8,
    bytes: &[u8],
    end: u64,
    levels: u32,
) -> Result<(&str, Option<Value>, Option<Foreign>, &[u8]), ReadRefused>
    requires { length bytes.now < end }
    ensures value { Gives (λ it. (it.0.now, it.1, it.2, it.3.now)) result
        (element_told (element_at (document_at levels) (array_at levels) end code bytes.now)) }
    ensures shorter { IfOk result (λ it. length it.3.now ≤ length bytes.now) }
    ensures near { IfOk result (λ it. Before end it.2) }
{
    let place = end - (bytes.len() as u64 + 1);
    let (name, rest) = name(bytes, place)?;
    let (value, foreign, rest) = value(alloc, code, rest, place, end, levels)?;
    Ok((name, value, foreign, rest))
}

fn push(
    alloc: Global,
    pairs: &mut List<Pair<Value>>,
    name: &str,
    value: Option<Value>,
) -> Result<(), ReadRefused>
    ensures ok { OnOk result (pairs.new ≡ pairs.old ++ pair_of name.now value) }
    ensures err { IfErr result (λ refused. refused ≡ ReadRefused.NoMemory) }
{
    let Some(value) = value else {
        return Ok(());
    };
    let name = Text::of(alloc, name)?;
    Ok(pairs.add(Pair { name, value })?)
}

fn push_item(items: &mut List<Value>, item: Option<Value>) -> Result<(), ReadRefused>
    ensures ok { OnOk result (items.new ≡ items.old ++ values (pair_of [] item)) }
    ensures err { IfErr result (λ refused. refused ≡ ReadRefused.NoMemory) }
{
    let Some(item) = item else {
        return Ok(());
    };
    Ok(items.add(item)?)
}

/// The elements that fill the bytes: their pairs, and the first foreign one.
#[cycle(reader)]
fn elements(
    alloc: Global,
    bytes: &[u8],
    end: u64,
    levels: u32,
) -> Result<(Document, Option<Foreign>), ReadRefused>
    requires { length bytes.now ≤ end }
    ensures value { Gives (λ it. (it.0, it.1)) result
        (pairs_told (all_at (document_at levels) (array_at levels) end bytes.now)) }
    ensures near { IfOk result (λ it. Before end it.1) }
{
    let mut pairs = List::new(alloc);
    let mut foreign = None;
    let mut rest = bytes;
    while rest.len() > 0 {
        let code = rest[0];
        let (name, value, inner, after) = match element(alloc, code, tail(rest, 1), end, levels) {
            Ok(found) => found,
            Err(refused) => return Err(refused),
        };
        push(alloc, &mut pairs, name, value)?;
        foreign = foreign.or(inner);
        rest = after;
    }
    Ok((Document::of(alloc, pairs)?, foreign))
}

/// The values of the elements that fill the bytes, and the first foreign one.
#[cycle(reader)]
fn items(
    alloc: Global,
    bytes: &[u8],
    end: u64,
    levels: u32,
) -> Result<(List<Value>, Option<Foreign>), ReadRefused>
    requires { length bytes.now ≤ end }
    ensures value { Gives (λ it. (it.0, it.1)) result
        (items_told (all_at (document_at levels) (array_at levels) end bytes.now)) }
    ensures near { IfOk result (λ it. Before end it.1) }
{
    let mut items = List::new(alloc);
    let mut foreign = None;
    let mut rest = bytes;
    while rest.len() > 0 {
        let code = rest[0];
        let (_, value, inner, after) = match element(alloc, code, tail(rest, 1), end, levels) {
            Ok(found) => found,
            Err(refused) => return Err(refused),
        };
        push_item(&mut items, value)?;
        foreign = foreign.or(inner);
        rest = after;
    }
    Ok((items, foreign))
}

#[tactic(auto, unfolding(crate::specs::Reading::document_at, crate::specs::Reading::enclosed_at))]
#[cycle(reader)]
fn document(
    alloc: Global,
    bytes: &[u8],
    end: u64,
    levels: u32,
) -> Result<(Document, Option<Foreign>, &[u8]), ReadRefused>
    requires { length bytes.now ≤ end }
    ensures value { Gives (λ it. (it.0, it.1, it.2.now)) result (with_first (document_at levels end bytes.now)) }
    ensures shorter { IfOk result (λ it. length it.2.now ≤ length bytes.now) }
    ensures near { IfOk result (λ it. Before end it.1) }
{
    let place = end - bytes.len() as u64;
    if levels == 0 {
        return Err(ReadRefused::Malformed(place));
    }
    let (len, rest) = length(bytes, 5, place)?;
    let (whole, rest) = part(rest, len - 4, place)?;
    let inside_end = end - (rest.len() as u64 + 1);
    let inside = head(whole, whole.len() - 1);
    let (doc, foreign) = match elements(alloc, inside, inside_end, levels - 1) {
        Ok(pairs) => pairs,
        Err(refused) => return Err(refused),
    };
    match ended(whole, place) {
        Ok(_) => Ok((doc, foreign, rest)),
        Err(refused) => Err(refused),
    }
}

#[tactic(auto, unfolding(crate::specs::Reading::array_at, crate::specs::Reading::enclosed_at))]
#[cycle(reader)]
fn array(
    alloc: Global,
    bytes: &[u8],
    end: u64,
    levels: u32,
) -> Result<(List<Value>, Option<Foreign>, &[u8]), ReadRefused>
    requires { length bytes.now ≤ end }
    ensures value { Gives (λ it. (it.0, it.1, it.2.now)) result (with_first (array_at levels end bytes.now)) }
    ensures shorter { IfOk result (λ it. length it.2.now ≤ length bytes.now) }
    ensures near { IfOk result (λ it. Before end it.1) }
{
    let place = end - bytes.len() as u64;
    if levels == 0 {
        return Err(ReadRefused::Malformed(place));
    }
    let (len, rest) = length(bytes, 5, place)?;
    let (whole, rest) = part(rest, len - 4, place)?;
    let inside_end = end - (rest.len() as u64 + 1);
    let inside = head(whole, whole.len() - 1);
    let (items, foreign) = match items(alloc, inside, inside_end, levels - 1) {
        Ok(found) => found,
        Err(refused) => return Err(refused),
    };
    match ended(whole, place) {
        Ok(_) => Ok((items, foreign, rest)),
        Err(refused) => Err(refused),
    }
}

/// Reads the document of BSON 1.1 at the front, nested at most 128 deep. Bytes may follow it.
pub fn read(alloc: Global, bytes: &[u8]) -> Result<Front, ReadRefused>
    ensures found { IfOk result (λ front. (front.used ≤ length bytes.now)
        × (foreign : Seq Other) × spells (take front.used bytes.now) front.doc foreign × (front.foreign ≡ first foreign)) }
    // Where a document stands, nothing else is read, and want of memory is the one refusal.
    ensures only { (doc : Seq (Named Held)) (foreign : Seq Other) (spelling rest : Seq ℕ)
        → spells spelling doc foreign → bytes.now ≡ spelling ++ rest
        → MatchResult result (λ front. (front.doc ≡ doc) × (front.used ≡ length spelling) × (front.foreign ≡ first foreign))
        (λ refused. refused ≡ ReadRefused.NoMemory) }
    ensures near { IfOk result (λ front. Before (length bytes.now) front.foreign) }
    // Malformed bytes are told by the place of their first fault.
    ensures place { IfErr result (λ refused. Tells refused bytes.now) }
{
    let (doc, foreign, rest) = match document(alloc, bytes, bytes.len() as u64, 128) {
        Ok(found) => found,
        Err(refused) => return Err(refused),
    };
    Ok(Front {
        doc,
        used: (bytes.len() - rest.len()) as u64,
        foreign,
    })
}
