ghost use Rattle.std.specs.Prelude.{◌≡◌, ◌++◌, ◌∷◌, ◌+◌, ◌-◌, ◌≤◌, ◌<◌, [], length, take, drop, set, get_or};
ghost use Rattle.bson_spelling.specs.declared.form.Form.TheVariants.{Bson};
ghost use Rattle.bson_spelling.specs.Spelling.{int32, int64, cstring, string, bool, held, element_of};
ghost use Rattle.reply_words.specs.Written.{counted};

use bson_spelling::{Form, put_tagged};
use bson_values::{Room, Value};
use case_tables::type_byte;

/// The low four bytes of a length or of a place.
fn put_low(number: u64, out: &mut Room<u8>)
    requires room { 4 ≤ out.old.spare }
    ensures items { out.new.items ≡ out.old.items ++ int32 number }
    ensures spare { out.new.spare + 4 ≡ out.old.spare }
{
    out.extend_in(&number.to_le_bytes()[..4]);
}

/// The type byte and the name of an element.
pub(crate) fn put_name(code: u8, name: &str, out: &mut Room<u8>)
    requires room { length name.now + 2 ≤ out.old.spare }
    ensures items { out.new.items ≡ out.old.items ++ code ∷ cstring name.now }
    ensures spare { out.new.spare + length name.now + 2 ≡ out.old.spare }
{
    out.push_in(code);
    out.extend_in(name.as_bytes());
    out.push_in(0);
}

/// An int with that name.
pub(crate) fn put_int(name: &str, number: u64, out: &mut Room<u8>)
    requires room { length name.now + 6 ≤ out.old.spare }
    ensures items { out.new.items ≡ out.old.items ++ element_of name.now (16, int32 number) }
    ensures spare { out.new.spare + length name.now + 6 ≡ out.old.spare }
{
    put_name(type_byte!(int), name, out);
    put_low(number, out);
}

fn put_long(name: &str, number: u64, out: &mut Room<u8>)
    requires room { length name.now + 10 ≤ out.old.spare }
    ensures items { out.new.items ≡ out.old.items ++ element_of name.now (18, int64 number) }
    ensures spare { out.new.spare + length name.now + 10 ≡ out.old.spare }
{
    put_name(type_byte!(long), name, out);
    out.extend_in(&number.to_le_bytes());
}

/// A count with that name.
pub(crate) fn put_number(name: &str, n: u64, out: &mut Room<u8>)
    requires room { length (element_of name.now (counted n)) ≤ out.old.spare }
    ensures items { out.new.items ≡ out.old.items ++ element_of name.now (counted n) }
    ensures spare { out.new.spare + length (element_of name.now (counted n)) ≡ out.old.spare }
{
    if n < 1 << 31 {
        put_int(name, n, out);
    } else {
        put_long(name, n.min(i64::MAX as u64), out);
    }
}

/// A string with that name.
pub(crate) fn put_text(name: &str, text: &str, out: &mut Room<u8>)
    requires room { length name.now + length text.now + 7 ≤ out.old.spare }
    ensures items { out.new.items ≡ out.old.items ++ element_of name.now (2, string Bson text.now) }
    ensures spare { out.new.spare + length name.now + length text.now + 7 ≡ out.old.spare }
{
    put_name(type_byte!(string), name, out);
    put_low(text.len() as u64 + 1, out);
    out.extend_in(text.as_bytes());
    out.push_in(0);
}

/// A bool with that name.
pub(crate) fn put_bool(name: &str, truth: bool, out: &mut Room<u8>)
    requires room { length name.now + 3 ≤ out.old.spare }
    ensures items { out.new.items ≡ out.old.items ++ element_of name.now (8, bool truth) }
    ensures spare { out.new.spare + length name.now + 3 ≡ out.old.spare }
{
    put_name(type_byte!(bool), name, out);
    out.push_in(u8::from(truth));
}

#[tactic(auto, using(crate::proofs::Appended::put_at))]
fn put_over(place: usize, byte: u8, out: &mut Room<u8>)
    requires within { place < length out.old.items }
    ensures items { out.new.items ≡ set out.old.items place byte }
    ensures spare { out.new.spare ≡ out.old.spare }
{
    out.overwrite(place, &[byte]);
}

/// The byte at `from` goes to `to`, and leaves a 00 byte.
fn shift(from: usize, to: usize, out: &mut Room<u8>)
    requires within { (from < length out.old.items) × (to < length out.old.items) }
    ensures items { out.new.items ≡ set (set out.old.items to (get_or out.old.items from 0)) from 0 }
    ensures spare { out.new.spare ≡ out.old.spare }
{
    let byte = out.items()[from];
    put_over(to, byte, out);
    put_over(from, 0, out);
}

/// A value with that name.
pub(crate) fn put_value(name: &str, value: &Value, out: &mut Room<u8>)
    requires room { length (element_of name.now (held Bson value.now)) ≤ out.old.spare }
    ensures items { out.new.items ≡ out.old.items ++ element_of name.now (held Bson value.now) }
    ensures spare { out.new.spare + length (element_of name.now (held Bson value.now)) ≡ out.old.spare }
{
    let start = out.items().len();
    out.push_in(0);
    out.extend_in(name.as_bytes());
    // The type byte is written before the bytes of the value, and its place is in front of the name.
    put_tagged(Form::Bson, value, out);
    shift(start + 1 + name.len(), start, out);
}

/// Begins a document or an array, whose length `close` fills in.
pub(crate) fn open(out: &mut Room<u8>) -> usize
    requires room { 4 ≤ out.old.spare }
    ensures start { result ≡ length out.old.items }
    ensures items { out.new.items ≡ out.old.items ++ int32 0 }
    ensures spare { out.new.spare + 4 ≡ out.old.spare }
{
    let start = out.items().len();
    put_low(0, out);
    start
}

/// Ends what was opened at `start`, and fills its length in.
pub(crate) fn close(start: usize, out: &mut Room<u8>)
    requires room { 1 ≤ out.old.spare }
    requires within { start + 4 ≤ length out.old.items }
    ensures items { out.new.items ≡ take start out.old.items
        ++ int32 (length out.old.items - start + 1) ++ drop (start + 4) out.old.items ++ 0 ∷ [] }
    ensures spare { out.new.spare + 1 ≡ out.old.spare }
{
    out.push_in(0);
    let len = (out.items().len() - start) as u64;
    out.overwrite(start, &len.to_le_bytes()[..4]);
}
