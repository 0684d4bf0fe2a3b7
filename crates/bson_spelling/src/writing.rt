ghost use Rattle.std.specs.Prelude.{◌≡◌, ◌++◌, ◌∷◌, ◌+◌, ◌-◌, ◌≤◌, [], length, map, take, drop};
ghost use Rattle.std.specs.Fmt.{decimal};
ghost use Rattle.std.specs.List.{flat_map};
ghost use Rattle.bson_spelling.specs.Spelling.{int, width, counted, cstring, string, binary, held, element_of, items_from, element};
ghost use Rattle.bson_spelling.specs.Spelling.{enclosed};

use crate::form::Form;
use bson_values::{Document, List, Room, Value};
use case_tables::type_byte;
use itoa::Buffer;

/// Of a length of 2^32 bytes or more BSON has the low four bytes: a caller who wants BSON has fewer.
#[tactic(auto, using(crate::proofs::Sizes::lengths))]
fn put_length(form: Form, len: u64, out: &mut Room<u8>)
    requires room { width form ≤ out.old.spare }
    ensures items { out.new.items ≡ out.old.items ++ counted form len }
    ensures spare { out.new.spare + width form ≡ out.old.spare }
{
    match form {
        Form::Bson => out.extend_in(&len.to_le_bytes()[..4]),
        Form::Key => out.extend_in(&len.min(i64::MAX as u64).to_le_bytes()),
    }
}

/// Puts the length over that which stands at `place`.
fn fill_length(form: Form, place: usize, len: u64, out: &mut Room<u8>)
    requires within { place + width form ≤ length out.old.items }
    ensures items { out.new.items
        ≡ take place out.old.items ++ counted form len ++ drop (place + width form) out.old.items }
    ensures spare { out.new.spare ≡ out.old.spare }
{
    match form {
        Form::Bson => out.overwrite(place, &len.to_le_bytes()[..4]),
        Form::Key => out.overwrite(place, &len.min(i64::MAX as u64).to_le_bytes()),
    }
}

fn put_cstring(text: &str, out: &mut Room<u8>)
    requires room { length (cstring text.now) ≤ out.old.spare }
    ensures items { out.new.items ≡ out.old.items ++ cstring text.now }
    ensures spare { out.new.spare + length (cstring text.now) ≡ out.old.spare }
{
    out.extend_in(text.as_bytes());
    out.push_in(0);
}

#[tactic(auto, using(crate::proofs::Sizes::lengths))]
fn put_string(form: Form, text: &str, out: &mut Room<u8>)
    requires room { length (string form text.now) ≤ out.old.spare }
    ensures items { out.new.items ≡ out.old.items ++ string form text.now }
    ensures spare { out.new.spare + length (string form text.now) ≡ out.old.spare }
{
    put_length(form, text.len() as u64 + 1, out);
    put_cstring(text, out);
}

#[tactic(auto, using(crate::proofs::Sizes::lengths))]
fn put_binary(form: Form, subtype: u8, bytes: &[u8], out: &mut Room<u8>)
    requires room { length (binary form subtype bytes.now) ≤ out.old.spare }
    ensures items { out.new.items ≡ out.old.items ++ binary form subtype bytes.now }
    ensures spare { out.new.spare + length (binary form subtype bytes.now) ≡ out.old.spare }
{
    put_length(form, bytes.len() as u64, out);
    out.push_in(subtype);
    out.extend_in(bytes);
}

fn put_regex(pattern: &str, options: &str, out: &mut Room<u8>)
    requires room { length (cstring pattern.now ++ cstring options.now) ≤ out.old.spare }
    ensures items { out.new.items ≡ out.old.items ++ (cstring pattern.now ++ cstring options.now) }
    ensures spare { out.new.spare + length (cstring pattern.now ++ cstring options.now) ≡ out.old.spare }
{
    put_cstring(pattern, out);
    put_cstring(options, out);
}

fn put_int(form: Form, number: i32, out: &mut Room<u8>)
    requires room { length (int form number).1 ≤ out.old.spare }
    ensures items { out.new.items ≡ out.old.items ++ (int form number).1 }
    ensures spare { out.new.spare + length (int form number).1 ≡ out.old.spare }
{
    match form {
        Form::Bson => out.extend_in(&number.to_le_bytes()),
        Form::Key => out.extend_in(&i64::from(number).to_le_bytes()),
    }
}

/// The type byte of a value.
#[tactic(auto, using(crate::proofs::Helds::held_is))]
fn code(form: Form, value: &Value) -> u8
    ensures { result ≡ (held form value.now).0 }
{
    match value {
        Value::Str(_) => type_byte!(string),
        Value::Doc(_) => type_byte!(object),
        Value::Arr(_) => type_byte!(array),
        Value::Bin(_) => type_byte!(binData),
        Value::Id(_) => type_byte!(objectId),
        Value::Bool(_) => type_byte!(bool),
        Value::Date(_) => type_byte!(date),
        Value::Null => type_byte!(null),
        Value::Regex(_) => type_byte!(regex),
        Value::Int(_) => match form {
            Form::Bson => type_byte!(int),
            Form::Key => type_byte!(long),
        },
        Value::Stamp(_) => type_byte!(timestamp),
        Value::Long(_) => type_byte!(long),
    }
}

#[tactic(auto, using(crate::proofs::Helds::held_is))]
#[cycle(writing)]
fn put_content(form: Form, value: &Value, out: &mut Room<u8>)
    requires room { length (held form value.now).1 ≤ out.old.spare }
    ensures items { out.new.items ≡ out.old.items ++ (held form value.now).1 }
    ensures spare { out.new.spare + length (held form value.now).1 ≡ out.old.spare }
{
    match value {
        Value::Str(text) => put_string(form, text.as_str(), out),
        Value::Doc(document) => put_document(form, document, out),
        Value::Arr(items) => put_array(form, items, out),
        Value::Bin(binary) => put_binary(form, binary.subtype, binary.bytes.as_slice(), out),
        Value::Id(id) => out.extend_in(id),
        Value::Bool(true) => out.push_in(1),
        Value::Bool(false) => out.push_in(0),
        Value::Date(moment) => out.extend_in(&moment.to_le_bytes()),
        Value::Null => {}
        Value::Regex(regex) => put_regex(regex.pattern.as_str(), regex.options.as_str(), out),
        Value::Int(number) => put_int(form, *number, out),
        Value::Stamp(stamp) => out.extend_in(&stamp.to_le_bytes()),
        Value::Long(number) => out.extend_in(&number.to_le_bytes()),
    }
}

#[cycle(writing)]
fn put_element(form: Form, name: &str, value: &Value, out: &mut Room<u8>)
    requires room { length (element_of name.now (held form value.now)) ≤ out.old.spare }
    ensures items { out.new.items ≡ out.old.items ++ element_of name.now (held form value.now) }
    ensures spare { out.new.spare + length (element_of name.now (held form value.now)) ≡ out.old.spare }
{
    out.push_in(code(form, value));
    put_cstring(name, out);
    put_content(form, value, out);
}

/// An element named by its place.
#[cycle(writing)]
fn put_item(form: Form, place: u64, item: &Value, out: &mut Room<u8>)
    requires room { length (element_of (decimal place) (held form item.now)) ≤ out.old.spare }
    ensures items { out.new.items ≡ out.old.items ++ element_of (decimal place) (held form item.now) }
    ensures spare { out.new.spare + length (element_of (decimal place) (held form item.now)) ≡ out.old.spare }
{
    let mut buffer = Buffer::new();
    put_element(form, buffer.format(place), item, out);
}

#[cycle(writing)]
fn put_elements(form: Form, document: &Document, out: &mut Room<u8>)
    requires room { length (flat_map (element form) document.now) ≤ out.old.spare }
    ensures items { out.new.items ≡ out.old.items ++ flat_map (element form) document.now }
    ensures spare { out.new.spare + length (flat_map (element form) document.now) ≡ out.old.spare }
{
    for pair in document.as_slice() {
        put_element(form, pair.name.as_str(), &pair.value, out);
    }
}

#[cycle(writing)]
fn put_items(form: Form, items: &List<Value>, out: &mut Room<u8>)
    requires room { length (items_from 0 (map (held form) items.now)) ≤ out.old.spare }
    ensures items { out.new.items ≡ out.old.items ++ items_from 0 (map (held form) items.now) }
    ensures spare { out.new.spare + length (items_from 0 (map (held form) items.now)) ≡ out.old.spare }
{
    let mut place = 0;
    for item in items.as_slice() {
        put_item(form, place, item, out);
        place += 1;
    }
}

/// Ends what began at `start` with room for a length, and fills the length in.
fn close(form: Form, start: usize, out: &mut Room<u8>)
    requires room { 1 ≤ out.old.spare }
    requires within { start + width form ≤ length out.old.items }
    ensures items { out.new.items ≡ take start out.old.items
        ++ counted form (length out.old.items - start + 1) ++ drop (start + width form) out.old.items ++ 0 ∷ [] }
    ensures spare { out.new.spare + 1 ≡ out.old.spare }
{
    out.push_in(0);
    fill_length(form, start, (out.items().len() - start) as u64, out);
}

/// Adds the document, which finds room.
#[tactic(auto, using(crate::proofs::Sizes::lengths))]
#[cycle(writing)]
pub fn put_document(form: Form, document: &Document, out: &mut Room<u8>)
    requires room { length (enclosed form (flat_map (element form) document.now)) ≤ out.old.spare }
    ensures items { out.new.items ≡ out.old.items ++ enclosed form (flat_map (element form) document.now) }
    ensures spare { out.new.spare + length (enclosed form (flat_map (element form) document.now)) ≡ out.old.spare }
{
    let start = out.items().len();
    put_length(form, 0, out);
    put_elements(form, document, out);
    close(form, start, out);
}

#[tactic(auto, using(crate::proofs::Sizes::lengths))]
#[cycle(writing)]
fn put_array(form: Form, items: &List<Value>, out: &mut Room<u8>)
    requires room { length (enclosed form (items_from 0 (map (held form) items.now))) ≤ out.old.spare }
    ensures items { out.new.items ≡ out.old.items ++ enclosed form (items_from 0 (map (held form) items.now)) }
    ensures spare { out.new.spare + length (enclosed form (items_from 0 (map (held form) items.now))) ≡ out.old.spare }
{
    let start = out.items().len();
    put_length(form, 0, out);
    put_items(form, items, out);
    close(form, start, out);
}

/// Adds the type byte of the value and the bytes behind its name, which find room.
pub fn put_tagged(form: Form, value: &Value, out: &mut Room<u8>)
    requires room { length (held form value.now).1 + 1 ≤ out.old.spare }
    ensures items { out.new.items ≡ out.old.items ++ (held form value.now).0 ∷ (held form value.now).1 }
    ensures spare { out.new.spare + length (held form value.now).1 + 1 ≡ out.old.spare }
{
    out.push_in(code(form, value));
    put_content(form, value, out);
}
