//! Values as tables write them.

use Sample::{Arr, Bin, Bool, Date, Doc, Id, Int, Long, Null, Regex as Pattern, Stamp, Str};
use bson_values::{Binary, Bytes, Document, List, NoMemory, Regex, Text, Value};
use std::alloc::Global;

/// A value as a table writes it.
#[derive(Drop)]
pub(crate) enum Sample {
    Null,
    Int(i32),
    Long(i64),
    Str(&'static str),
    Doc(&'static [(&'static str, Sample)]),
    Arr(&'static [Sample]),
    Bin(u8, &'static [u8]),
    Id([u8; 12]),
    Bool(bool),
    Date(i64),
    Stamp(u64),
    Regex(&'static str, &'static str),
}

fn text(alloc: Global, text: &str) -> Result<Value, NoMemory> {
    let text = Text::of(alloc, text)?;
    Ok(Value::Str(text))
}

fn binary(alloc: Global, subtype: u8, bytes: &[u8]) -> Result<Value, NoMemory> {
    let bytes = Bytes::of(alloc, bytes)?;
    Ok(Value::Bin(Binary { subtype, bytes }))
}

fn regex(alloc: Global, pattern: &str, options: &str) -> Result<Value, NoMemory> {
    let pattern = Text::of(alloc, pattern)?;
    let options = Text::of(alloc, options)?;
    Ok(Value::Regex(Regex { pattern, options }))
}

#[cycle(sample)]
pub(crate) fn value(alloc: Global, sample: &Sample) -> Result<Value, NoMemory> {
    match sample {
        Null => Ok(Value::Null),
        Int(number) => Ok(Value::Int(*number)),
        Long(number) => Ok(Value::Long(*number)),
        Str(bytes) => text(alloc, bytes),
        Doc(pairs) => Ok(Value::Doc(document(alloc, pairs)?)),
        Arr(samples) => array(alloc, samples),
        Bin(subtype, bytes) => binary(alloc, *subtype, bytes),
        Id(id) => Ok(Value::Id(*id)),
        Bool(truth) => Ok(Value::Bool(*truth)),
        Date(moment) => Ok(Value::Date(*moment)),
        Stamp(stamp) => Ok(Value::Stamp(*stamp)),
        Pattern(pattern, options) => regex(alloc, pattern, options),
    }
}

fn add(alloc: Global, document: &mut Document, name: &str, value: Value) -> Result<(), NoMemory> {
    let name = Text::of(alloc, name)?;
    match document.push(name, value) {
        Ok(()) => Ok(()),
        Err(_) => Err(NoMemory),
    }
}

#[cycle(sample)]
pub(crate) fn document(alloc: Global, pairs: &[(&str, Sample)]) -> Result<Document, NoMemory> {
    let mut document = Document::new(alloc);
    for (name, sample) in pairs {
        let value = value(alloc, sample)?;
        add(alloc, &mut document, name, value)?;
    }
    Ok(document)
}

fn append(items: &mut List<Value>, item: Value) -> Result<(), NoMemory> {
    match items.push(item) {
        Ok(()) => Ok(()),
        Err(_) => Err(NoMemory),
    }
}

#[cycle(sample)]
fn array(alloc: Global, samples: &[Sample]) -> Result<Value, NoMemory> {
    let mut items = List::new(alloc);
    for sample in samples {
        let item = value(alloc, sample)?;
        append(&mut items, item)?;
    }
    Ok(Value::Arr(items))
}
