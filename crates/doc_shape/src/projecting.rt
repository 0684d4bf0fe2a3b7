//! What is shown of a document. The paths that lead to a value stand side by side, since all of them do, and are told by how many parts
//! of them are behind it; so those that lead on to a field are found by halves.

ghost use Rattle.std.specs.Prelude.{◌≡◌, ◌&&◌, ◌<◌, ◌≤◌, ◌∷◌, ◌++◌, [], ◌+◌, suc, true, not, map, length, drop, OnOk, IfOk, Some};
ghost use Rattle.std.specs.Prelude.{if◌then◌else◌};
ghost use Rattle.std.specs.List.{flat_map};
ghost use Rattle.doc_shape.specs.Clashes.{rises};
ghost use Rattle.doc_shape.specs.Cuts.{up_to, before, none_before, tails};
ghost use Rattle.doc_shape.specs.Shown.{behind, field, named, shown, shown_at, shown_field, shown_pair, shown_value, some_if, some_of};
ghost use Rattle.doc_shape.specs.Shown.{is_id_name};
ghost use Rattle.bson_values.specs.Measures.{size};
ghost use Rattle.bson_values.specs.declared.value.Value.TheVariants as value;

use crate::shape::Shape;
use bson_values::{Document, List, NoMemory, Pair, Text, Value};
use doc_paths::Path;
use std::alloc::Global;
use std::cmp::Ordering;

/// Whether the path ends here, or its part stands before a name.
fn stands_before(path: &Path, depth: usize, name: &str) -> bool
    ensures { result ≡ before name.now (drop depth path.now) }
{
    match path.parts().get(depth) {
        None => true,
        Some(part) => part.as_str().cmp(name) == Ordering::Less,
    }
}

/// Whether the path ends here, or its part does not stand behind a name.
fn stands_up_to(path: &Path, depth: usize, name: &str) -> bool
    ensures { result ≡ up_to name.now (drop depth path.now) }
{
    match path.parts().get(depth) {
        None => true,
        Some(part) => name.cmp(part.as_str()) != Ordering::Less,
    }
}

/// The paths behind those that stand before a name.
fn from_name<'a>(paths: &'a [Path], depth: usize, name: &str) -> &'a [Path]
    requires { rises (tails depth paths.now) ≡ true }
    ensures behind { behind name.now (tails depth result.now) ≡ behind name.now (tails depth paths.now) }
    ensures rising { rises (tails depth result.now) ≡ true }
    ensures none { none_before name.now (tails depth result.now) ≡ true }
{
    let low = paths.partition_point(|path| stands_before(path, depth, name));
    paths.split_at(low).1
}

/// The paths that lead on to a field.
fn under_name<'a>(paths: &'a [Path], depth: usize, name: &str) -> &'a [Path]
    requires { rises (tails depth paths.now) ≡ true }
    ensures behind { tails (depth + 1) result.now ≡ behind name.now (tails depth paths.now) }
    ensures rising { rises (tails (depth + 1) result.now) ≡ true }
{
    let rest = from_name(paths, depth, name);
    let high = rest.partition_point(|path| stands_up_to(path, depth, name));
    rest.split_at(high).0
}

fn value_if(alloc: Global, wanted: bool, value: &Value) -> Result<Option<Value>, NoMemory>
    ensures { IfOk result (λ it. it ≡ some_if wanted value.now) }
{
    if wanted {
        Ok(Some(value.copy(alloc)?))
    } else {
        Ok(None)
    }
}

fn add_named(
    alloc: Global,
    out: &mut List<Pair<Value>>,
    name: &Text,
    it: Option<Value>,
) -> Result<(), NoMemory>
    ensures { OnOk result (out.new ≡ out.old ++ named name.now it) }
{
    match it {
        None => Ok(()),
        Some(value) => {
            let name = name.copy(alloc)?;
            out.add(Pair { name, value })
        }
    }
}

fn add_some(out: &mut List<Value>, it: Option<Value>) -> Result<(), NoMemory>
    ensures { OnOk result (out.new ≡ out.old ++ some_of it) }
{
    match it {
        None => Ok(()),
        Some(value) => out.add(value),
    }
}

/// What is shown of a value by paths that lead on from it.
#[cycle(show)]
fn shown_by(
    alloc: Global,
    includes: bool,
    paths: &[Path],
    depth: usize,
    value: &Value,
) -> Result<Option<Value>, NoMemory>
    requires rising { rises (tails depth paths.now) ≡ true }
    requires few { depth < 100 }
    ensures { IfOk result (λ it. it ≡ (shown_value includes value.now).by (tails depth paths.now)) }
{
    match value {
        Value::Doc(doc) => {
            let pairs = shown_pairs(alloc, includes, paths, depth, doc)?;
            Ok(Some(Value::Doc(Document::of(alloc, pairs)?)))
        }
        Value::Arr(items) => {
            let items = shown_items(alloc, includes, paths, depth, items.as_slice())?;
            Ok(Some(Value::Arr(items)))
        }
        _ => value_if(alloc, !includes, value),
    }
}

#[cycle(show)]
fn shown_pairs(
    alloc: Global,
    includes: bool,
    paths: &[Path],
    depth: usize,
    doc: &Document,
) -> Result<List<Pair<Value>>, NoMemory>
    requires rising { rises (tails depth paths.now) ≡ true }
    requires few { depth < 100 }
    ensures { IfOk result (λ it. it ≡ flat_map (shown_pair includes (tails depth paths.now)) (map (field includes) doc.now)) }
{
    let mut out = List::new(alloc);
    for pair in doc.as_slice() {
        add_pair(
            alloc,
            includes,
            paths,
            depth,
            &pair.name,
            &pair.value,
            &mut out,
        )?;
    }
    Ok(out)
}

#[cycle(show)]
fn add_pair(
    alloc: Global,
    includes: bool,
    paths: &[Path],
    depth: usize,
    name: &Text,
    value: &Value,
    out: &mut List<Pair<Value>>,
) -> Result<(), NoMemory>
    requires rising { rises (tails depth paths.now) ≡ true }
    requires few { depth < 100 }
    ensures { OnOk result (out.new
        ≡ out.old ++ shown_pair includes (tails depth paths.now) (record { name = name.now; value = shown_value includes value.now })) }
{
    let under = under_name(paths, depth, name.as_str());
    let it = shown_under(alloc, includes, under, depth + 1, value)?;
    add_named(alloc, out, name, it)
}

#[cycle(show)]
fn shown_items(
    alloc: Global,
    includes: bool,
    paths: &[Path],
    depth: usize,
    items: &[Value],
) -> Result<List<Value>, NoMemory>
    requires rising { rises (tails depth paths.now) ≡ true }
    requires few { depth < 100 }
    ensures { IfOk result (λ it. it
        ≡ flat_map (λ one. some_of (one.by (tails depth paths.now))) (map (shown_value includes) items.now)) }
{
    let mut out = List::new(alloc);
    for item in items {
        let it = shown_by(alloc, includes, paths, depth, item)?;
        add_some(&mut out, it)?;
    }
    Ok(out)
}

/// What is shown of a value to which paths lead, where the first ends there if any does.
#[cycle(show)]
fn shown_under(
    alloc: Global,
    includes: bool,
    paths: &[Path],
    depth: usize,
    value: &Value,
) -> Result<Option<Value>, NoMemory>
    requires { rises (tails depth paths.now) ≡ true }
    ensures { IfOk result (λ it. it ≡ shown_at includes (tails depth paths.now) (shown_value includes value.now)) }
{
    match paths.split_first() {
        None => value_if(alloc, !includes, value),
        Some((path, _)) => {
            if path.parts().len() <= depth {
                return value_if(alloc, includes, value);
            }
            shown_by(alloc, includes, paths, depth, value)
        }
    }
}

fn is_id(name: &Text) -> bool
    ensures { result ≡ is_id_name name.now }
{
    name.as_str() == "_id"
}

fn hides(shape: &Shape, name: &Text) -> bool
    ensures { result ≡ (is_id_name name.now && not shape.now.keeps_id) }
{
    is_id(name) && !shape.keeps_id
}

fn keeps_whole(shape: &Shape, name: &Text) -> bool
    ensures { result ≡ (is_id_name name.now && shape.now.includes) }
{
    is_id(name) && shape.includes
}

fn add_whole(alloc: Global, pair: &Pair<Value>, out: &mut List<Pair<Value>>) -> Result<(), NoMemory>
    ensures { OnOk result (out.new ≡ out.old ++ pair.now ∷ []) }
{
    let value = pair.value.copy(alloc)?;
    add_named(alloc, out, &pair.name, Some(value))
}

fn add_field(
    alloc: Global,
    shape: &Shape,
    pair: &Pair<Value>,
    out: &mut List<Pair<Value>>,
) -> Result<(), NoMemory>
    ensures { OnOk result (out.new ≡ out.old ++ shown_field shape.now pair.now) }
{
    if hides(shape, &pair.name) {
        return Ok(());
    }
    if keeps_whole(shape, &pair.name) {
        return add_whole(alloc, pair, out);
    }
    let paths = shape.paths.as_slice();
    add_pair(
        alloc,
        shape.includes,
        paths,
        0,
        &pair.name,
        &pair.value,
        out,
    )
}

fn shown_fields(alloc: Global, shape: &Shape, doc: &Document) -> Result<List<Pair<Value>>, NoMemory>
    ensures { IfOk result (λ it. it ≡ shown shape.now doc.now) }
{
    let mut out = List::new(alloc);
    for pair in doc.as_slice() {
        add_field(alloc, shape, pair, &mut out)?;
    }
    Ok(out)
}

/// The document, of which only what the shape names is shown, or what it does not name.
#[tactic(auto, using(crate::proofs::Layers::all_shown, crate::proofs::Smaller::sizes))]
pub fn project(alloc: Global, shape: &Shape, doc: &Document) -> Result<Document, NoMemory>
    ensures value { IfOk result (λ it. it ≡ shown shape.now doc.now) }
    ensures smaller { IfOk result (λ it. size it ≤ size doc.now) }
{
    if shape.shows_all() {
        return doc.copy(alloc);
    }
    let pairs = shown_fields(alloc, shape, doc)?;
    Document::of(alloc, pairs)
}
