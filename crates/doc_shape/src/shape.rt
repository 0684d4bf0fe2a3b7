ghost use Rattle.std.specs.Prelude.{◌≡◌, ◌&&◌, not, map, IfOk, IfErr, Ok, Err, if◌then◌else◌};
ghost use Rattle.std.specs.List.{list_any, filter};
ghost use Rattle.bson_values.specs.declared.value.Value.{out-Value};
ghost use Rattle.doc_shape.specs.Answers.{Fails, Gives};
ghost use Rattle.doc_shape.specs.Clashes.{any_clash};
ghost use Rattle.doc_shape.specs.Reading.{includes_by, is_bad, is_id, is_other, pair_shown, read_shape, shape_of, shown_of};
ghost use Rattle.doc_shape.specs.Reading.{shown_paths, shows, hides};
ghost use Rattle.doc_shape.specs.Shown.{nothing_hidden};

use crate::clashing::{Rising, neighbours_clash};
use crate::reading::read_path;
use crate::refused::ShapeRefused;
use bson_values::{Document, List, NoMemory, Text, Value};
use case_tables::{BAD_OPERAND, BAD_PROJECTION, Kind, NOT_SUPPORTED};
use doc_paths::Path;
use std::alloc::Global;

/// What is shown of documents: the fields that are named, or those that are not. The other paths than `_id` stand in the order of
/// their parts.
#[derive(Drop)]
pub struct Shape {
    pub(crate) includes: bool,
    pub(crate) keeps_id: bool,
    pub(crate) paths: Rising,
}

fn is_shown(value: &Value) -> Result<bool, Kind>
    ensures { result ≡ shown_of (out-Value value.now) }
{
    match value {
        Value::Bool(truth) => Ok(*truth),
        Value::Int(number) => Ok(*number != 0),
        Value::Long(number) => Ok(*number != 0),
        Value::Doc(_) => Err(NOT_SUPPORTED),
        Value::Str(_) => Err(NOT_SUPPORTED),
        _ => Err(BAD_OPERAND),
    }
}

fn read_one(alloc: Global, name: &str, value: &Value) -> Result<(Path, bool), ShapeRefused>
    ensures { Gives result (pair_shown (record { name = name.now; value = value.now })) }
{
    let path = read_path(alloc, name)?;
    match is_shown(value) {
        Ok(shown) => Ok((path, shown)),
        Err(kind) => Err(ShapeRefused::Refused(kind)),
    }
}

fn read_all(alloc: Global, doc: &Document) -> Result<List<(Path, bool)>, ShapeRefused>
    ensures { Gives result (shown_paths doc.now) }
{
    let mut all = List::new(alloc);
    for pair in doc.as_slice() {
        let one = read_one(alloc, pair.name.as_str(), &pair.value)?;
        all.add(one)?;
    }
    Ok(all)
}

fn is_id(parts: &[Text]) -> bool
    ensures { result ≡ is_id parts.now }
{
    match parts.split_first() {
        None => false,
        Some((part, others)) => part.as_str() == "_id" && others.len() == 0,
    }
}

fn is_other(way: &(Path, bool)) -> bool
    ensures { result ≡ is_other way.now }
{
    !is_id(way.0.parts())
}

fn any_shows(ways: &[(Path, bool)]) -> bool
    ensures { result ≡ list_any shows ways.now }
{
    ways.iter().any(|way| is_other(way) && way.1)
}

fn any_hides(ways: &[(Path, bool)]) -> bool
    ensures { result ≡ list_any hides ways.now }
{
    ways.iter().any(|way| is_other(way) && !way.1)
}

fn any_is_other(ways: &[(Path, bool)]) -> bool
    ensures { result ≡ list_any is_other ways.now }
{
    ways.iter().any(|way| is_other(way))
}

fn any_is_shown(ways: &[(Path, bool)]) -> bool
    ensures { result ≡ list_any (λ way. way.1) ways.now }
{
    ways.iter().any(|way| way.1)
}

fn hides_id(ways: &[(Path, bool)]) -> bool
    ensures { result ≡ list_any (λ way. is_id way.0 && not way.1) ways.now }
{
    ways.iter().any(|way| is_id(way.0.parts()) && !way.1)
}

fn includes(ways: &[(Path, bool)]) -> bool
    ensures { result ≡ includes_by ways.now }
{
    any_shows(ways) || !any_is_other(ways) && any_is_shown(ways)
}

fn paths_of(alloc: Global, ways: &[(Path, bool)]) -> Result<List<Path>, NoMemory>
    ensures { IfOk result (λ paths. paths ≡ map (λ way. way.0) ways.now) }
{
    let mut paths = List::new(alloc);
    for way in ways {
        let path = way.0.copy(alloc)?;
        paths.add(path)?;
    }
    Ok(paths)
}

fn others_of(alloc: Global, ways: &[(Path, bool)]) -> Result<List<Path>, NoMemory>
    ensures { IfOk result (λ paths. paths ≡ map (λ way. way.0) (filter is_other ways.now)) }
{
    let mut paths = List::new(alloc);
    for way in ways {
        if is_other(way) {
            let path = way.0.copy(alloc)?;
            paths.add(path)?;
        }
    }
    Ok(paths)
}

#[tactic(auto, using(crate::proofs::Neighbours::clashes_told))]
fn any_clash(alloc: Global, ways: &[(Path, bool)]) -> Result<bool, NoMemory>
    ensures { IfOk result (λ it. it ≡ any_clash (map (λ way. way.0) ways.now)) }
{
    let paths = paths_of(alloc, ways)?;
    let paths = Rising::of(paths)?;
    Ok(neighbours_clash(paths.as_slice()))
}

fn shape_of(alloc: Global, ways: &[(Path, bool)]) -> Result<Shape, NoMemory>
    ensures { IfOk result (λ shape. shape ≡ shape_of ways.now) }
{
    let paths = others_of(alloc, ways)?;
    let paths = Rising::of(paths)?;
    Ok(Shape {
        includes: includes(ways),
        keeps_id: !hides_id(ways),
        paths,
    })
}

fn fitted(alloc: Global, ways: &[(Path, bool)]) -> Result<Shape, ShapeRefused>
    ensures { Gives result (if is_bad ways.now then Err 11 else Ok (shape_of ways.now)) }
{
    if any_shows(ways) && any_hides(ways) {
        return Err(ShapeRefused::Refused(BAD_PROJECTION));
    }
    if any_clash(alloc, ways)? {
        return Err(ShapeRefused::Refused(BAD_PROJECTION));
    }
    Ok(shape_of(alloc, ways)?)
}

impl Shape {
    /// What a document says to show (MongoDB Manual, "Project Fields to Return from Query"): paths, each with a bool or a whole number,
    /// of which 0 hides. That paths do not fit together is told after all else.
    pub fn read(alloc: Global, doc: &Document) -> Result<Shape, ShapeRefused>
        ensures ok { IfOk result (λ shape. read_shape doc.now ≡ Ok shape) }
        ensures refused { IfErr result (λ why. Fails why (read_shape doc.now)) }
    {
        match read_all(alloc, doc) {
            Ok(ways) => fitted(alloc, ways.as_slice()),
            Err(why) => Err(why),
        }
    }

    /// Whether it names nothing that is hidden or shown, so that documents are shown whole.
    pub fn shows_all(&self) -> bool
        ensures { result ≡ nothing_hidden self.now }
    {
        !self.includes && self.keeps_id && self.paths.as_slice().len() == 0
    }
}
