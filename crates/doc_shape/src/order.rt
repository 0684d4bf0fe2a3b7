ghost use Rattle.std.specs.Prelude.{◌≡◌, ◌++◌, ◌∷◌, [], IfOk, IfErr, Ok, length, nat_eq};
ghost use Rattle.doc_shape.specs.Answers.{Adds, Fails, Gives};
ghost use Rattle.doc_shape.specs.Reading.{number_way, pair_way, read_order, way_of};
ghost use Rattle.bson_values.specs.declared.value.Value.{out-Value};
ghost use Rattle.bson_values.specs.declared.value.Value.TheOpen.{Value-F};

use crate::place::{Places, places_of};
use crate::reading::read_path;
use crate::refused::ShapeRefused;
use bson_values::{Document, List, Value};
use case_tables::{BAD_OPERAND, Kind, NOT_SUPPORTED};
use doc_paths::Path;
use std::alloc::Global;
use std::marker::Model;

/// The most paths of a sort.
const MOST_WAYS: usize = 32;

/// A path to sort by and whether it ascends, which contracts see as the pair of them.
#[derive(Drop)]
pub(crate) struct Way {
    pub(crate) path: Path,
    pub(crate) ascends: bool,
    pub(crate) places: Places,
}

impl Model for Way {
    ghost use Rattle.std.specs.Prelude.{ℕ, List as Seq, Bool};
    ghost use Rattle.doc_shape.specs.Bests.{ArePlaces};

    ghost Value = { Seq (Seq ℕ) × Bool };

    ghost view = { λ it. (it.path, it.ascends) };

    ghost invariant = { λ it. ArePlaces it.places it.path };
}

/// What documents are sorted by, which contracts see as the list of paths, each with whether it ascends.
#[derive(Drop)]
pub struct Order {
    ways: List<Way>,
}

impl Model for Order {
    ghost use Rattle.std.specs.Prelude.{ℕ, List as Seq, Bool};

    ghost Value = { Seq (Seq (Seq ℕ) × Bool) };

    ghost view = { λ it. it.ways };
}

fn number_ascends(number: i64) -> Result<bool, Kind>
    ensures { result ≡ number_way number }
{
    match number {
        1 => Ok(true),
        -1 => Ok(false),
        _ => Err(BAD_OPERAND),
    }
}

fn document_ascends(doc: &Document) -> Result<bool, Kind>
    ensures { result ≡ way_of (Value-F.Doc doc.now) }
{
    match doc.as_slice() {
        [pair, ..] if pair.name.as_str() == "$meta" => Err(NOT_SUPPORTED),
        _ => Err(BAD_OPERAND),
    }
}

fn ascends(value: &Value) -> Result<bool, Kind>
    ensures { result ≡ way_of (out-Value value.now) }
{
    match value {
        Value::Int(number) => number_ascends(i64::from(*number)),
        Value::Long(number) => number_ascends(*number),
        Value::Doc(doc) => document_ascends(doc),
        _ => Err(BAD_OPERAND),
    }
}

fn read_way(alloc: Global, room: usize, name: &str, value: &Value) -> Result<Way, ShapeRefused>
    ensures { Gives result (pair_way room (record { name = name.now; value = value.now })) }
{
    let path = read_path(alloc, name)?;
    if room == 0 {
        return Err(ShapeRefused::Refused(BAD_OPERAND));
    }
    match ascends(value) {
        Ok(ascends) => {
            let places = places_of(path.parts());
            Ok(Way {
                path,
                ascends,
                places,
            })
        }
        Err(kind) => Err(ShapeRefused::Refused(kind)),
    }
}

fn read_ways(alloc: Global, doc: &Document) -> Result<List<Way>, ShapeRefused>
    ensures { Gives result (read_order doc.now) }
{
    let mut ways = List::new(alloc);
    let mut room = MOST_WAYS;
    for pair in doc.as_slice() {
        let way = read_way(alloc, room, pair.name.as_str(), &pair.value)?;
        ways.add(way)?;
        room = room.saturating_sub(1);
    }
    Ok(ways)
}

impl Order {
    /// What a document says to sort by: at most 32 paths in order, each 1 or -1 (MongoDB Manual, "cursor.sort()").
    pub fn read(alloc: Global, doc: &Document) -> Result<Order, ShapeRefused>
        ensures ok { IfOk result (λ order. read_order doc.now ≡ Ok order) }
        ensures refused { IfErr result (λ why. Fails why (read_order doc.now)) }
    {
        match read_ways(alloc, doc) {
            Ok(ways) => Ok(Order { ways }),
            Err(why) => Err(why),
        }
    }

    /// Whether it sorts by no path, so that documents stay in their order.
    pub fn is_empty(&self) -> bool
        ensures { result ≡ nat_eq (length self.now) 0 }
    {
        self.ways.as_slice().len() == 0
    }

    pub(crate) fn ways(&self) -> &[Way]
        ensures { result.now ≡ self.now }
    {
        self.ways.as_slice()
    }
}
