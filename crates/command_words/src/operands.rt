ghost use Rattle.std.specs.Prelude.{◌≡◌, []};
ghost use Rattle.bson_values.specs.declared.value.Value.TheViews.{out-Value};
ghost use Rattle.filter_syntax.specs.Reading.{read};
ghost use Rattle.update_syntax.specs.Reading.{read_in};
ghost use Rattle.doc_shape.specs.Reading.{path_of, read_order, read_shape};
ghost use Rattle.command_words.specs.Body.{field_or, truth_or, pairs_of, text_of};
ghost use Rattle.command_words.specs.Meaning.{filter_in, order_in, shape_in, count_in, batch_in, cut_in, update_in};
ghost use Rattle.command_words.specs.Told.{Gives};

use crate::refused::CommandRefused;
use crate::values::{text_of, truth_of, whole_of};
use bson_values::{Document, Value};
use case_tables::FIELD_MISSING;
use doc_paths::Path;
use doc_shape::{Order, Shape, ShapeRefused, read_path};
use filter_syntax::{Filter, FilterRefused};
use std::alloc::Global;
use update_syntax::{Update, UpdateRefused};

/// The most documents of the first batch of a find that names no size.
const DEFAULT_BATCH: u64 = 101;

/// The truth of the field of that name, or what stands for none.
pub(crate) fn truth_or(none: bool, fields: &Document, name: &str) -> bool
    ensures { result ≡ truth_or none fields.now name.now }
{
    match fields.get(name) {
        Some(value) => truth_of(value),
        None => none,
    }
}

/// The whole number in the field of that name, without its sign; 0 stands for none.
pub(crate) fn count_in(fields: &Document, name: &str) -> u64
    ensures { result ≡ count_in fields.now name.now }
{
    match fields.get(name) {
        Some(value) => whole_of(value).unsigned_abs(),
        None => 0,
    }
}

/// The most documents of a batch.
pub(crate) fn batch_in(fields: &Document) -> u64
    ensures { result ≡ batch_in fields.now }
{
    match fields.get("batchSize") {
        Some(value) => whole_of(value).unsigned_abs(),
        None => DEFAULT_BATCH,
    }
}

/// The most documents that are shown at all, where the first batch is all that is asked for.
pub(crate) fn cut_in(fields: &Document) -> Option<u64>
    ensures { result ≡ cut_in fields.now }
{
    if truth_or(false, fields, "singleBatch") {
        return Some(batch_in(fields));
    }
    None
}

fn read_key(alloc: Global, text: &str) -> Result<Path, CommandRefused>
    ensures { Gives result (path_of text.now) }
{
    match read_path(alloc, text) {
        Ok(path) => Ok(path),
        Err(ShapeRefused::Refused(kind)) => Err(CommandRefused::Refused(kind)),
        Err(ShapeRefused::NoMemory) => Err(CommandRefused::NoMemory),
    }
}

/// The path that the string in the field of that name spells.
pub(crate) fn path_in(alloc: Global, fields: &Document, name: &str) -> Result<Path, CommandRefused>
    ensures { Gives result (path_of (field_or [] text_of fields.now name.now)) }
{
    match fields.get(name) {
        Some(value) => read_key(alloc, text_of(value)),
        None => read_key(alloc, ""),
    }
}

fn read_filter(alloc: Global, doc: &Document) -> Result<Filter, CommandRefused>
    ensures { Gives result (read doc.now) }
{
    match Filter::read(alloc, doc) {
        Ok(filter) => Ok(filter),
        Err(FilterRefused::Refused(kind)) => Err(CommandRefused::Refused(kind)),
        Err(FilterRefused::NoMemory) => Err(CommandRefused::NoMemory),
    }
}

fn filter_of(alloc: Global, value: &Value) -> Result<Filter, CommandRefused>
    ensures { Gives result (read (pairs_of (out-Value value.now))) }
{
    match value {
        Value::Doc(doc) => read_filter(alloc, doc),
        _ => read_filter(alloc, &Document::new(alloc)),
    }
}

/// The filter that the field of that name reads as; an empty one stands for none.
pub(crate) fn filter_in(
    alloc: Global,
    fields: &Document,
    name: &str,
) -> Result<Filter, CommandRefused>
    ensures { Gives result (filter_in fields.now name.now) }
{
    match fields.get(name) {
        Some(value) => filter_of(alloc, value),
        None => read_filter(alloc, &Document::new(alloc)),
    }
}

fn read_order(alloc: Global, doc: &Document) -> Result<Order, CommandRefused>
    ensures { Gives result (read_order doc.now) }
{
    match Order::read(alloc, doc) {
        Ok(order) => Ok(order),
        Err(ShapeRefused::Refused(kind)) => Err(CommandRefused::Refused(kind)),
        Err(ShapeRefused::NoMemory) => Err(CommandRefused::NoMemory),
    }
}

/// The sort that the field of that name reads as; an empty document stands for none.
pub(crate) fn order_in(
    alloc: Global,
    fields: &Document,
    name: &str,
) -> Result<Order, CommandRefused>
    ensures { Gives result (order_in fields.now name.now) }
{
    match fields.get(name) {
        Some(Value::Doc(doc)) => read_order(alloc, doc),
        _ => read_order(alloc, &Document::new(alloc)),
    }
}

fn read_shape(alloc: Global, doc: &Document) -> Result<Shape, CommandRefused>
    ensures { Gives result (read_shape doc.now) }
{
    match Shape::read(alloc, doc) {
        Ok(shape) => Ok(shape),
        Err(ShapeRefused::Refused(kind)) => Err(CommandRefused::Refused(kind)),
        Err(ShapeRefused::NoMemory) => Err(CommandRefused::NoMemory),
    }
}

/// The projection that the field of that name reads as; an empty document stands for none.
pub(crate) fn shape_in(
    alloc: Global,
    fields: &Document,
    name: &str,
) -> Result<Shape, CommandRefused>
    ensures { Gives result (shape_in fields.now name.now) }
{
    match fields.get(name) {
        Some(Value::Doc(doc)) => read_shape(alloc, doc),
        _ => read_shape(alloc, &Document::new(alloc)),
    }
}

fn read_update(alloc: Global, multi: bool, value: &Value) -> Result<Update, CommandRefused>
    ensures { Gives result (read_in multi (out-Value value.now)) }
{
    match Update::read(alloc, value, multi) {
        Ok(update) => Ok(update),
        Err(UpdateRefused::Refused(kind)) => Err(CommandRefused::Refused(kind)),
        Err(UpdateRefused::NoMemory) => Err(CommandRefused::NoMemory),
    }
}

/// The update that the field of that name reads as, of all documents with `multi`. A form that is in order has the field.
pub(crate) fn update_in(
    alloc: Global,
    multi: bool,
    fields: &Document,
    name: &str,
) -> Result<Update, CommandRefused>
    ensures { Gives result (update_in multi fields.now name.now) }
{
    match fields.get(name) {
        Some(value) => read_update(alloc, multi, value),
        None => Err(CommandRefused::Refused(FIELD_MISSING)),
    }
}
