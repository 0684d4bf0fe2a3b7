ghost use Rattle.std.specs.Prelude.{◌≡◌, ◌<◌, length, OnSome};
ghost use Rattle.doc_paths.specs.Changes.{place_in, place_there};

use crate::items::tells_a_place;
use crate::refused::PutRefused;
use bson_values::{List, Value};

/// The most items of an array to which a path adds items.
const MOST_ITEMS: usize = 65_536;

/// The place that a part tells, of an item that is there or that may be made.
pub(crate) fn place_of(items: &List<Value>, part: &str) -> Result<usize, PutRefused>
    ensures { result ≡ place_in part.now items.now }
{
    let len = items.len();
    if !tells_a_place(part) {
        return Err(PutRefused::NotViable);
    }
    match part.parse::<usize>() {
        Ok(place) => {
            if place < len || place < MOST_ITEMS {
                Ok(place)
            } else {
                Err(PutRefused::TooFar)
            }
        }
        Err(_) => Err(PutRefused::TooFar),
    }
}

/// The place that a part tells, of an item that is there.
pub(crate) fn place_here(items: &List<Value>, part: &str) -> Option<usize>
    ensures { result ≡ place_there part.now items.now }
{
    let len = items.len();
    if !tells_a_place(part) {
        return None;
    }
    match part.parse::<usize>() {
        Ok(place) => { if place < len { Some(place) } else { None } }
        Err(_) => None,
    }
}
