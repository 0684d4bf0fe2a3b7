//! Tails of a path that are open at a value: those that are still to be followed from it.

ghost use Rattle.std.specs.Prelude.{◌≡◌, ◌≤◌, ◌<◌, ◌^◌, ℕ, length, not, ◌&&◌, ◌||◌, true, nat_eq, None, slice_index_or};
ghost use Rattle.std.specs.Str.{all_ascii_digits, bytes_eq};
ghost use Rattle.doc_paths.specs.Reach.{is_index};
ghost use Rattle.filter_match.specs.Tails.{is_open, any_below, tells, is_at, part_at, ArePlaces, joined_at};

use bson_values::Text;

/// For each tail, by how many parts are cut off, whether it is open.
pub(crate) type Marks = [bool; 101];

/// For each part, the place that it tells.
pub(crate) type Places = [Option<usize>; 101];

/// The whole path alone.
pub(crate) fn whole_path() -> Marks
    ensures { (k : ℕ) → k < 101 → is_open result k ≡ nat_eq k 0 }
{
    let mut marks = [false; 101];
    marks[0] = true;
    marks
}

pub(crate) fn is_any_open(marks: &Marks, n: usize) -> bool
    requires { n ≤ 101 }
    ensures { result ≡ any_below n (is_open marks.now) }
{
    let mut found = false;
    for k in 0..n {
        found = found || marks[k];
    }
    found
}

/// The open tails that begin with a name, which is that of the part at `place` and is not compared with itself.
pub(crate) fn with_name(marks: &Marks, parts: &[Text], place: usize, name: &str) -> Marks
    requires few { length parts.now ≤ 101 }
    requires named { part_at parts.now place ≡ name.now }
    ensures { (k : ℕ) → k < length parts.now → is_open result k ≡ (is_open marks.now k && bytes_eq (part_at parts.now k) name.now) }
{
    let mut named = [false; 101];
    for (k, part) in parts.iter().enumerate() {
        named[k] = marks[k] && (k == place || part.as_str() == name);
    }
    named
}

/// The open tails that are not among others.
pub(crate) fn without(marks: &Marks, others: &Marks) -> Marks
    ensures { (k : ℕ) → k < 101 → is_open result k ≡ (is_open marks.now k && not (is_open others.now k)) }
{
    let mut left = [false; 101];
    for k in 0..101 {
        left[k] = marks[k] && !others[k];
    }
    left
}

/// The open tails whose first part tells a place.
pub(crate) fn at_place(marks: &Marks, places: &Places, place: usize) -> Marks
    ensures { (k : ℕ) → k < 101 → is_open result k ≡ (is_open marks.now k && is_at (slice_index_or places.now k None) place) }
{
    let mut here = [false; 101];
    for k in 0..101 {
        here[k] = marks[k] && places[k] == Some(place);
    }
    here
}

/// The open tails, and what is left of others behind their first part.
pub(crate) fn with_rests(marks: &Marks, others: &Marks) -> Marks
    ensures { (k : ℕ) → k < 101 → is_open result k ≡ joined_at marks.now others.now k }
{
    let mut all = *marks;
    for k in 0..100 {
        all[k + 1] = marks[k + 1] || others[k];
    }
    all
}

fn all_digits(bytes: &[u8]) -> bool
    ensures { result ≡ all_ascii_digits bytes.now }
{
    for byte in bytes {
        if !byte.is_ascii_digit() {
            return false;
        }
    }
    true
}

fn tells_a_place(part: &str) -> bool
    ensures { result ≡ is_index part.now }
{
    let bytes = part.as_bytes();
    match bytes.split_first() {
        None => false,
        Some((digit, more)) => all_digits(bytes) && (*digit != b'0' || more.is_empty()),
    }
}

/// The place that a part tells.
fn place_of(part: &str) -> Option<usize>
    ensures { (place : ℕ) → place < 2 ^ 64 → is_at result place ≡ tells part.now place }
{
    if !tells_a_place(part) {
        return None;
    }
    match part.parse::<usize>() {
        Ok(place) => Some(place),
        Err(_) => None,
    }
}

fn place_if(wanted: bool, part: &str) -> Option<usize>
    ensures { wanted ≡ true → (place : ℕ) → place < 2 ^ 64 → is_at result place ≡ tells part.now place }
{
    if wanted { place_of(part) } else { None }
}

/// The places that the open tails' parts tell.
pub(crate) fn places_of(marks: &Marks, parts: &[Text]) -> Places
    requires { length parts.now ≤ 101 }
    ensures { ArePlaces result marks.now parts.now }
{
    let mut places = [None; 101];
    for (k, part) in parts.iter().enumerate() {
        places[k] = place_if(marks[k], part.as_str());
    }
    places
}
