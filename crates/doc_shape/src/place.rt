//! The places in arrays that the parts of a path tell.

ghost use Rattle.std.specs.Prelude.{◌≡◌, ◌≤◌, ◌<◌, ◌^◌, ℕ, length, ◌&&◌};
ghost use Rattle.std.specs.Str.{all_ascii_digits};
ghost use Rattle.doc_paths.specs.Reach.{is_index};
ghost use Rattle.doc_shape.specs.Bests.{ArePlaces, is_at, tells};

use bson_values::Text;

/// For each part, the place that it tells.
pub(crate) type Places = [Option<usize>; 101];

fn all_digits(bytes: &[u8]) -> bool
    ensures { result ≡ all_ascii_digits bytes.now }
{
    for byte in bytes {
        if !byte.is_ascii_digit() {
            return false;
        }
    }
    true
}

fn tells_a_place(part: &str) -> bool
    ensures { result ≡ is_index part.now }
{
    let bytes = part.as_bytes();
    match bytes.split_first() {
        None => false,
        Some((digit, more)) => all_digits(bytes) && (*digit != b'0' || more.is_empty()),
    }
}

fn place_of(part: &str) -> Option<usize>
    ensures { (place : ℕ) → place < 2 ^ 64 → is_at result place ≡ tells part.now place }
{
    if !tells_a_place(part) {
        return None;
    }
    match part.parse::<usize>() {
        Ok(place) => Some(place),
        Err(_) => None,
    }
}

pub(crate) fn places_of(parts: &[Text]) -> Places
    requires { length parts.now ≤ 101 }
    ensures { ArePlaces result parts.now }
{
    let mut places = [None; 101];
    for (k, part) in parts.iter().enumerate() {
        places[k] = place_of(part.as_str());
    }
    places
}
