ghost use Rattle.std.specs.Prelude.{◌≡◌};
ghost use Rattle.std.specs.Str.{all_ascii_digits};
ghost use Rattle.std.specs.Option.{option_copied};
ghost use Rattle.doc_paths.specs.Reach.{is_index, item_at};

use bson_values::{List, Value};

fn all_digits(bytes: &[u8]) -> bool
    ensures { result ≡ all_ascii_digits bytes.now }
{
    for byte in bytes {
        if !byte.is_ascii_digit() {
            return false;
        }
    }
    true
}

/// Whether a part is "0", or digits without a leading zero.
pub(crate) fn tells_a_place(part: &str) -> bool
    ensures { result ≡ is_index part.now }
{
    let bytes = part.as_bytes();
    match bytes.split_first() {
        None => false,
        Some((digit, more)) => all_digits(bytes) && (*digit != b'0' || more.is_empty()),
    }
}

/// The element whose place a part of a path tells, counted from 0, where the part tells a place that the array has.
pub fn item_at<'a>(items: &'a List<Value>, part: &str) -> Option<&'a Value>
    ensures { option_copied result ≡ item_at part.now items.now }
{
    let _len = items.len();
    if !tells_a_place(part) {
        return None;
    }
    match part.parse::<usize>() {
        Ok(place) => items.get(place),
        Err(_) => None,
    }
}
