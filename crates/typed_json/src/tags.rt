ghost use Rattle.std.specs.Prelude.{◌≡◌};
ghost use Rattle.std.specs.Option.{option_copied};
ghost use Rattle.typed_json.specs.Leaf.{is_alone, is_this, items_of, pairs_of, part_of, tells, text_of};

use bson_values::{List, Pair, Text};
use jsonb_contain::{Fields, Json};

pub(crate) fn text_of(json: &Json) -> Option<&Text>
    ensures { option_copied result ≡ text_of json.now }
{
    match json {
        Json::Text(text) => Some(text),
        _ => None,
    }
}

pub(crate) fn items_of(json: &Json) -> Option<&List<Json>>
    ensures { option_copied result ≡ items_of json.now }
{
    match json {
        Json::Array(items) => Some(items),
        _ => None,
    }
}

pub(crate) fn fields_of(json: &Json) -> Option<&Fields<Json>>
    ensures { option_copied result ≡ pairs_of json.now }
{
    match json {
        Json::Object(fields) => Some(fields),
        _ => None,
    }
}

fn is_text(json: &Json, text: &str) -> bool
    ensures { result ≡ is_this text.now (text_of json.now) }
{
    match text_of(json) {
        Some(other) => other.as_str() == text,
        None => false,
    }
}

/// Whether the field tells this type.
fn tells(pair: &Pair<Json>, name: &str) -> bool
    ensures { result ≡ tells name.now pair.now }
{
    pair.name.as_str() == "t" && is_text(&pair.value, name)
}

/// Whether the tag is that of this type, and has nothing beside it.
pub(crate) fn is_alone(tag: &[Pair<Json>], name: &str) -> bool
    ensures { result ≡ is_alone name.now tag.now }
{
    match tag {
        [last] => tells(last, name),
        _ => false,
    }
}

/// What a tag of this type has beside it, under this name.
pub(crate) fn part_of<'a>(tag: &'a [Pair<Json>], name: &str, part: &str) -> Option<&'a Json>
    ensures { option_copied result ≡ part_of name.now part.now tag.now }
{
    match tag {
        [first, last] => {
            if first.name.as_str() == part && tells(last, name) {
                Some(&first.value)
            } else {
                None
            }
        }
        _ => None,
    }
}
