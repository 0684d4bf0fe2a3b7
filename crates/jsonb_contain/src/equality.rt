ghost use Rattle.std.specs.Prelude.{◌≡◌, ◌↔◌, IsTrue};

use crate::fields::Fields;
use crate::value::Json;
use bson_values::Pair;

/// Whether two JSON values are equal: the same items in the same order, and the same values under the same names.
#[cycle(equal)]
pub fn equal(one: &Json, other: &Json) -> bool
    ensures { IsTrue result ↔ (one.now ≡ other.now) }
{
    match (one, other) {
        (Json::Null, Json::Null) => true,
        (Json::Bool(one), Json::Bool(other)) => *one == *other,
        (Json::Whole(one), Json::Whole(other)) => *one == *other,
        (Json::Text(one), Json::Text(other)) => one.as_str() == other.as_str(),
        (Json::Array(one), Json::Array(other)) => are_equal(one.as_slice(), other.as_slice()),
        (Json::Object(one), Json::Object(other)) => fields_are_equal(one, other),
        _ => false,
    }
}

#[cycle(equal)]
fn are_equal(ones: &[Json], others: &[Json]) -> bool
    ensures { IsTrue result ↔ (ones.now ≡ others.now) }
{
    let mut rest = others;
    for one in ones {
        let [other, behind @ ..] = rest else {
            return false;
        };
        if !equal(one, other) {
            return false;
        }
        rest = behind;
    }
    rest.is_empty()
}

#[cycle(equal)]
fn fields_are_equal(ones: &Fields<Json>, others: &Fields<Json>) -> bool
    ensures { IsTrue result ↔ (ones.now ≡ others.now) }
{
    let mut rest = others.as_slice();
    for one in ones.as_slice() {
        let [other, behind @ ..] = rest else {
            return false;
        };
        if one.name.as_str() != other.name.as_str() || !equal(&one.value, &other.value) {
            return false;
        }
        rest = behind;
    }
    rest.is_empty()
}
