ghost use Rattle.std.specs.Prelude.{◌≡◌};
ghost use Rattle.std.specs.List.{list_all, list_any};
ghost use Rattle.jsonb_contain.specs.Containment.{contained, has_element, inside, passes, same_scalar};
ghost use Rattle.jsonb_contain.specs.Rising.{value_at};
ghost use Rattle.jsonb_contain.specs.declared.value.Json.{out-Json};

use crate::fields::Fields;
use crate::value::Json;

pub(crate) fn are_same_scalars(one: &Json, other: &Json) -> bool
    ensures { result ≡ same_scalar (out-Json one.now) (out-Json other.now) }
{
    match (one, other) {
        (Json::Null, Json::Null) => true,
        (Json::Bool(one), Json::Bool(other)) => *one == *other,
        (Json::Whole(one), Json::Whole(other)) => *one == *other,
        (Json::Text(one), Json::Text(other)) => one.as_str() == other.as_str(),
        _ => false,
    }
}

#[cycle(inside)]
#[tactic(auto, using(crate::proofs::Levels::inside_objects, crate::proofs::Levels::inside_arrays, crate::proofs::Levels::inside_is))]
fn is_inside(one: &Json, all: &Json) -> bool
    ensures { result ≡ inside all.now one.now }
{
    match (one, all) {
        (Json::Object(fields), Json::Object(all)) => fields_are_inside(fields, all),
        (Json::Array(items), Json::Array(all)) => items_are_inside(
            items.as_slice(),
            all.as_slice(),
        ),
        _ => are_same_scalars(one, all),
    }
}

#[cycle(inside)]
fn fields_are_inside(fields: &Fields<Json>, all: &Fields<Json>) -> bool
    ensures { result ≡ list_all (λ pair. passes (λ it. inside it pair.value) (value_at pair.name all.now)) fields.now }
{
    for pair in fields.as_slice() {
        match all.get(pair.name.as_str()) {
            None => return false,
            Some(it) => {
                if !is_inside(&pair.value, it) {
                    return false;
                }
            }
        }
    }
    true
}

#[cycle(inside)]
fn items_are_inside(items: &[Json], all: &[Json]) -> bool
    ensures { result ≡ list_all (λ item. list_any (λ it. inside it item) all.now) items.now }
{
    for item in items {
        if !any_has_inside(item, all) {
            return false;
        }
    }
    true
}

#[cycle(inside)]
fn any_has_inside(item: &Json, all: &[Json]) -> bool
    ensures { result ≡ list_any (λ it. inside it item.now) all.now }
{
    for it in all {
        if is_inside(item, it) {
            return true;
        }
    }
    false
}

fn any_is(items: &[Json], one: &Json) -> bool
    ensures { result ≡ list_any (λ item. same_scalar (out-Json item) (out-Json one.now)) items.now }
{
    items.iter().any(|item| are_same_scalars(item, one))
}

fn any_element(all: &Json, one: &Json) -> bool
    ensures { result ≡ has_element (out-Json all.now) (out-Json one.now) }
{
    match all {
        Json::Array(items) => any_is(items.as_slice(), one),
        _ => false,
    }
}

/// Whether the first contains the second, as the operator `@>` of PostgreSQL's `jsonb` does (manual, "jsonb Containment and
/// Existence"). An array in an array costs a comparison of each element with each.
pub fn contains(all: &Json, one: &Json) -> bool
    ensures { result ≡ contained all.now one.now }
{
    is_inside(one, all) || any_element(all, one)
}
