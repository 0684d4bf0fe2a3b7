ghost use Rattle.std.specs.Prelude.{◌≡◌, ◌≤◌, ◌&&◌, [], suc, length, not};
ghost use Rattle.std.specs.List.{list_any, list_all};
ghost use Rattle.std.specs.Option.{option_copied};
ghost use Rattle.doc_paths.specs.Reach.{reached, behind_field};
ghost use Rattle.filter_syntax.specs.Meaning.{holds, met_by};
ghost use Rattle.filter_match.specs.Asking.{meets_all, meets, asked, any_equal, all_equal, all_met};
ghost use Rattle.filter_match.specs.Tails.{is_open, some_open, answers, answers_behind, ArePlaces, any_from, element_answers};
ghost use Rattle.doc_paths.specs.declared.reached.Reached.TheVariants.{Found};
ghost use Rattle.bson_values.specs.declared.value.Value.{out-Value};
ghost use Rattle.bson_values.specs.declared.value.Value.TheVariants as value;

use crate::asking::Ask;
use crate::candidates::{
    any_passes, ask_missing, is_array_of_len, items_of, one_equals, one_passes,
};
use crate::tails::{
    Marks, Places, at_place, is_any_open, places_of, whole_path, with_name, with_rests, without,
};
use bson_values::{Document, List, Text, Value};
use filter_syntax::{Filter, Test};

/// Whether the filter holds of the document.
#[cycle(walk)]
#[tactic(auto, using(crate::proofs::Equations::by_filter))]
pub fn matches(filter: &Filter, doc: &Document) -> bool
    ensures { result ≡ holds filter.now doc.now }
{
    match filter {
        Filter::All(filters) => all_match(filters.as_slice(), doc),
        Filter::AnyOf(filters) => any_matches(filters.as_slice(), doc),
        Filter::NoneOf(filters) => !any_matches(filters.as_slice(), doc),
        Filter::On(path, test) => match path.parts().split_first() {
            Some((part, rest)) => is_met(test, doc.get(part.as_str()), rest),
            None => false,
        },
    }
}

#[cycle(walk)]
fn all_match(filters: &[Filter], doc: &Document) -> bool
    ensures { result ≡ list_all (λ filter. holds filter doc.now) filters.now }
{
    for filter in filters {
        if !matches(filter, doc) {
            return false;
        }
    }
    true
}

#[cycle(walk)]
fn any_matches(filters: &[Filter], doc: &Document) -> bool
    ensures { result ≡ list_any (λ filter. holds filter doc.now) filters.now }
{
    for filter in filters {
        if matches(filter, doc) {
            return true;
        }
    }
    false
}

/// Whether what the parts reach from a value, or from a missing one, meets the operator.
#[cycle(walk)]
#[tactic(auto, using(crate::proofs::Equations::by_operator), unfolding(crate::specs::Asking::asked))]
fn is_met(test: &Test, value: Option<&Value>, parts: &[Text]) -> bool
    requires { length parts.now ≤ 100 }
    ensures { result ≡ met_by test.now (behind_field (reached parts.now) (option_copied value.entry)) }
{
    match test {
        Test::Eq(wanted) => any_reached(value, parts, Ask::Equal(wanted)),
        Test::Ne(wanted) => !any_reached(value, parts, Ask::Equal(wanted)),
        Test::OneOf(wanted) => any_is_reached(wanted.as_slice(), value, parts),
        Test::NotOneOf(wanted) => !any_is_reached(wanted.as_slice(), value, parts),
        Test::Not(tests) => !all_are_met(tests.as_slice(), value, parts),
        Test::Exists(wanted) => any_reached(value, parts, Ask::By(test)) == *wanted,
        Test::AllOf(wanted) => wanted.len() != 0
            && all_are_reached(wanted.as_slice(), value, parts),
        _ => any_reached(value, parts, Ask::By(test)),
    }
}

#[cycle(walk)]
fn all_are_met(tests: &[Test], value: Option<&Value>, parts: &[Text]) -> bool
    requires { length parts.now ≤ 100 }
    ensures { result ≡ all_met tests.now (behind_field (reached parts.now) (option_copied value.entry)) }
{
    for test in tests {
        if !is_met(test, value, parts) {
            return false;
        }
    }
    true
}

#[cycle(walk)]
#[tactic(auto, unfolding(crate::specs::Asking::asked))]
fn any_is_reached(wanted: &[Value], value: Option<&Value>, parts: &[Text]) -> bool
    requires { length parts.now ≤ 100 }
    ensures { result ≡ any_equal wanted.now (behind_field (reached parts.now) (option_copied value.entry)) }
{
    for one in wanted {
        if any_reached(value, parts, Ask::Equal(one)) {
            return true;
        }
    }
    false
}

#[cycle(walk)]
#[tactic(auto, unfolding(crate::specs::Asking::asked))]
fn all_are_reached(wanted: &[Value], value: Option<&Value>, parts: &[Text]) -> bool
    requires { length parts.now ≤ 100 }
    ensures { result ≡ all_equal wanted.now (behind_field (reached parts.now) (option_copied value.entry)) }
{
    for one in wanted {
        if !any_reached(value, parts, Ask::Equal(one)) {
            return false;
        }
    }
    true
}

/// Whether some value that the parts reach answers.
#[cycle(walk)]
#[tactic(auto, using(crate::proofs::Following::whole_is))]
fn any_reached(value: Option<&Value>, parts: &[Text], ask: Ask<'_>) -> bool
    requires { length parts.now ≤ 100 }
    ensures { result ≡ list_any (asked ask.entry) (behind_field (reached parts.now) (option_copied value.entry)) }
{
    any_behind(value, parts, &whole_path(), ask)
}

/// Whether some value that an open tail reaches, from a value or from a missing one, answers.
#[cycle(walk)]
#[tactic(auto, using(crate::proofs::Following::missing_asked, crate::proofs::Following::found_behind))]
fn any_behind(value: Option<&Value>, parts: &[Text], marks: &Marks, ask: Ask<'_>) -> bool
    requires { length parts.now ≤ 100 }
    ensures { result
        ≡ some_open marks.now (suc (length parts.now)) (answers_behind ask.entry parts.now (option_copied value.entry)) }
{
    match value {
        None => is_any_open(marks, parts.len() + 1) && ask_missing(ask),
        Some(value) => any_from_value(value, parts, marks, ask),
    }
}

#[cycle(walk)]
#[tactic(auto, using(crate::proofs::Following::itself_or_beyond))]
fn any_from_value(value: &Value, parts: &[Text], marks: &Marks, ask: Ask<'_>) -> bool
    requires { length parts.now ≤ 100 }
    ensures { result ≡ some_open marks.now (suc (length parts.now)) (answers ask.entry parts.now value.now) }
{
    is_asked(value, parts.len(), marks, ask) || any_beyond(value, parts, marks, ask)
}

#[cycle(walk)]
fn is_asked(value: &Value, ended: usize, marks: &Marks, ask: Ask<'_>) -> bool
    requires { ended ≤ 100 }
    ensures { result ≡ (is_open marks.now ended && asked ask.entry (Found value.now)) }
{
    marks[ended] && ask_found(value, ask)
}

/// Whether some value beyond this one answers: what the open tails reach that have parts left.
#[cycle(walk)]
#[tactic(auto, using(crate::proofs::Following::none_open))]
fn any_beyond(value: &Value, parts: &[Text], marks: &Marks, ask: Ask<'_>) -> bool
    requires { length parts.now ≤ 100 }
    ensures { result ≡ some_open marks.now (length parts.now) (answers ask.entry parts.now value.now) }
{
    if !is_any_open(marks, parts.len()) {
        return false;
    }
    match value {
        Value::Doc(document) => any_in_fields(document, parts, marks, ask),
        Value::Arr(items) => any_in_items(items, parts, marks, ask),
        _ => ask_missing(ask),
    }
}

/// Each field once, with all open tails that begin with its name.
#[cycle(walk)]
#[tactic(auto, using(crate::proofs::Following::none_left, crate::proofs::Following::no_parts))]
fn any_in_fields(document: &Document, parts: &[Text], marks: &Marks, ask: Ask<'_>) -> bool
    requires { length parts.now ≤ 100 }
    ensures { result ≡ some_open marks.now (length parts.now) (answers ask.entry parts.now (value.Doc document.now)) }
{
    let Some((_, rest)) = parts.split_first() else {
        return false;
    };
    let mut left = *marks;
    for (place, part) in parts.iter().enumerate() {
        if left[place] {
            let name = part.as_str();
            let named = with_name(&left, parts, place, name);
            if any_behind(document.get(name), rest, &named, ask) {
                return true;
            }
            left = without(&left, &named);
        }
    }
    false
}

/// Each element once, with all open tails whose part tells its place and, where it is a document, all open ones.
#[cycle(walk)]
fn any_in_items(items: &List<Value>, parts: &[Text], marks: &Marks, ask: Ask<'_>) -> bool
    requires { length parts.now ≤ 100 }
    ensures { result ≡ any_from (element_answers ask.entry parts.now marks.now) 0 items.now }
{
    let _len = items.len();
    let places = places_of(marks, parts);
    for (place, item) in items.as_slice().iter().enumerate() {
        if any_in_item(item, place, &places, parts, marks, ask) {
            return true;
        }
    }
    false
}

#[cycle(walk)]
#[tactic(auto, using(crate::proofs::Following::no_part))]
fn any_in_item(
    item: &Value,
    place: usize,
    places: &Places,
    parts: &[Text],
    marks: &Marks,
    ask: Ask<'_>,
) -> bool
    requires few { length parts.now ≤ 100 }
    requires told { ArePlaces places.now marks.now parts.now }
    ensures { result ≡ element_answers ask.entry parts.now marks.now place item.now }
{
    let Some((_, rest)) = parts.split_first() else {
        return false;
    };
    let here = at_place(marks, places, place);
    match item {
        Value::Doc(document) => {
            let all = with_rests(marks, &here);
            is_asked(item, rest.len(), &here, ask) || any_in_fields(document, parts, &all, ask)
        }
        _ => any_from_value(item, rest, &here, ask),
    }
}

/// Whether a reached value answers.
#[cycle(walk)]
#[tactic(auto, unfolding(crate::specs::Asking::asked))]
fn ask_found(value: &Value, ask: Ask<'_>) -> bool
    ensures { result ≡ asked ask.entry (Found value.now) }
{
    match ask {
        Ask::Equal(wanted) => one_equals(value, wanted),
        Ask::By(test) => match test {
            Test::Exists(_) => true,
            Test::Size(len) => is_array_of_len(value, *len),
            Test::ElemTests(tests) => any_meets_all(tests.as_slice(), items_of(value)),
            Test::ElemFilter(filter) => any_meets(filter.get(), items_of(value)),
            _ => one_passes(value, test) || any_passes(items_of(value), test),
        },
    }
}

#[cycle(walk)]
#[tactic(auto, unfolding(crate::specs::Asking::meets_all))]
fn any_meets_all(tests: &[Test], items: &[Value]) -> bool
    ensures { result ≡ list_any (meets_all tests.now) items.now }
{
    for item in items {
        if all_are_met(tests, Some(item), &[]) {
            return true;
        }
    }
    false
}

#[cycle(walk)]
#[tactic(auto, unfolding(crate::specs::Asking::meets))]
fn any_meets(filter: &Filter, items: &[Value]) -> bool
    ensures { result ≡ list_any (meets filter.now) items.now }
{
    for item in items {
        if let Value::Doc(document) = item {
            if matches(filter, document) {
                return true;
            }
        }
    }
    false
}
