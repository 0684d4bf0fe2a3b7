ghost use Rattle.std.specs.Prelude.{◌≡◌};
ghost use Rattle.std.specs.Option.{option_cmp, option_copied};
ghost use Rattle.bson_order.specs.Order.{compared};
ghost use Rattle.doc_shape.specs.Keys.{key_cmp};

use bson_order::compare;
use bson_values::Value;
use std::cmp::Ordering;

/// Keys of which none is an empty array's, which is below every value.
fn compare_up(one: Option<&Value>, other: Option<&Value>) -> Ordering
    ensures { result ≡ option_cmp compared (option_copied one.entry) (option_copied other.entry) }
{
    match (one, other) {
        (None, None) => Ordering::Equal,
        (None, Some(_)) => Ordering::Less,
        (Some(_), None) => Ordering::Greater,
        (Some(one), Some(other)) => compare(one, other),
    }
}

/// A key beside another; descending, turned round.
pub(crate) fn compare_keys(ascends: bool, one: Option<&Value>, other: Option<&Value>) -> Ordering
    ensures { result ≡ key_cmp ascends (option_copied one.entry) (option_copied other.entry) }
{
    if ascends {
        compare_up(one, other)
    } else {
        compare_up(other, one)
    }
}
