ghost use Rattle.std.specs.Prelude.{◌≡◌, true, All, List as Seq};
ghost use Rattle.filter_syntax.specs.Meaning.{holds};
ghost use Rattle.filter_syntax.specs.declared.filter.Filter.{Filter};
ghost use Rattle.pushdown.specs.Law.{IsSound, Kept, docs_of, is_selected, matching, selected};

use bson_order::{a_key_tells_values_apart, values_compare_layer_by_layer};
use typed_json::a_row_has_each_field;

/// The row of a document that a filter holds of meets the condition that the filter pushes down.
pub fn a_filter_implies_its_condition()
    ensures { (kept : Kept) → IsSound kept → (filter : Filter) → holds filter kept.doc ≡ true → is_selected filter kept ≡ true }
{
    values_compare_layer_by_layer();
    a_key_tells_values_apart();
    a_row_has_each_field();
}

/// Filtering the documents of the rows that meet the pushed condition gives what filtering all documents gives, in the same order.
pub fn filtering_selected_rows_is_filtering_all()
    ensures { (all : Seq Kept) → All IsSound all → (filter : Filter)
        → matching filter (docs_of (selected filter all)) ≡ matching filter (docs_of all) }
{
    a_filter_implies_its_condition();
}
