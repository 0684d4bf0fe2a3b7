ghost use Rattle.std.specs.Prelude.{◌≡◌, Ok, List as Seq};
ghost use Rattle.bson_values.specs.declared.pairs.Pair.{Pair};
ghost use Rattle.bson_values.specs.declared.value.Value.{Value};
ghost use Rattle.bson_values.specs.Storable.{storable};
ghost use Rattle.typed_json.specs.Laws.{HasFields, OneDocument, RowsAreReadAgain, RowsAreTheirDocuments};
ghost use Rattle.typed_json.specs.Row.{row_of};

/// No two documents that may be stored have one row.
#[tactic(auto, using(crate::proofs::Rows::one_document))]
pub fn a_row_tells_its_document()
    ensures { OneDocument }
{}

/// The row of a document that may be stored has each of its fields as plain JSON under its name.
#[tactic(auto, using(crate::proofs::Rows::has_fields))]
pub fn a_row_has_each_field()
    ensures { (doc : Seq (Pair Value)) → storable doc ≡ Ok tt → HasFields (row_of doc) doc }
{}

/// The text of the row of a document that may be stored is read again as that row.
pub fn a_row_is_read_again()
    ensures { RowsAreReadAgain }
{}

/// The row of a document that may be stored, read strictly, is that document.
#[tactic(auto, using(crate::proofs::Again::row_again))]
pub fn a_row_is_read_as_its_document()
    ensures { RowsAreTheirDocuments }
{}
