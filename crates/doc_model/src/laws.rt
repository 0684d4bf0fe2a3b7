ghost use Rattle.std.specs.Prelude.{◌≡◌, ◌++◌, [], List};
ghost use Rattle.doc_model.specs.Laws.{RefusalsChangeNothing, NothingTakesNoNumber, OthersAreLeft, IdsStayOwn};
ghost use Rattle.doc_model.specs.Laws.{InsertedIsFound, DeletedIsGone};
ghost use Rattle.doc_model.specs.Run.{Done, run, whos};
ghost use Rattle.doc_model.specs.Store.{Store};

#[tactic(auto, using(crate::proofs::Turned::left))]
pub fn a_refusal_changes_nothing()
    ensures { RefusalsChangeNothing }
{}

pub fn a_change_of_nothing_takes_no_number()
    ensures { NothingTakesNoNumber }
{}

pub fn an_operation_leaves_other_spaces()
    ensures { OthersAreLeft }
{}

pub fn what_was_inserted_is_found()
    ensures { InsertedIsFound }
{}

pub fn what_was_deleted_is_gone()
    ensures { DeletedIsGone }
{}

/// Each document has an `_id`, and two documents of one space never have the same.
pub fn ids_stay_distinct()
    ensures { IdsStayOwn }
{}

/// A run goes on where another ended.
pub fn runs_join()
    ensures none { (s : Store) → run s [] s }
    ensures append { (xs ys : List Done) (s m t : Store) → run s xs m → run m ys t → run s (xs ++ ys) t }
    ensures whos { (xs ys : List Done) → whos (xs ++ ys) ≡ whos xs ++ whos ys }
{}
