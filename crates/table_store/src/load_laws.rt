ghost use Rattle.table_store.specs.LoadingLaws.{NoFault, OneFault, OneState};

/// What is kept fixes the tables that it is loaded as.
#[tactic(auto, using(crate::proofs::LoadLaws::one_state))]
pub fn kept_tables_are_loaded_as_one_state()
    ensures { OneState }
{}

/// Tables with a fault are not loaded.
pub fn loaded_tables_have_no_fault()
    ensures { NoFault }
{}

/// A first fault is told in one way.
pub fn there_is_one_first_fault()
    ensures { OneFault }
{}
