ghost use Rattle.doc_history.specs.Laws.{Grows, Joins, Wholes, Tells, ServedNone, ServedOn};

/// What is told of a part of a history stays true as the history goes on.
pub fn a_part_stays_told()
    ensures { Grows }
{}

/// Two parts of a history with no operation in common are one part.
pub fn two_parts_are_one()
    ensures { Joins }
{}

/// A part with all places of a history tells the whole.
#[tactic(auto, using(crate::proofs::Parts::law_wholes))]
pub fn all_parts_are_the_whole()
    ensures { Wholes }
{}

/// The last entries of a history that is told, in order, are a run of the one-thread store.
#[tactic(auto, using(crate::proofs::Tales::law_tells))]
pub fn the_story_is_a_run()
    ensures { Tells }
{}

/// Operations that were served, and then others, were served together.
#[tactic(auto, using(crate::proofs::Going::served_none, crate::proofs::Going::served_on))]
pub fn operations_are_served_one_after_another()
    ensures none { ServedNone }
    ensures on { ServedOn }
{}
