ghost use Rattle.table_words.specs.Kept.{NumbersNameSpaces, SoundAfter, StampsTellRows};

/// Whatever calls a history has, from sound tables it leads to sound ones.
#[tactic(auto, using(crate::proofs::Histories::sound_after))]
pub fn tables_of_a_history_are_sound()
    ensures { SoundAfter }
{}

/// A table that has the same stamp at two moments of a history has the same rows.
#[tactic(auto, using(crate::proofs::Histories::stamps_tell_rows))]
pub fn a_stamp_tells_the_rows()
    ensures { StampsTellRows }
{}

/// A table's number never becomes that of another space.
#[tactic(auto, using(crate::proofs::Histories::numbers_name_spaces))]
pub fn a_number_names_one_space()
    ensures { NumbersNameSpaces }
{}
