ghost use Rattle.cursor_core.specs.Batches.{BatchesArePrefixes, SoundAfter};

/// Whatever calls a history has, from sound cursors it leads to sound ones.
#[tactic(auto, using(crate::proofs::Histories::sound_after))]
pub fn cursors_of_a_history_are_sound()
    ensures { SoundAfter }
{}

/// The batches of a cursor, whoever asked for them, are a prefix of what it was started with, and all of it where one came with id 0.
#[tactic(auto, using(crate::proofs::Prefixes::batches_are_prefixes))]
pub fn batches_are_a_prefix()
    ensures { BatchesArePrefixes }
{}
