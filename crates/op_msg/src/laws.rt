ghost use Rattle.std.specs.Prelude.{◌≡◌, ◌<◌, ◌⊎◌, ◌++◌, ℕ, List, [], slice_index};
ghost use Rattle.std.specs.List.{flat_map};
ghost use Rattle.op_msg.specs.declared.message.Message.{Message as Asked};
ghost use Rattle.op_msg.specs.Stream.{frames, TakenFrom};
ghost use Rattle.op_msg.specs.Reading.{Fault, short, fault};
ghost use Rattle.op_msg.specs.Front.{Begins};

/// A stream is framed in one way.
pub fn a_stream_has_one_framing()
    ensures { (bytes : List ℕ) (ms ns : List Asked) (rest other : List ℕ)
        → frames bytes ms rest → frames bytes ns other → (ms ≡ ns) × (rest ≡ other) }
{}

/// The messages of a stream do not depend on the pieces in which it comes: taken piece by piece, they are those of the whole.
pub fn the_pieces_of_a_stream_do_not_show()
    ensures { (pieces : List (List ℕ)) (ms : List Asked) (rest : List ℕ)
        → TakenFrom [] pieces ms rest → frames (flat_map (λ (piece : List ℕ). piece) pieces) ms rest }
{}

/// What stands at the front of a stream is a message, or a fault, or is too short to tell, and only one of them.
pub fn a_front_is_a_message_a_fault_or_short()
    ensures one { (bytes : List ℕ) → ((i : ℕ) → slice_index bytes i < 256)
        → short bytes ⊎ ((f : Fault) × (fault bytes ≡ Some f)) ⊎ ((m : Asked) × (used : ℕ) × Begins bytes m used) }
    ensures short_alone { (bytes : List ℕ) → short bytes → fault bytes ≡ None }
    ensures message_alone { (bytes : List ℕ) (m : Asked) (used : ℕ)
        → Begins bytes m used → (fault bytes ≡ None) × (short bytes → ⊥) }
{}

/// A fault stays the same one, whatever bytes follow.
pub fn a_fault_stays()
    ensures { (bytes more : List ℕ) (f : Fault) → fault bytes ≡ Some f → fault (bytes ++ more) ≡ Some f }
{}
