ghost use Rattle.std.specs.Prelude.{◌≡◌, ◌≤◌, ◌<◌, ◌∷◌, ℕ, List, [], Option, length, IfOk};
ghost use Rattle.outside.specs.Told.{Grows, Shrinks, Tells, given};
ghost use Rattle.outside.specs.Causes.{HasCause};

/// A call of the outside failed.
#[derive(Clone, Copy, Debug, PartialEq, Eq)]
pub struct Failed;

/// A place where a connection can be made to wait.
///
/// What a link tells stands here, since a connection's messages are answered with its link lent as a
/// gate. A gate that is no link tells nothing, and its counts are 0.
pub trait Gate {
    /// The bytes that the link's reads gave, where they are told.
    ghost taken: { Self → Option (List ℕ) };

    /// The bytes that are still to be read, where they are told.
    ghost left: { Self → Option (List ℕ) };

    /// The bytes that the link's writes took, where they are told.
    ghost written: { Self → Option (List ℕ) };

    /// The moments that the link's clock gave, where they are told.
    ghost moments: { Self → Option (List ℕ) };

    /// How many reads failed. The count stands still at the end of a u64.
    ghost read_faults: { Self → ℕ };

    /// How many writes failed. The count stands still at the end of a u64.
    ghost write_faults: { Self → ℕ };

    /// Is called between two steps of a connection, with no lock held.
    fn between(&mut self)
        ensures taken { taken self.new ≡ taken self.old }
        ensures left { left self.new ≡ left self.old }
        ensures written { written self.new ≡ written self.old }
        ensures moments { moments self.new ≡ moments self.old }
        ensures read_faults { read_faults self.new ≡ read_faults self.old }
        ensures write_faults { write_faults self.new ≡ write_faults self.old };
}

/// One connection: bytes in, bytes out, and a clock.
pub trait Link: Gate {
    /// Reads some bytes to the front of `into`, and answers how many. For an `into` with room, 0 is the
    /// end of the input.
    fn read(&mut self, into: &mut [u8]) -> Result<usize, Failed>
        ensures bound { IfOk result (λ count. count ≤ length into.new) }
        ensures taken { Grows (Self.taken self.old) (Self.taken self.new) (given result into.new) }
        ensures left { Shrinks (Self.left self.old) (Self.left self.new) (given result into.new) }
        ensures end { IfOk result (λ count. count ≡ 0 → 0 < length into.new → Tells (Self.left self.new) []) }
        ensures written { Self.written self.new ≡ Self.written self.old }
        ensures moments { Self.moments self.new ≡ Self.moments self.old }
        ensures cause { HasCause (Self.read_faults self.old) (Self.read_faults self.new) result }
        ensures write_faults { Self.write_faults self.new ≡ Self.write_faults self.old };

    /// Writes some bytes from the front of `from`, and answers how many: at least one where there is
    /// one, so a sink that takes nothing has failed.
    fn write(&mut self, from: &[u8]) -> Result<usize, Failed>
        ensures bound { IfOk result (λ count. count ≤ length from.now) }
        ensures some { IfOk result (λ count. 0 < length from.now → 0 < count) }
        ensures written { Grows (Self.written self.old) (Self.written self.new) (given result from.now) }
        ensures taken { Self.taken self.new ≡ Self.taken self.old }
        ensures left { Self.left self.new ≡ Self.left self.old }
        ensures moments { Self.moments self.new ≡ Self.moments self.old }
        ensures cause { HasCause (Self.write_faults self.old) (Self.write_faults self.new) result }
        ensures read_faults { Self.read_faults self.new ≡ Self.read_faults self.old };

    /// The moment, in milliseconds since 1970-01-01 00:00 UTC.
    fn now(&mut self) -> u64
        ensures moments { Grows (Self.moments self.old) (Self.moments self.new) (result ∷ []) }
        ensures taken { Self.taken self.new ≡ Self.taken self.old }
        ensures left { Self.left self.new ≡ Self.left self.old }
        ensures written { Self.written self.new ≡ Self.written self.old }
        ensures read_faults { Self.read_faults self.new ≡ Self.read_faults self.old }
        ensures write_faults { Self.write_faults self.new ≡ Self.write_faults self.old };

    /// Closes the stream. What the link tells stays.
    fn shut(&mut self)
        ensures taken { Self.taken self.new ≡ Self.taken self.old }
        ensures left { Self.left self.new ≡ Self.left self.old }
        ensures written { Self.written self.new ≡ Self.written self.old }
        ensures moments { Self.moments self.new ≡ Self.moments self.old }
        ensures read_faults { Self.read_faults self.new ≡ Self.read_faults self.old }
        ensures write_faults { Self.write_faults self.new ≡ Self.write_faults self.old };
}
