use crate::call::{TableCall, TableReply};
use history_lock::Who;

/// One seat at the tables.
pub trait TableDesk {
    ghost use Rattle.std.specs.Prelude.{◌≡◌, ◌+◌, ◌%◌, ◌^◌, ℕ, Bool, true, false};
    ghost use Rattle.history_lock.specs.Logged.{Longer};
    ghost use Rattle.history_lock.specs.Legal.{legal};
    ghost use Rattle.history_lock.specs.declared.view.View.{View};
    ghost use Rattle.table_words.specs.Tables.{Tables};
    ghost use Rattle.table_words.specs.Sound.{Sound};
    ghost use Rattle.table_words.specs.Called.{Called};
    ghost use Rattle.table_words.specs.Sound.{accepted};
    ghost use Rattle.table_words.specs.Step.{tstep, tables_after};
    ghost use Rattle.table_words.specs.declared.call.TableCall.{TableCall};
    ghost use Rattle.table_words.specs.declared.call.TableReply.{TableReply};

    /// The tables at the beginning of the history.
    ghost opening: { Self → Tables };

    /// The count of faults at its beginning.
    ghost first: { Self → ℕ };

    /// What the seat has seen.
    ghost at: { Self → View TableCall TableReply };

    /// Whether it holds a turn.
    ghost held: { Self → Bool };

    /// How many turns were begun.
    ghost turns: { Self → ℕ };

    fn call(&mut self, who: Who, call: TableCall) -> TableReply
        requires { accepted call }
        ensures called { Called (held self.old) (opening self.new) (first self.new) (at self.old) (at self.new) who call result }
        ensures opening { opening self.new ≡ opening self.old }
        ensures first { first self.new ≡ first self.old }
        ensures held { held self.new ≡ held self.old }
        ensures turns { turns self.new ≡ turns self.old };

    fn hold(&mut self)
        requires { held self.old ≡ false }
        ensures longer { Longer (at self.old) (at self.new) }
        ensures opening { opening self.new ≡ opening self.old }
        ensures first { first self.new ≡ first self.old }
        ensures held { held self.new ≡ true }
        ensures turns { turns self.new ≡ (turns self.old + 1) % 2 ^ 64 };

    fn release(&mut self)
        requires { held self.old ≡ true }
        ensures same { at self.new ≡ at self.old }
        ensures opening { opening self.new ≡ opening self.old }
        ensures first { first self.new ≡ first self.old }
        ensures held { held self.new ≡ false }
        ensures turns { turns self.new ≡ turns self.old };
}
