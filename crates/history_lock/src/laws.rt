ghost use Rattle.std.specs.Prelude.{◌≡◌, ℕ, List, true};
ghost use Rattle.history_lock.specs.declared.entry.Entry.{Entry};
ghost use Rattle.history_lock.specs.Legal.{legal};
ghost use Rattle.history_lock.specs.Places.{Each};

use crate::object::Object;

/// Each call of a legal history might be made, whichever seat made it.
pub fn legal_calls_might_be_made<O: Object>()
    ensures { (s : O.State) (faults : ℕ) (log : List (Entry O.Call O.Reply))
        → legal O.allows O.next s faults log → Each (λ entry. O.accepts entry.call) log }
{}
