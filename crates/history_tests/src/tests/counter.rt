ghost use Rattle.std.specs.Prelude.{◌≡◌, ◌+◌, ◌%◌, ◌^◌, ⊤};

use history_lock::{Object, Who};
use std::alloc::Global;

/// Counts its calls, and remembers what was asked.
#[derive(Drop)]
pub struct Counter {
    pub count: u64,
    pub asked: Vec<u64>,
}

impl Object for Counter {
    type Call = u64;

    type Reply = u64;

    type State = u64;

    ghost state = { λ c. c.count };

    ghost faults = { λ _. 0 };

    ghost accepts = { λ _. ⊤ };

    ghost allows = { λ s _ r before after. (r ≡ (s + 1) % 2 ^ 64) × (after ≡ before) };

    ghost next = { λ s _ _. (s + 1) % 2 ^ 64 };

    ghost only_accepted = { λ _ _ _ _ _ _. tt };

    fn run(&mut self, call: u64) -> u64 {
        self.count = self.count.wrapping_add(1);
        let _kept = self.asked.push(call).is_ok();
        self.count
    }
}

pub fn at_zero(alloc: Global) -> Counter {
    Counter {
        count: 0,
        asked: Vec::new(alloc),
    }
}

pub fn who(seat: u64, op: u64) -> Who {
    Who { seat, link: 0, op }
}
