ghost use Rattle.std.specs.Prelude.{◌≡◌, ◌≤◌, ◌<◌, ◌+◌, ◌-◌, [], length, map, take, drop, IfOk, OnOk, OnErr};
ghost use Rattle.bson_values.specs.Cut.{cut, further};
ghost use Rattle.std.specs.Vec.{vec_capacity};

use bson_values::{Bytes, List, NoMemory};
use std::alloc::Global;
use std::collections::VecDeque;
use std::marker::Model;

/// The most bytes of items in a batch of several.
const MOST_BYTES: usize = 16_777_216;

/// The items that a cursor did not give yet, in order. They are taken from its front, and none of those behind is moved.
#[derive(Drop)]
pub struct Rest {
    items: VecDeque<Bytes>,
}

impl Model for Rest {
    ghost use Rattle.std.specs.Prelude.{ℕ, List as Seq};

    ghost Value = { Seq (Seq ℕ) };

    ghost view = { λ it. it.items.items };
}

impl Rest {
    /// All items of a list, without taking memory.
    pub fn of(items: List<Bytes>) -> Rest
        ensures { result ≡ items }
    {
        Rest {
            items: VecDeque::from_vec(items.into_vec()),
        }
    }

    /// Gives the items as a list, without taking memory.
    pub fn into_list(self) -> List<Bytes>
        ensures { result ≡ self }
    {
        let Rest { items } = self;
        List::from_vec(items.into_vec())
    }

    pub fn len(&self) -> usize
        ensures { result ≡ length self.now }
    {
        self.items.len()
    }

    /// How many items the next batch takes.
    pub fn cut(&self, most: u64) -> usize
        ensures { result ≡ cut (map length self.now) most }
    {
        let Some(first) = self.items.front() else {
            return 0;
        };
        if most == 0 {
            return 0;
        }
        batch_len(&self.items, first.len(), most)
    }

    /// Moves the first items out. Want of memory leaves all.
    pub fn take(&mut self, alloc: Global, count: usize) -> Result<List<Bytes>, NoMemory>
        requires { count ≤ length self.old }
        ensures taken { IfOk result (λ batch. batch ≡ take count self.old) }
        ensures left { OnOk result (self.new ≡ drop count self.old) }
        ensures err { OnErr result (self.new ≡ self.old) }
    {
        let mut batch = Vec::with_capacity(alloc, count)?;
        move_out(&mut self.items, &mut batch, count);
        Ok(List::from_vec(batch))
    }
}

/// How many items a batch takes whose first one has so many bytes.
fn batch_len(items: &VecDeque<Bytes>, first: usize, most: u64) -> usize
    requires { (0 < length items.now.items) × (0 < most) }
    ensures { result ≡ further first (map length (drop 1 items.now.items)) (most - 1) + 1 }
{
    let mut bytes = first;
    let mut count = 1;
    while let Some(item) = items.get(count) {
        if count as u64 == most {
            return count;
        }
        bytes = bytes.saturating_add(item.len());
        if MOST_BYTES < bytes {
            return count;
        }
        count += 1;
    }
    count
}

/// Moves so many items from the front of a queue to a `Vec` with room for them.
fn move_out(items: &mut VecDeque<Bytes>, batch: &mut Vec<Bytes>, count: usize)
    requires room { (batch.old.items ≡ []) × (count ≤ vec_capacity batch.old) }
    requires within { count ≤ length items.old.items }
    ensures moved { batch.new.items ≡ take count items.old.items }
    ensures left { items.new.items ≡ drop count items.old.items }
{
    while batch.len() < count {
        let Some(item) = items.pop_front() else {
            unreachable!()
        };
        batch.push_reserved(item);
    }
}
