ghost use Rattle.std.specs.Prelude.{◌≡◌, ◌∷◌, ◌-◌, ◌^◌, ◌≤◌, [], None, Some, length, map, take, is_some, slice_get, option_map, IsSome, IfOk, OnOk, OnErr};
ghost use Rattle.cursor_core.specs.declared.state.Cursor.{Cursor as Shown};
ghost use Rattle.cursor_core.specs.Held.{of_id, without};
ghost use Rattle.cursor_core.specs.Shown.{Gives, entry_shown, last_of, shown};

use crate::rest::Rest;
use bson_values::{Bytes, List, NoMemory, Space};
use lru::LruCache;
use std::alloc::Global;
use std::marker::Model;

/// A cursor without its id.
#[derive(Drop)]
pub struct Held {
    pub space: Space,
    pub rest: Rest,
    pub last: u64,
}

/// The cursors that are held, in the order in which they were asked: the one that was asked last is first. One is found through a hash of
/// its id; ids are given one after the other, so no stranger chooses them.
#[derive(Drop)]
pub struct Asked {
    cache: Option<LruCache<u64, Held>>,
}

impl Model for Asked {
    ghost use Rattle.std.specs.Prelude.{◌≡◌, ◌-◌, ◌^◌, List as Seq};
    ghost use Rattle.std.specs.Option.{ForSome};
    ghost use Rattle.cursor_core.specs.declared.state.Cursor.{Cursor as Shown};
    ghost use Rattle.cursor_core.specs.Shown.{all_shown};

    ghost Value = { Seq Shown };

    ghost view = { λ it. all_shown it.cache };

    ghost invariant = { λ it. ForSome it.cache (λ cache. cache.cap ≡ 2 ^ 64 - 1) };
}

impl Asked {
    pub fn new() -> Asked
        ensures { result ≡ [] }
    {
        Asked { cache: None }
    }

    pub fn len(&self) -> usize
        ensures { result ≡ length self.now }
    {
        match &self.cache {
            Some(cache) => cache.len(),
            None => 0,
        }
    }

    pub fn get(&self, id: u64) -> Option<&Held>
        ensures { option_map (λ held. shown id held.now) result ≡ of_id id self.now }
    {
        match &self.cache {
            Some(cache) => cache.peek(&id),
            None => None,
        }
    }

    /// The last moment of the cursor that was asked longest ago.
    pub fn oldest(&self) -> Option<u64>
        ensures { result ≡ option_map (λ c. c.last) (last_of self.now) }
    {
        match &self.cache {
            Some(cache) => match cache.peek_lru() {
                Some((_, held)) => Some(held.last),
                None => None,
            },
            None => None,
        }
    }

    pub fn drop_oldest(&mut self)
        ensures { self.new ≡ take (length self.old - 1) self.old }
    {
        match &mut self.cache {
            Some(cache) => drop_last(cache),
            None => {}
        }
    }

    /// Takes the cursor of the id out.
    pub fn remove(&mut self, id: u64) -> Option<Held>
        ensures value { option_map (shown id) result ≡ of_id id self.old }
        ensures others { self.new ≡ without id self.old }
    {
        match &mut self.cache {
            Some(cache) => take_out(cache, id),
            None => None,
        }
    }

    /// Drops the cursor of the id, and says whether it was held.
    pub fn forget(&mut self, id: u64) -> bool
        ensures was { result ≡ is_some (of_id id self.old) }
        ensures others { self.new ≡ without id self.old }
    {
        self.remove(id).is_some()
    }

    /// Takes the cursor of the id out, for all that rests of it.
    pub fn finish(&mut self, id: u64) -> List<Bytes>
        requires { IsSome (of_id id self.old) }
        ensures items { option_map (λ c. c.rest) (of_id id self.old) ≡ Some result }
        ensures others { self.new ≡ without id self.old }
    {
        match self.remove(id) {
            Some(Held { rest, .. }) => rest.into_list(),
            None => unreachable!(),
        }
    }

    /// Adds a cursor. Want of memory drops it.
    pub fn add(&mut self, alloc: Global, id: u64, held: Held) -> Result<(), NoMemory>
        requires { of_id id self.old ≡ None }
        ensures ok { OnOk result (self.new ≡ shown id held ∷ self.old) }
        ensures err { OnErr result (self.new ≡ self.old) }
    {
        if self.cache.is_none() {
            self.cache = Some(LruCache::unbounded(alloc)?);
        }
        let Some(cache) = &mut self.cache else {
            unreachable!()
        };
        put_first(cache, id, held)
    }

    /// Moves a batch out of the cursor of the id, which is asked at this moment. Want of memory leaves all.
    pub fn give(
        &mut self,
        alloc: Global,
        id: u64,
        count: usize,
        latest: u64,
    ) -> Result<List<Bytes>, NoMemory>
        requires { (c : Shown) × (of_id id self.old ≡ Some c) × (count ≤ length c.rest) }
        ensures ok { IfOk result (λ batch. Gives id count latest batch self.old self.new) }
        ensures err { OnErr result (self.new ≡ self.old) }
    {
        let Some(cache) = &mut self.cache else {
            unreachable!()
        };
        move_batch(cache, alloc, id, count, latest)
    }
}

fn drop_last(cache: &mut LruCache<u64, Held>)
    ensures left { map entry_shown cache.new.entries
        ≡ take (length (map entry_shown cache.old.entries) - 1) (map entry_shown cache.old.entries) }
    ensures cap { cache.new.cap ≡ cache.old.cap }
{
    drop(cache.pop_lru());
}

#[tactic(auto, using(crate::proofs::Entries::taken, crate::proofs::Entries::removed))]
fn take_out(cache: &mut LruCache<u64, Held>, id: u64) -> Option<Held>
    ensures value { option_map (shown id) result ≡ of_id id (map entry_shown cache.old.entries) }
    ensures others { map entry_shown cache.new.entries ≡ without id (map entry_shown cache.old.entries) }
    ensures cap { cache.new.cap ≡ cache.old.cap }
{
    // Its keys are distinct.
    let _count = cache.len();
    cache.pop(&id)
}

fn put_first(cache: &mut LruCache<u64, Held>, id: u64, held: Held) -> Result<(), NoMemory>
    requires cap { cache.old.cap ≡ 2 ^ 64 - 1 }
    requires absent { of_id id (map entry_shown cache.old.entries) ≡ None }
    ensures ok { OnOk result (map entry_shown cache.new.entries ≡ shown id held ∷ map entry_shown cache.old.entries) }
    ensures err { OnErr result (map entry_shown cache.new.entries ≡ map entry_shown cache.old.entries) }
    ensures cap { cache.new.cap ≡ cache.old.cap }
{
    let _count = cache.len();
    match cache.put(id, held) {
        Ok(_) => Ok(()),
        Err(_) => Err(NoMemory),
    }
}

fn move_batch(
    cache: &mut LruCache<u64, Held>,
    alloc: Global,
    id: u64,
    count: usize,
    latest: u64,
) -> Result<List<Bytes>, NoMemory>
    requires { (c : Shown) × (of_id id (map entry_shown cache.old.entries) ≡ Some c) × (count ≤ length c.rest) }
    ensures ok { IfOk result (λ batch.
        Gives id count latest batch (map entry_shown cache.old.entries) (map entry_shown cache.new.entries)) }
    ensures err { OnErr result (map entry_shown cache.new.entries ≡ map entry_shown cache.old.entries) }
    ensures cap { cache.new.cap ≡ cache.old.cap }
{
    let _count = cache.len();
    let Some(held) = cache.peek_mut(&id) else {
        unreachable!()
    };
    let Ok(batch) = held.rest.take(alloc, count) else {
        return Err(NoMemory);
    };
    held.last = latest;
    cache.promote(&id);
    Ok(batch)
}
