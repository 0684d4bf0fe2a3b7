ghost use Rattle.std.specs.Prelude.{◌≡◌, ◌≤◌, ◌<◌, [], length, slice_get, true, OnOk, IfErr, IfOk};
ghost use Rattle.std.specs.Option.{option_copied};
ghost use Rattle.jsonb_contain.specs.Rising.{has_name, is_rising, place_of, put, put_all, value_at, value_if};
ghost use Rattle.bson_values.specs.Names.{names};

use bson_values::{List, NoMemory, Pair, Text};
use std::alloc::Global;
use std::marker::Model;

/// Named values, whose names strictly rise by their bytes.
#[derive(Drop)]
pub struct Fields<V> {
    pairs: List<Pair<V>>,
}

impl<V> Model for Fields<V> {
    ghost use Rattle.std.specs.Prelude.{◌≡◌, List as Seq, true};
    ghost use Rattle.bson_values.specs.declared.pairs.Pair.{Pair as Named};
    ghost use Rattle.bson_values.specs.Names.{names};
    ghost use Rattle.jsonb_contain.specs.Rising.{is_rising};

    ghost Value = { Seq (Named V) };

    ghost view = { λ it. it.pairs };

    ghost invariant = { λ it. is_rising (names it.pairs) ≡ true };
}

impl<V> Fields<V> {
    pub fn new(alloc: Global) -> Fields<V>
        ensures { result ≡ [] }
    {
        Fields {
            pairs: List::new(alloc),
        }
    }

    /// The pairs, whose names rise already, without taking memory.
    pub fn from_list(pairs: List<Pair<V>>) -> Fields<V>
        requires { is_rising (names pairs) ≡ true }
        ensures { result ≡ pairs }
    {
        Fields { pairs }
    }

    pub fn as_slice(&self) -> &[Pair<V>]
        ensures same { result.now ≡ self.now }
        ensures rising { is_rising (names self.now) ≡ true }
    {
        self.pairs.as_slice()
    }

    pub fn len(&self) -> usize
        ensures { result ≡ length self.now }
    {
        self.pairs.len()
    }

    /// How many pairs stand before the place of a name.
    fn place(&self, name: &str) -> usize
        ensures same { result ≡ place_of name.now self.now }
        ensures within { result ≤ length self.now }
    {
        let pairs = self.as_slice();
        pairs.partition_point(|pair| pair.name.as_str() < name)
    }

    /// Whether the pair at a place has this name.
    fn stands(&self, place: usize, name: &str) -> bool
        ensures { result ≡ has_name name.now (slice_get self.now place) }
    {
        match self.as_slice().get(place) {
            Some(pair) => pair.name.as_str() == name,
            None => false,
        }
    }

    /// Puts a pair at its place, or a value in the place of that of the same name. Want of memory hands the pair back.
    #[tactic(auto, using(crate::proofs::Places::replaced, crate::proofs::Places::inserted, crate::proofs::Places::put_rises))]
    pub fn insert(&mut self, name: Text, value: V) -> Result<(), (Text, V)>
    where
        V: Drop,
        ensures ok { OnOk result (self.new ≡ put name value self.old) }
        ensures err { IfErr result (λ back. (back.0 ≡ name) × (back.1 ≡ value) × (self.new ≡ self.old)) }
    {
        let place = self.place(name.as_str());
        if self.stands(place, name.as_str()) {
            self.pairs.replace(place, Pair { name, value });
            return Ok(());
        }
        match self.pairs.insert(place, Pair { name, value }) {
            Ok(()) => Ok(()),
            Err(Pair { name, value }) => Err((name, value)),
        }
    }

    /// The value at a name.
    #[tactic(auto, using(crate::proofs::Places::found))]
    pub fn get(&self, name: &str) -> Option<&V>
        ensures { option_copied result ≡ value_at name.now self.now }
    {
        let place = self.place(name);
        value_if(self.pairs.get(place), name)
    }
}

impl<V: Drop> Fields<V> {
    /// The pairs put in one after another: the last of a name counts. It takes time as `n log n`, whatever their order.
    #[tactic(auto, using(crate::proofs::Places::risen_put))]
    pub fn of(alloc: Global, pairs: List<Pair<V>>) -> Result<Fields<V>, NoMemory>
        ensures { IfOk result (λ it. it ≡ put_all [] pairs) }
    {
        let mut pairs = pairs.into_vec();
        sort(&mut pairs)?;
        if rise(pairs.as_slice()) {
            return Ok(Fields::from_list(List::from_vec(pairs)));
        }
        Fields::of_each(alloc, pairs)
    }

    fn of_each(alloc: Global, pairs: Vec<Pair<V>>) -> Result<Fields<V>, NoMemory>
        ensures { IfOk result (λ it. it ≡ put_all [] pairs.items) }
    {
        let mut fields = Fields::new(alloc);
        for pair in pairs {
            let Pair { name, value } = pair;
            if fields.insert(name, value).is_err() {
                return Err(NoMemory);
            }
        }
        Ok(fields)
    }
}

/// Puts pairs in the order of their names. Those of one name stay as they stand.
fn sort<V>(pairs: &mut Vec<Pair<V>>) -> Result<(), NoMemory>
    ensures { OnOk result (put_all [] pairs.new.items ≡ put_all [] pairs.old.items) }
{
    pairs.sort_by(|one, other| one.name.as_str().cmp(other.name.as_str()))?;
    Ok(())
}

/// Whether each name is below the next one.
fn rise<V>(pairs: &[Pair<V>]) -> bool
    ensures { result ≡ is_rising (names pairs.now) }
{
    let mut rest = pairs;
    while let [one, others @ ..] = rest {
        if let [other, ..] = others {
            if one.name.as_str() >= other.name.as_str() {
                return false;
            }
        }
        rest = others;
    }
    true
}

/// The value of a pair that has this name.
fn value_if<'a, V>(pair: Option<&'a Pair<V>>, name: &str) -> Option<&'a V>
    ensures { option_copied result ≡ value_if name.now (option_copied pair.entry) }
{
    match pair {
        Some(pair) => if pair.name.as_str() == name {
            Some(&pair.value)
        } else {
            None
        },
        None => None,
    }
}
