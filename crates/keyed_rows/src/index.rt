ghost use Rattle.std.specs.Prelude.{◌≡◌, ℕ, List as Seq, if◌then◌else◌, OnOk, OnErr, None, Some};
ghost use Rattle.std.specs.Str.{bytes_eq};
ghost use Rattle.keyed_rows.specs.Index.{place_at};

use bson_values::{Bytes, NoMemory};
use std::alloc::Global;
use std::collections::BTreeMap;

/// The place of a key.
pub(crate) fn place_of(index: &BTreeMap<Vec<u8>, u64>, key: &Bytes) -> Option<u64>
    ensures { result ≡ place_at key.now index.now }
{
    index.get(key.as_slice()).copied()
}

/// Tells the place of a key.
pub(crate) fn add(
    alloc: Global,
    index: &mut BTreeMap<Vec<u8>, u64>,
    key: &Bytes,
    place: u64,
) -> Result<(), NoMemory>
    ensures ok { OnOk result ((other : Seq ℕ) → place_at other index.new
        ≡ (if bytes_eq key.now other then Some place else place_at other index.old)) }
    ensures err { OnErr result ((other : Seq ℕ) → place_at other index.new ≡ place_at other index.old) }
{
    let key = Vec::from_slice(alloc, key.as_slice())?;
    index.insert(key, place)?;
    Ok(())
}

/// Forgets the place of a key, and tells it once more.
pub(crate) fn forget(index: &mut BTreeMap<Vec<u8>, u64>, key: &Bytes) -> Option<u64>
    ensures place { result ≡ place_at key.now index.old }
    ensures others { (other : Seq ℕ) → place_at other index.new
        ≡ (if bytes_eq key.now other then None else place_at other index.old) }
{
    index.remove(key.as_slice())
}
