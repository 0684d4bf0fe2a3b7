ghost use Rattle.std.specs.Prelude.{◌≡◌, IfOk};
ghost use Rattle.outside.specs.MemoryLink.{IsFreshMemoryLink};
ghost use Rattle.outside.specs.SureLink.{IsFreshSureLink};

use bson_values::{Bytes, List, NoMemory};
use outside::{MemoryLink, SureLink};
use std::alloc::Global;

const INPUT: &[u8] = b"abcdefghij";

pub fn numbers(alloc: Global, numbers: &[u64]) -> Result<List<u64>, NoMemory> {
    Ok(List::from_vec(Vec::from_slice(alloc, numbers)?))
}

pub fn memory_link(alloc: Global) -> Result<MemoryLink, NoMemory>
    ensures { IfOk result IsFreshMemoryLink }
{
    let input = Bytes::of(alloc, INPUT)?;
    let cuts = numbers(alloc, &[1, 3, 9, 0, 65536])?;
    let bad_reads = numbers(alloc, &[2])?;
    let bad_writes = numbers(alloc, &[1])?;
    let moments = numbers(alloc, &[50, 80])?;
    Ok(MemoryLink::new(alloc, input, cuts, bad_reads, bad_writes, moments))
}

pub fn sure_link(alloc: Global) -> Result<SureLink, NoMemory>
    ensures { IfOk result IsFreshSureLink }
{
    let input = Bytes::of(alloc, INPUT)?;
    let cuts = numbers(alloc, &[1, 3, 9, 0, 65536])?;
    let moments = numbers(alloc, &[50, 80])?;
    Ok(SureLink::new(alloc, input, cuts, moments))
}
