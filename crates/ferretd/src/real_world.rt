ghost use Rattle.std.specs.Prelude.{◌≡◌, None, is_none, false};

use crate::real_link::RealLink;
use bson_values::List;
use outside::{KeepError, Kept, MemoryKeeper, World};
use std::alloc::Global;
use std::io::{Read, Write};
use std::time::Clock;

/// What the process was given: its streams and its clock. It tells no content. Its keeper is memory, which begins empty.
#[derive(Drop)]
pub struct RealWorld<R, W, C> {
    /// What the console is made of, until it is given.
    parts: Option<(R, W, C)>,
}

impl<R, W, C> RealWorld<R, W, C> {
    pub fn new(reader: R, writer: W, clock: C) -> RealWorld<R, W, C>
        ensures { is_none result.parts ≡ false }
    {
        RealWorld {
            parts: Some((reader, writer, clock)),
        }
    }
}

impl<R: Read, W: Write, C: Clock> World for RealWorld<R, W, C> {
    type Console = RealLink<R, W, C>;

    type Keeper = MemoryKeeper;

    ghost is_given = { λ world. is_none world.parts };

    ghost input = { λ world. None };

    ghost tables = { λ world. None };

    ghost keep_faults = { λ world. 0 };

    fn console(&mut self) -> RealLink<R, W, C> {
        let (reader, writer, clock) = self.parts.take().unwrap();
        RealLink::new(reader, writer, clock)
    }

    fn keep(&mut self, alloc: Global, _path: Option<&str>) -> Result<MemoryKeeper, KeepError> {
        let tables = Kept {
            tables: List::new(alloc),
        };
        Ok(MemoryKeeper::new(alloc, tables, List::new(alloc))?)
    }
}
