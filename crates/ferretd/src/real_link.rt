ghost use Rattle.std.specs.Prelude.{◌≡◌, ◌-◌, ◌^◌, ◌/◌, ◌≤◌, ◌<◌, None, min, length, IfOk};
ghost use Rattle.std.specs.Duration.{as_nanos};
ghost use Rattle.std.specs.Io.KnownBytes.{ReadConsumes, WriteAppends};
ghost use Rattle.outside.specs.Causes.{HasCause};

use outside::{Failed, Gate, Link};
use std::io::{Read, Write};
use std::time::{Clock, Duration};

/// A reader, a writer and a clock as a link. It tells no content.
///
/// The writer keeps nothing back: what it took is out. That holds of standard output, which has no
/// buffer here, and then an answer is out before the next read.
#[derive(Drop)]
pub struct RealLink<R, W, C> {
    reader: R,
    writer: W,
    clock: C,
    read_faults: u64,
    write_faults: u64,
}

impl<R, W, C> RealLink<R, W, C> {
    pub fn new(reader: R, writer: W, clock: C) -> RealLink<R, W, C>
        ensures read_faults { result.read_faults ≡ 0 }
        ensures write_faults { result.write_faults ≡ 0 }
    {
        RealLink {
            reader,
            writer,
            clock,
            read_faults: 0,
            write_faults: 0,
        }
    }
}

impl<R: Read, W: Write, C: Clock> Gate for RealLink<R, W, C> {
    ghost taken = { λ link. None };

    ghost left = { λ link. None };

    ghost written = { λ link. None };

    ghost moments = { λ link. None };

    ghost read_faults = { λ link. link.read_faults };

    ghost write_faults = { λ link. link.write_faults };

    fn between(&mut self) {}
}

impl<R: Read, W: Write, C: Clock> Link for RealLink<R, W, C> {
    fn read(&mut self, into: &mut [u8]) -> Result<usize, Failed>
        ensures bound { IfOk result (λ count. count ≤ length into.new) }
        // Where the reader tells its bytes, these are the ones.
        ensures reads { ReadConsumes (R.remaining self.old.reader) (R.remaining self.new.reader)
            result into.new }
        ensures cause { HasCause self.old.read_faults self.new.read_faults result }
        ensures write_faults { self.new.write_faults ≡ self.old.write_faults }
    {
        match self.reader.read(into) {
            Ok(count) => Ok(count),
            Err(_) => {
                self.read_faults = self.read_faults.saturating_add(1);
                Err(Failed)
            }
        }
    }

    fn write(&mut self, from: &[u8]) -> Result<usize, Failed>
        ensures bound { IfOk result (λ count. count ≤ length from.now) }
        ensures some { IfOk result (λ count. 0 < length from.now → 0 < count) }
        // The same of a writer that tells what it holds.
        ensures writes { WriteAppends (W.contents self.old.writer) (W.contents self.new.writer)
            result from.now }
        ensures cause { HasCause self.old.write_faults self.new.write_faults result }
        ensures read_faults { self.new.read_faults ≡ self.old.read_faults }
    {
        match self.writer.write(from) {
            Ok(count) if count > 0 || from.is_empty() => Ok(count),
            _ => {
                self.write_faults = self.write_faults.saturating_add(1);
                Err(Failed)
            }
        }
    }

    /// Gives 0 where the clock is before 1970 or cannot be read.
    fn now(&mut self) -> u64 {
        self.clock.since_1970().map_or(0, millis)
    }

    /// Does nothing: standard streams close with the process, and std has no call that closes them.
    fn shut(&mut self) {}
}

fn millis(duration: Duration) -> u64
    ensures { result ≡ min (as_nanos duration / 1_000_000) (2 ^ 64 - 1) }
{
    u64::try_from(duration.as_millis()).unwrap_or(u64::MAX)
}
