ghost use Rattle.std.specs.Prelude.{◌≡◌, ◌↔◌, ◌++◌, [], length, Contains, Some, IsErr, IfOk, OnOk, OnErr};
ghost use Rattle.std.specs.Option.{option_copied};
ghost use Rattle.outside.specs.Counts.{raised};
ghost use Rattle.outside.specs.Source.{source_of, moments_of, Reads, Ticks};

use crate::link::{Failed, Gate, Link};
use crate::source::Source;
use bson_values::{Bytes, List};
use std::alloc::Global;
use std::marker::Model;

/// A link in memory, whose reads are cut and whose calls fail as it was told.
///
/// A number of calls stands still at the end of a u64. The moments are told until theirs does.
#[derive(Drop)]
pub struct MemoryLink {
    source: Source,
    written: Bytes,
    bad_reads: List<u64>,
    bad_writes: List<u64>,
    writes: u64,
    read_faults: u64,
    write_faults: u64,
}

impl Model for MemoryLink {
    ghost use Rattle.outside.specs.MemoryLink.{MemoryLinkState};

    ghost Value = { MemoryLinkState };

    ghost view = { λ it. record {
      source = it.source;
      written = it.written;
      bad_reads = it.bad_reads;
      bad_writes = it.bad_writes;
      writes = it.writes;
      read_faults = it.read_faults;
      write_faults = it.write_faults;
    } };
}

impl MemoryLink {
    /// The n-th number of `cuts` is the most that the n-th read gives, where 0 stands for 1; reads past
    /// the last number are not cut. `bad_reads` and `bad_writes` are the numbers, from 0, of the calls
    /// that fail. `moments` are in milliseconds since 1970-01-01 00:00 UTC.
    pub fn new(
        alloc: Global,
        input: Bytes,
        cuts: List<u64>,
        bad_reads: List<u64>,
        bad_writes: List<u64>,
        moments: List<u64>,
    ) -> MemoryLink
        ensures { result ≡ record {
          source = source_of input cuts moments;
          written = [];
          bad_reads = bad_reads;
          bad_writes = bad_writes;
          writes = 0;
          read_faults = 0;
          write_faults = 0;
        } }
    {
        MemoryLink {
            source: Source::new(input, cuts, moments),
            written: Bytes::new(alloc),
            bad_reads,
            bad_writes,
            writes: 0,
            read_faults: 0,
            write_faults: 0,
        }
    }

    /// The bytes that its writes took, which are always told.
    pub fn written(&self) -> Option<&[u8]>
        ensures { option_copied result ≡ Some self.now.written }
    {
        Some(self.written.as_slice())
    }
}

impl Gate for MemoryLink {
    ghost taken = { λ link. Some link.source.taken };

    ghost left = { λ link. Some link.source.left };

    ghost written = { λ link. Some link.written };

    ghost moments = { λ link. moments_of link.source };

    ghost read_faults = { λ link. link.read_faults };

    ghost write_faults = { λ link. link.write_faults };

    fn between(&mut self)
        ensures { self.new ≡ self.old }
    {}
}

impl Link for MemoryLink {
    fn read(&mut self, into: &mut [u8]) -> Result<usize, Failed>
        ensures fails { IsErr result ↔ Contains self.old.bad_reads self.old.source.reads }
        ensures reads { IfOk result (λ count.
            Reads self.old.source self.new.source into.old into.new count) }
        ensures ok { OnOk result (self.new ≡ record self.old { source = self.new.source }) }
        ensures err { OnErr result (self.new ≡ record self.old {
          source = record self.old.source { reads = raised self.old.source.reads };
          read_faults = raised self.old.read_faults;
        }) }
        ensures untouched { OnErr result (into.new ≡ into.old) }
    {
        if self.bad_reads.as_slice().contains(&self.source.reads()) {
            self.source.skip_read();
            self.read_faults = self.read_faults.saturating_add(1);
            return Err(Failed);
        }
        Ok(self.source.read(into))
    }

    fn write(&mut self, from: &[u8]) -> Result<usize, Failed>
        // It fails as well where no memory is found to keep the piece.
        ensures fails { Contains self.old.bad_writes self.old.writes → IsErr result }
        ensures whole { IfOk result (λ count. count ≡ length from.now) }
        ensures ok { OnOk result (self.new ≡ record self.old {
          written = self.old.written ++ from.now;
          writes = raised self.old.writes;
        }) }
        ensures err { OnErr result (self.new ≡ record self.old {
          writes = raised self.old.writes;
          write_faults = raised self.old.write_faults;
        }) }
    {
        let fails = self.bad_writes.as_slice().contains(&self.writes);
        self.writes = self.writes.saturating_add(1);
        if fails || self.written.extend(from).is_err() {
            self.write_faults = self.write_faults.saturating_add(1);
            return Err(Failed);
        }
        Ok(from.len())
    }

    fn now(&mut self) -> u64
        ensures ticks { Ticks self.old.source self.new.source result }
        ensures rest { self.new ≡ record self.old { source = self.new.source } }
    {
        self.source.now()
    }

    fn shut(&mut self)
        ensures { self.new ≡ self.old }
    {}
}
