ghost use Rattle.std.specs.Prelude.{◌≡◌, [], length, Some, IsOkAnd};
ghost use Rattle.std.specs.Option.{option_copied};
ghost use Rattle.outside.specs.Told.{Grows};
ghost use Rattle.outside.specs.Source.{source_of, moments_of, Reads, Ticks};

use crate::link::{Failed, Gate, Link};
use crate::source::Source;
use bson_values::{Bytes, List};
use std::alloc::Global;
use std::marker::Model;

/// A link in memory, whose reads are cut as it was told and whose calls never fail.
///
/// A number of calls stands still at the end of a u64. The moments are told until theirs does.
#[derive(Drop)]
pub struct SureLink {
    source: Source,
    written: Option<Bytes>,
}

impl Model for SureLink {
    ghost use Rattle.outside.specs.SureLink.{SureLinkState};

    ghost Value = { SureLinkState };

    ghost view = { λ it. record { source = it.source; written = it.written } };
}

impl SureLink {
    /// The n-th number of `cuts` is the most that the n-th read gives, where 0 stands for 1; reads past
    /// the last number are not cut. `moments` are in milliseconds since 1970-01-01 00:00 UTC.
    pub fn new(alloc: Global, input: Bytes, cuts: List<u64>, moments: List<u64>) -> SureLink
        ensures { result ≡ record { source = source_of input cuts moments; written = Some [] } }
    {
        SureLink {
            source: Source::new(input, cuts, moments),
            written: Some(Bytes::new(alloc)),
        }
    }

    /// The bytes that its writes took, where memory was found to keep them all.
    pub fn written(&self) -> Option<&[u8]>
        ensures { option_copied result ≡ self.now.written }
    {
        match &self.written {
            Some(written) => Some(written.as_slice()),
            None => None,
        }
    }
}

impl Gate for SureLink {
    ghost taken = { λ link. Some link.source.taken };

    ghost left = { λ link. Some link.source.left };

    ghost written = { λ link. link.written };

    ghost moments = { λ link. moments_of link.source };

    ghost read_faults = { λ link. 0 };

    ghost write_faults = { λ link. 0 };

    fn between(&mut self)
        ensures { self.new ≡ self.old }
    {}
}

impl Link for SureLink {
    fn read(&mut self, into: &mut [u8]) -> Result<usize, Failed>
        ensures reads { IsOkAnd result (λ count.
            Reads self.old.source self.new.source into.old into.new count) }
        ensures rest { self.new ≡ record self.old { source = self.new.source } }
    {
        Ok(self.source.read(into))
    }

    /// Takes the piece also where it finds no memory to keep it. From then on the bytes are told no more.
    fn write(&mut self, from: &[u8]) -> Result<usize, Failed>
        ensures whole { result ≡ Ok (length from.now) }
        ensures written { Grows self.old.written self.new.written from.now }
        ensures rest { self.new ≡ record self.old { written = self.new.written } }
    {
        let kept = match &mut self.written {
            Some(written) => written.extend(from).is_ok(),
            None => false,
        };
        if !kept {
            self.written = None;
        }
        Ok(from.len())
    }

    fn now(&mut self) -> u64
        ensures ticks { Ticks self.old.source self.new.source result }
        ensures rest { self.new ≡ record self.old { source = self.new.source } }
    {
        self.source.now()
    }

    fn shut(&mut self)
        ensures { self.new ≡ self.old }
    {}
}
