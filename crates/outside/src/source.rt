ghost use Rattle.std.specs.Prelude.{◌≡◌};
ghost use Rattle.outside.specs.Counts.{raised};
ghost use Rattle.outside.specs.Source.{source_of, read_len, Reads, Ticks};

use bson_values::{Bytes, List};
use std::marker::Model;

/// What a link in memory gives: its input, cut into reads, and the moments of its clock.
#[derive(Drop)]
pub struct Source {
    input: Bytes,
    place: usize,
    cuts: List<u64>,
    reads: u64,
    moments: List<u64>,
    ticks: u64,
}

impl Model for Source {
    ghost use Rattle.std.specs.Prelude.{◌≤◌, length, take, drop};
    ghost use Rattle.outside.specs.Source.{SourceState};

    ghost Value = { SourceState };

    ghost view = { λ it. record {
      taken = take it.place it.input;
      left = drop it.place it.input;
      cuts = it.cuts;
      reads = it.reads;
      moments = it.moments;
      ticks = it.ticks;
    } };

    ghost invariant = { λ it. it.place ≤ length it.input };
}

impl Source {
    pub fn new(input: Bytes, cuts: List<u64>, moments: List<u64>) -> Source
        ensures { result ≡ source_of input cuts moments }
    {
        Source {
            input,
            place: 0,
            cuts,
            reads: 0,
            moments,
            ticks: 0,
        }
    }

    /// The number of the next read, from 0.
    pub fn reads(&self) -> u64
        ensures { result ≡ self.now.reads }
    {
        self.reads
    }

    /// How many bytes the next read gives.
    fn read_len(&self, room: usize) -> usize
        ensures { result ≡ read_len self.now room }
    {
        let count = room.min(self.input.len() - self.place);
        match self.cuts.get(self.reads as usize) {
            Some(cut) => count.min((*cut).max(1) as usize),
            None => count,
        }
    }

    pub fn read(&mut self, into: &mut [u8]) -> usize
        ensures { Reads self.old self.new into.old into.new result }
    {
        let count = self.read_len(into.len());
        let left = &self.input.as_slice()[self.place..];
        into[..count].copy_from_slice(&left[..count]);
        self.place += count;
        self.reads = self.reads.saturating_add(1);
        count
    }

    /// Counts a read that gives nothing.
    pub fn skip_read(&mut self)
        ensures { self.new ≡ record self.old { reads = raised self.old.reads } }
    {
        self.reads = self.reads.saturating_add(1);
    }

    /// The next moment, in milliseconds since 1970-01-01 00:00 UTC.
    pub fn now(&mut self) -> u64
        ensures { Ticks self.old self.new result }
    {
        let last = self.moments.len().saturating_sub(1);
        let moment = match self.moments.get(last.min(self.ticks as usize)) {
            Some(moment) => *moment,
            None => 0,
        };
        self.ticks = self.ticks.saturating_add(1);
        moment
    }
}
