//! Streams in memory that fail at calls chosen beforehand.
ghost use Rattle.std.specs.Prelude.{◌≡◌, ◌↔◌, ◌⊎◌, ◌<◌, ◌-◌, [], None, Some, length, min, IsTrue, IsErr, IfOk, Contains, if◌then◌else◌, is_ok};
ghost use Rattle.std.specs.Io.{ReadsAtMost, WritesAtMost};
ghost use Rattle.std.specs.Io.KnownBytes.{ReadConsumes, WriteAppends};
ghost use Rattle.byte_streams.specs.Faults.{HasCause, next_count};
ghost use Rattle.tk_io.specs.Memory.{Schedule as Calls, FlakySourceState, FlakySinkState};

use crate::memory::{MemSink, MemSource};
use byte_streams::{Failed, NoMemory, Sink, Source};
use std::alloc::Global;
use std::marker::Model;

/// Which calls fail, by their numbers from 1, and how many calls were made and failed so far.
#[derive(Drop)]
struct Schedule {
    failing: Vec<u64>,
    calls: u64,
}

impl Model for Schedule {
    ghost Value = { Calls };

    ghost view = { λ s. record { failing = s.failing.items; calls = s.calls } };
}

impl Schedule {
    /// Counts a call, and says whether it is one that fails.
    fn next_call_fails(&mut self) -> bool
        ensures fails { IsTrue result ↔ Contains self.old.failing (next_count self.old.calls) }
        ensures counted { self.new ≡ record self.old { calls = next_count self.old.calls } }
    {
        self.calls = self.calls.saturating_add(1);
        self.failing.contains(&self.calls)
    }
}

/// Bytes in memory to read, by calls of which some fail.
#[derive(Drop)]
pub struct FlakySource {
    source: MemSource,
    schedule: Schedule,
    faults: u64,
}

impl Model for FlakySource {
    ghost Value = { FlakySourceState };

    ghost view = { λ s. record { left = s.source; schedule = s.schedule; faults = s.faults } };
}

impl FlakySource {
    /// A source whose calls with a number in `failing`, from 1, fail.
    pub fn new(bytes: Vec<u8>, failing: Vec<u64>) -> FlakySource
        ensures fresh { result ≡ record {
          left = bytes.items;
          schedule = record { failing = failing.items; calls = 0 };
          faults = 0;
        } }
    {
        FlakySource {
            source: MemSource::new(bytes),
            schedule: Schedule { failing, calls: 0 },
            faults: 0,
        }
    }

    /// The bytes that are left.
    pub fn left(&self) -> &[u8]
        ensures left { result.now ≡ self.now.left }
    {
        self.source.left()
    }
}

impl Source for FlakySource {
    ghost left = { λ s. Some s.left };

    ghost faults = { λ s. s.faults };

    fn read(&mut self, buf: &mut [u8]) -> Result<usize, Failed>
        ensures bound { ReadsAtMost result buf.new }
        ensures bytes { ReadConsumes (Some self.old.left) (Some self.new.left) result buf.new }
        ensures gives { WriteAppends None None result buf.new }
        ensures cause { HasCause self.old.faults self.new.faults result }

        // A call fails just where its number is listed.
        ensures listed { IsErr result ↔ Contains self.old.schedule.failing (next_count self.old.schedule.calls) }
        ensures count { IfOk result (λ n. n ≡ min (length buf.old) (length self.old.left)) }
        ensures calls { self.new.schedule ≡ record self.old.schedule { calls = next_count self.old.schedule.calls } }
        ensures faults { self.new.faults ≡ (if is_ok result then self.old.faults else next_count self.old.faults) }
    {
        if self.schedule.next_call_fails() {
            self.faults = self.faults.saturating_add(1);
            return Err(Failed);
        }
        self.source.read(buf)
    }
}

/// A sink in memory with room for a number of bytes, some of whose calls fail.
#[derive(Drop)]
pub struct FlakySink {
    sink: MemSink,
    schedule: Schedule,
    faults: u64,
}

impl Model for FlakySink {
    ghost Value = { FlakySinkState };

    ghost view = { λ s. record { taken = s.sink.taken; room = s.sink.room; schedule = s.schedule; faults = s.faults } };
}

impl FlakySink {
    /// A sink that takes `room` bytes in all, and whose calls with a number in `failing`, from 1, fail.
    pub fn new(alloc: Global, room: usize, failing: Vec<u64>) -> Result<FlakySink, NoMemory>
        ensures fresh { IfOk result (λ s. s ≡ record {
          taken = [];
          room = room;
          schedule = record { failing = failing.items; calls = 0 };
          faults = 0;
        }) }
    {
        Ok(FlakySink {
            sink: MemSink::new(alloc, room)?,
            schedule: Schedule { failing, calls: 0 },
            faults: 0,
        })
    }

    /// The bytes that were taken.
    pub fn taken(&self) -> &[u8]
        ensures taken { result.now ≡ self.now.taken }
    {
        self.sink.taken()
    }
}

impl Sink for FlakySink {
    ghost taken = { λ s. Some s.taken };

    ghost faults = { λ s. s.faults };

    fn write(&mut self, piece: &[u8]) -> Result<usize, Failed>
        ensures bound { WritesAtMost result piece.now }
        ensures some { 0 < length piece.now → IfOk result (λ n. 0 < n) }
        ensures bytes { WriteAppends (Some self.old.taken) (Some self.new.taken) result piece.now }
        ensures cause { HasCause self.old.faults self.new.faults result }

        // A call fails just where its number is listed, or where the room is used up.
        ensures failed { IsErr result ↔ (Contains self.old.schedule.failing (next_count self.old.schedule.calls)
            ⊎ ((self.old.room - length self.old.taken ≡ 0) × (0 < length piece.now))) }
        ensures count { IfOk result (λ n. n ≡ min (length piece.now) (self.old.room - length self.old.taken)) }
        ensures room { self.new.room ≡ self.old.room }
        ensures calls { self.new.schedule ≡ record self.old.schedule { calls = next_count self.old.schedule.calls } }
        ensures faults { self.new.faults ≡ (if is_ok result then self.old.faults else next_count self.old.faults) }
    {
        let listed = self.schedule.next_call_fails();
        let written = if listed {
            Err(Failed)
        } else {
            self.sink.write(piece)
        };
        if written.is_err() {
            self.faults = self.faults.saturating_add(1);
        }
        written
    }
}
