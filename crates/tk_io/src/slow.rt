//! Streams in memory that move only a few bytes at each call.
ghost use Rattle.std.specs.Prelude.{◌≡◌, ◌↔◌, ◌<◌, ◌-◌, [], None, Some, length, min, IsOk, IsErr, IfOk, if◌then◌else◌, is_ok};
ghost use Rattle.std.specs.Io.{ReadsAtMost, WritesAtMost};
ghost use Rattle.std.specs.Io.KnownBytes.{ReadConsumes, WriteAppends};
ghost use Rattle.byte_streams.specs.Faults.{HasCause, next_count};
ghost use Rattle.tk_io.specs.Memory.{SlowSourceState, SlowSinkState};

use crate::memory::{MemSink, MemSource};
use byte_streams::{Failed, NoMemory, Sink, Source};
use std::alloc::Global;
use std::marker::Model;

/// Bytes in memory to read, a few at a time. It never fails.
#[derive(Drop)]
pub struct SlowSource {
    source: MemSource,
    most: usize,
}

impl Model for SlowSource {
    ghost Value = { SlowSourceState };

    ghost view = { λ s. record { left = s.source; most = s.most } };

    ghost invariant = { λ s. 0 < s.most };
}

impl SlowSource {
    /// A source of these bytes, each of whose reads gives at most `most` of them.
    pub fn new(bytes: Vec<u8>, most: usize) -> SlowSource
        requires some { 0 < most }
        ensures fresh { result ≡ record { left = bytes.items; most = most } }
    {
        SlowSource {
            source: MemSource::new(bytes),
            most,
        }
    }

    /// The bytes that are left.
    pub fn left(&self) -> &[u8]
        ensures left { result.now ≡ self.now.left }
    {
        self.source.left()
    }
}

impl Source for SlowSource {
    ghost left = { λ s. Some s.left };

    ghost faults = { λ _. 0 };

    fn read(&mut self, buf: &mut [u8]) -> Result<usize, Failed>
        ensures bound { ReadsAtMost result buf.new }
        ensures bytes { ReadConsumes (Some self.old.left) (Some self.new.left) result buf.new }
        ensures gives { WriteAppends None None result buf.new }
        ensures cause { HasCause 0 0 result }

        ensures never { IsOk result }
        ensures count { IfOk result (λ n. n ≡ min (min (length buf.old) self.old.most) (length self.old.left)) }
        ensures most { self.new.most ≡ self.old.most }
    {
        let room = buf.len().min(self.most);
        self.source.read(&mut buf[..room])
    }
}

/// A sink in memory with room for a number of bytes, of which it takes a few at a time.
#[derive(Drop)]
pub struct SlowSink {
    sink: MemSink,
    most: usize,
}

impl Model for SlowSink {
    ghost Value = { SlowSinkState };

    ghost view = { λ s. record { taken = s.sink.taken; room = s.sink.room; most = s.most; faults = s.sink.faults } };

    ghost invariant = { λ s. 0 < s.most };
}

impl SlowSink {
    /// A sink that takes `room` bytes in all, and at most `most` of them at each write.
    pub fn new(alloc: Global, room: usize, most: usize) -> Result<SlowSink, NoMemory>
        requires some { 0 < most }
        ensures fresh { IfOk result (λ s. s ≡ record { taken = []; room = room; most = most; faults = 0 }) }
    {
        Ok(SlowSink {
            sink: MemSink::new(alloc, room)?,
            most,
        })
    }

    /// The bytes that were taken.
    pub fn taken(&self) -> &[u8]
        ensures taken { result.now ≡ self.now.taken }
    {
        self.sink.taken()
    }
}

impl Sink for SlowSink {
    ghost taken = { λ s. Some s.taken };

    ghost faults = { λ s. s.faults };

    fn write(&mut self, piece: &[u8]) -> Result<usize, Failed>
        ensures bound { WritesAtMost result piece.now }
        ensures some { 0 < length piece.now → IfOk result (λ n. 0 < n) }
        ensures bytes { WriteAppends (Some self.old.taken) (Some self.new.taken) result piece.now }
        ensures cause { HasCause self.old.faults self.new.faults result }

        // It fails just where its room is used up, and counts it.
        ensures full { IsErr result ↔ ((self.old.room - length self.old.taken ≡ 0) × (0 < length piece.now)) }
        ensures count { IfOk result (λ n. n ≡ min (min (length piece.now) self.old.most) (self.old.room - length self.old.taken)) }
        ensures room { self.new.room ≡ self.old.room }
        ensures most { self.new.most ≡ self.old.most }
        ensures faults { self.new.faults ≡ (if is_ok result then self.old.faults else next_count self.old.faults) }
    {
        let count = piece.len().min(self.most);
        self.sink.write(&piece[..count])
    }
}
