//! Streams in memory: a source that never fails, and a sink with room for a number of bytes.
ghost use Rattle.std.specs.Prelude.{◌≡◌, ◌↔◌, ℕ, ◌<◌, ◌≤◌, List, [], Some, drop, take, length, min, IsOk, IsErr, IfOk, vec_capacity, if◌then◌else◌, is_ok};
ghost use Rattle.std.specs.Io.{ReadsAtMost, WritesAtMost};
ghost use Rattle.std.specs.Io.KnownBytes.{ReadConsumes, WriteAppends};
ghost use Rattle.byte_streams.specs.Faults.{HasCause, next_count};
ghost use Rattle.tk_io.specs.Memory.{SinkState, room_left};

use byte_streams::{Failed, NoMemory, Sink, Source};
use std::alloc::Global;
use std::marker::Model;

/// Bytes in memory to read. It never fails.
#[derive(Drop)]
pub struct MemSource {
    bytes: Vec<u8>,
    at: usize,
}

// Clauses see the bytes that are left.
impl Model for MemSource {
    ghost Value = { List ℕ };

    ghost view = { λ s. drop s.at s.bytes.items };

    ghost invariant = { λ s. s.at ≤ length s.bytes.items };
}

impl MemSource {
    /// A source of these bytes.
    pub fn new(bytes: Vec<u8>) -> MemSource
        ensures left { result ≡ bytes.items }
    {
        MemSource { bytes, at: 0 }
    }

    /// The bytes that are left.
    pub fn left(&self) -> &[u8]
        ensures left { result.now ≡ self.now }
    {
        &self.bytes[self.at..]
    }
}

impl Source for MemSource {
    ghost left = { λ s. Some s };

    ghost faults = { λ _. 0 };

    fn read(&mut self, buf: &mut [u8]) -> Result<usize, Failed>
        ensures bound { ReadsAtMost result buf.new }
        ensures bytes { ReadConsumes (Some self.old) (Some self.new) result buf.new }
        ensures gives { WriteAppends None None result buf.new }
        ensures cause { HasCause 0 0 result }

        ensures never { IsOk result }
        ensures count { IfOk result (λ n. n ≡ min (length buf.old) (length self.old)) }
    {
        let count = copy_front(self.left(), buf);
        self.at += count;
        Ok(count)
    }
}

/// Copies as many bytes from the front as there is room for, and gives their number.
fn copy_front(from: &[u8], into: &mut [u8]) -> usize
    ensures count { result ≡ min (length into.old) (length from.now) }
    ensures copied { take result into.new ≡ take result from.now }
{
    let count = into.len().min(from.len());
    into[..count].copy_from_slice(&from[..count]);
    count
}

/// A sink in memory, with room for a number of bytes that is taken when it is made.
#[derive(Drop)]
pub struct MemSink {
    bytes: Vec<u8>,
    room: usize,
    faults: u64,
}

impl Model for MemSink {
    ghost Value = { SinkState };

    ghost view = { λ s. record { taken = s.bytes.items; room = s.room; faults = s.faults } };

    ghost invariant = { λ s. (length s.bytes.items ≤ s.room) × (s.room ≤ vec_capacity s.bytes) };
}

impl MemSink {
    /// A sink that takes `room` bytes in all.
    pub fn new(alloc: Global, room: usize) -> Result<MemSink, NoMemory>
        ensures fresh { IfOk result (λ s. s ≡ record { taken = []; room = room; faults = 0 }) }
    {
        Ok(MemSink {
            bytes: Vec::with_capacity(alloc, room)?,
            room,
            faults: 0,
        })
    }

    /// The bytes that were taken.
    pub fn taken(&self) -> &[u8]
        ensures taken { result.now ≡ self.now.taken }
    {
        &self.bytes
    }
}

impl Sink for MemSink {
    ghost taken = { λ s. Some s.taken };

    ghost faults = { λ s. s.faults };

    fn write(&mut self, piece: &[u8]) -> Result<usize, Failed>
        ensures bound { WritesAtMost result piece.now }
        ensures some { 0 < length piece.now → IfOk result (λ n. 0 < n) }
        ensures bytes { WriteAppends (Some self.old.taken) (Some self.new.taken) result piece.now }
        ensures cause { HasCause self.old.faults self.new.faults result }

        // It fails just where its room is used up, and counts it.
        ensures full { IsErr result ↔ ((room_left self.old ≡ 0) × (0 < length piece.now)) }
        ensures count { IfOk result (λ n. n ≡ min (length piece.now) (room_left self.old)) }
        ensures room { self.new.room ≡ self.old.room }
        ensures faults { self.new.faults ≡ (if is_ok result then self.old.faults else next_count self.old.faults) }
    {
        let room_left = self.room - self.bytes.len();
        if room_left == 0 && !piece.is_empty() {
            self.faults = self.faults.saturating_add(1);
            return Err(Failed);
        }
        let count = piece.len().min(room_left);
        self.bytes.extend_from_slice(&piece[..count]).unwrap();
        Ok(count)
    }
}
