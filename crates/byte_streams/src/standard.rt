//! Readers and writers as streams. The process's own are the trusted edge: they tell no bytes, so what passes is kept here,
//! for clauses alone.
ghost use Rattle.std.specs.Prelude.{◌≡◌, ◌⊎◌, ◌<◌, ◌++◌, ℕ, List, [], Some, length, IsErr, IfOk, if◌then◌else◌, is_ok};
ghost use Rattle.std.specs.Io.{ReadsAtMost, WritesAtMost};
ghost use Rattle.std.specs.Io.KnownBytes.{ReadConsumes, WriteAppends};
ghost use Rattle.byte_streams.specs.Faults.{HasCause, next_count};

use crate::passed::Passed;
use crate::{Failed, Reader, Sink, Source, Writer};

/// A reader, such as standard input, as a source. It tells the bytes that the reader tells to be left: standard input tells
/// none. Those that its reads gave it keeps for clauses, and not in memory.
#[derive(Drop)]
pub struct StdSource<R: Reader> {
    reader: R,
    faults: u64,
    given: Passed,
}

impl<R: Reader> StdSource<R> {
    /// A source that has not failed yet.
    pub fn new(reader: R) -> StdSource<R>
        ensures reader { result.reader ≡ reader }
        ensures faults { result.faults ≡ 0 }
        ensures none { result.given.bytes ≡ [] }
    {
        let given = Passed::none(&reader);
        StdSource {
            reader,
            faults: 0,
            given,
        }
    }
}

impl<R: Reader> Source for StdSource<R> {
    ghost left = { λ s. R.left s.reader };

    ghost given = { λ s. Some s.given.bytes };

    ghost faults = { λ s. s.faults };

    fn read(&mut self, buf: &mut [u8]) -> Result<usize, Failed>
        ensures bound { ReadsAtMost result buf.new }
        ensures bytes { ReadConsumes (R.left self.old.reader) (R.left self.new.reader) result buf.new }
        ensures gives { WriteAppends (Some self.old.given.bytes) (Some self.new.given.bytes) result buf.new }
        ensures cause { HasCause self.old.faults self.new.faults result }

        // It is one read of the reader, whose error is counted, once.
        ensures once { R.reads self.old.reader buf.old result self.new.reader buf.new }
        ensures faults { self.new.faults ≡ (if is_ok result then self.old.faults else next_count self.old.faults) }
    {
        let answer = self.reader.read_once(buf);
        match answer {
            Ok(count) => self.given = self.given.and(&&buf[..count]),
            Err(Failed) => self.faults = self.faults.saturating_add(1),
        }
        answer
    }
}

/// A writer, such as standard output, as a sink. It tells the bytes that its writes took since it was made, whether or not the
/// writer tells any. A write of 0 bytes of a piece that isn't empty is a fault.
#[derive(Drop)]
pub struct StdSink<W: Writer> {
    writer: W,
    faults: u64,
    taken: Passed,
    // What the writer tells, where it told what it had at first, is that and then these bytes.
    ghost told: { (first : List ℕ) → taken.before ≡ Some first → W.taken writer ≡ Some (first ++ taken.bytes) },
}

impl<W: Writer> StdSink<W> {
    /// A sink that has not failed yet.
    pub fn new(writer: W) -> StdSink<W>
        ensures writer { result.writer ≡ writer }
        ensures faults { result.faults ≡ 0 }
        ensures none { result.taken.bytes ≡ [] }
        ensures before { result.taken.before ≡ W.taken writer }
    {
        let taken = Passed::none(&writer);
        StdSink {
            writer,
            faults: 0,
            taken,
        }
    }
}

impl<W: Writer> Sink for StdSink<W> {
    ghost taken = { λ s. Some s.taken.bytes };

    ghost faults = { λ s. s.faults };

    fn write(&mut self, piece: &[u8]) -> Result<usize, Failed>
        ensures bound { WritesAtMost result piece.now }
        ensures some { 0 < length piece.now → IfOk result (λ n. 0 < n) }
        ensures bytes { WriteAppends (Some self.old.taken.bytes) (Some self.new.taken.bytes) result piece.now }
        ensures cause { HasCause self.old.faults self.new.faults result }

        // It is one write of the writer, whose error is counted, once; and so is a write of no byte of some.
        ensures once { W.writes self.old.writer piece.now result self.new.writer
            ⊎ (IsErr result × (0 < length piece.now) × W.writes self.old.writer piece.now (Ok 0) self.new.writer) }
        ensures faults { self.new.faults ≡ (if is_ok result then self.old.faults else next_count self.old.faults) }
    {
        match self.writer.write_once(piece) {
            Ok(count) if count > 0 || piece.is_empty() => {
                self.taken = self.taken.and(&&piece[..count]);
                Ok(count)
            }
            _ => {
                self.faults = self.faults.saturating_add(1);
                Err(Failed)
            }
        }
    }
}
