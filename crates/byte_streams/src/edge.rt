//! std's readers and writers, with names for their single calls.
//!
//! std says of a read or a write what becomes of the bytes, where the other side tells them. Of a call
//! that fails, that is no more than that no byte moved, and so is it of a call that was never made. With
//! a name for one call, the contract of a stream that makes it can say that it did.
ghost use Rattle.std.specs.Prelude.{ℕ, List, Option, None, Result};
ghost use Rattle.std.specs.Io.{ReadsAtMost, WritesAtMost};
ghost use Rattle.std.specs.Io.KnownBytes.{ReadConsumes, WriteAppends};
ghost use Rattle.byte_streams.specs.declared.failure.Failed.{Failed};

use crate::Failed;
use std::io::{Read, Write};

/// A reader. Each of std's is one.
pub trait Reader {
    /// The bytes that are left, where the reader tells them.
    ghost left: { Self → Option (List ℕ) } = { λ _. None };

    /// One read, by the reader and the buffer before, the answer, and the reader and the buffer after.
    ghost reads: { Self → List ℕ → Result ℕ Failed → Self → List ℕ → Type 0 };

    /// Reads once, and gives the number of bytes at the front of `buf`. Any error is `Failed`.
    fn read_once(&mut self, buf: &mut [u8]) -> Result<usize, Failed>
        ensures once { reads self.old buf.old result self.new buf.new }
        ensures bound { ReadsAtMost result buf.new }
        ensures bytes { ReadConsumes (left self.old) (left self.new) result buf.new };
}

impl<R: Read> Reader for R {
    ghost left = { λ r. R.remaining r };

    ghost reads = { λ old _ answer new got. ReadConsumes (R.remaining old) (R.remaining new) answer got };

    fn read_once(&mut self, buf: &mut [u8]) -> Result<usize, Failed> {
        self.read(buf).map_err(|_| Failed)
    }
}

/// A writer. Each of std's is one.
pub trait Writer {
    /// The bytes that were taken, where the writer tells them.
    ghost taken: { Self → Option (List ℕ) } = { λ _. None };

    /// One write, by the writer before, the piece, the answer, and the writer after.
    ghost writes: { Self → List ℕ → Result ℕ Failed → Self → Type 0 };

    /// Writes once, and gives the number of bytes that were taken from the front of `piece`. Any error is
    /// `Failed`.
    fn write_once(&mut self, piece: &[u8]) -> Result<usize, Failed>
        ensures once { writes self.old piece.now result self.new }
        ensures bound { WritesAtMost result piece.now }
        ensures bytes { WriteAppends (taken self.old) (taken self.new) result piece.now };
}

impl<W: Write> Writer for W {
    ghost taken = { λ w. W.contents w };

    ghost writes = { λ old piece answer new. WriteAppends (W.contents old) (W.contents new) answer piece };

    fn write_once(&mut self, piece: &[u8]) -> Result<usize, Failed> {
        self.write(piece).map_err(|_| Failed)
    }
}
