//! Where bytes come from.
ghost use Rattle.std.specs.Prelude.{List, ℕ, Option, None};
ghost use Rattle.std.specs.Io.{ReadsAtMost};
ghost use Rattle.std.specs.Io.KnownBytes.{ReadConsumes, WriteAppends};
ghost use Rattle.byte_streams.specs.Faults.{HasCause, HasReadCause};
ghost use Rattle.byte_streams.specs.Streams.{ReadsAll, input_of};

use crate::{Failed, ReadAll};
use std::alloc::Global;

/// A stream of bytes to read.
pub trait Source {
    /// The bytes that are left, where the source tells them.
    ghost left: { Self → Option (List ℕ) } = { λ _. None };

    /// The bytes that were given so far, where the source keeps them for clauses.
    ghost given: { Self → Option (List ℕ) } = { λ _. None };

    /// How often the source has failed. The count never falls, and stands still at 2^64 - 1.
    ghost faults: { Self → ℕ };

    /// Reads some bytes into the front of `buf` and gives their number: 0 only at the end, or where
    /// `buf` is empty. A failed read takes nothing.
    fn read(&mut self, buf: &mut [u8]) -> Result<usize, Failed>
        ensures bound { ReadsAtMost result buf.new }
        ensures bytes { ReadConsumes (left self.old) (left self.new) result buf.new }
        ensures gives { WriteAppends (given self.old) (given self.new) result buf.new }
        ensures cause { HasCause (faults self.old) (faults self.new) result };
}

/// How many bytes are asked for at a time, but for the one that shows that the limit is passed.
const PIECE: usize = 4096;

/// Reads to the end, and gives all the bytes. At most `limit + 1` bytes are taken: with one more than
/// `limit` the answer is `TooLong`. Each turn takes a byte or is the last.
pub fn read_all<S: Source>(alloc: Global, s: &mut S, limit: usize) -> Result<Vec<u8>, ReadAll>
    ensures bytes { ReadsAll limit (input_of S.left S.given S.faults s.old) (input_of S.left S.given S.faults s.new) result }
    ensures cause { HasReadCause (S.faults s.old) (S.faults s.new) result }
{
    let mut bytes = Vec::new(alloc);
    let mut piece = [0; PIECE];
    loop {
        let room = (limit - bytes.len()).min(PIECE - 1) + 1;
        let taken = match s.read(&mut piece[..room]) {
            Err(Failed) => return Err(ReadAll::Fault),
            Ok(taken) => taken,
        };
        if taken == 0 {
            return Ok(bytes);
        }
        if taken > limit - bytes.len() {
            return Err(ReadAll::TooLong);
        }
        if bytes.extend_from_slice(&piece[..taken]).is_err() {
            return Err(ReadAll::NoMemory);
        }
    }
}
