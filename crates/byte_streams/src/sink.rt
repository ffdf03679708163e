//! Where bytes go.
ghost use Rattle.std.specs.Prelude.{List, ℕ, Option, None, ◌<◌, length, IfOk};
ghost use Rattle.std.specs.Io.{WritesAtMost};
ghost use Rattle.std.specs.Io.KnownBytes.{WriteAppends};
ghost use Rattle.byte_streams.specs.Faults.{HasCause};
ghost use Rattle.byte_streams.specs.Streams.{Puts};

use crate::Failed;

/// A stream of bytes to write.
pub trait Sink {
    /// The bytes that were taken so far, where the sink tells them.
    ghost taken: { Self → Option (List ℕ) } = { λ _. None };

    /// How often the sink has failed. The count never falls, and stands still at 2^64 - 1.
    ghost faults: { Self → ℕ };

    /// Takes some bytes from the front of `piece` and gives their number, at least one where `piece`
    /// has any. A failed write takes nothing.
    fn write(&mut self, piece: &[u8]) -> Result<usize, Failed>
        ensures bound { WritesAtMost result piece.now }
        ensures some { 0 < length piece.now → IfOk result (λ n. 0 < n) }
        ensures bytes { WriteAppends (taken self.old) (taken self.new) result piece.now }
        ensures cause { HasCause (faults self.old) (faults self.new) result };
}

/// Writes all the bytes. Where the sink fails, only a part of them from the front went out.
pub fn put<K: Sink>(k: &mut K, bytes: &[u8]) -> Result<(), Failed>
    ensures bytes { Puts (K.taken k.old) (K.taken k.new) result bytes.now }
    ensures cause { HasCause (K.faults k.old) (K.faults k.new) result }
{
    let mut rest = bytes;
    while !rest.is_empty() {
        let taken = k.write(rest)?;
        rest = &rest[taken..];
    }
    Ok(())
}
