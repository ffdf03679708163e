//! A sink that drops what it takes.
ghost use Rattle.std.specs.Prelude.{◌≡◌, None, Ok, ◌<◌, length, IfOk};
ghost use Rattle.std.specs.Io.{WritesAtMost};
ghost use Rattle.std.specs.Io.KnownBytes.{WriteAppends};
ghost use Rattle.byte_streams.specs.Faults.{HasCause};

use crate::{Failed, Sink};

/// A sink that takes every piece whole and drops it. It tells nothing, and never fails.
#[derive(Clone, Copy)]
pub struct NullSink;

impl Sink for NullSink {
    ghost faults = { λ _. 0 };

    fn write(&mut self, piece: &[u8]) -> Result<usize, Failed>
        ensures bound { WritesAtMost result piece.now }
        ensures some { 0 < length piece.now → IfOk result (λ n. 0 < n) }
        ensures bytes { WriteAppends None None result piece.now }
        ensures cause { HasCause 0 0 result }

        ensures whole { result ≡ Ok (length piece.now) }
    {
        Ok(piece.len())
    }
}
