//! A sink whose room stands in its type, so that no call changes it.
ghost use Rattle.std.specs.Prelude.{◌≡◌, [], Some, IfOk};
ghost use Rattle.theorem_reader.specs.Telling.{IsRoomy};

use std::alloc::Global;
use std::marker::Model;
use tk_io::{Failed, MemSink, NoMemory, Sink};

/// A sink in memory with room for `ROOM` bytes. It fails only where that is used up.
#[derive(Drop)]
pub struct RoomySink<const ROOM: usize> {
    sink: MemSink,
}

impl<const ROOM: usize> Model for RoomySink<ROOM> {
    ghost use Rattle.theorem_reader.specs.Telling.{IsRoomy};
    ghost use Rattle.tk_io.specs.Memory.{SinkState};

    ghost Value = { SinkState };

    ghost view = { λ s. s.sink };

    ghost invariant = { λ s. IsRoomy ROOM s.sink };
}

impl<const ROOM: usize> RoomySink<ROOM> {
    /// A sink that has taken nothing.
    pub fn new(alloc: Global) -> Result<RoomySink<ROOM>, NoMemory>
        ensures fresh { IfOk result (λ s. s ≡ record { taken = []; room = ROOM; faults = 0 }) }
    {
        Ok(RoomySink {
            sink: MemSink::new(alloc, ROOM)?,
        })
    }

    /// The bytes that were taken.
    pub fn taken(&self) -> &[u8]
        ensures taken { result.now ≡ self.now.taken }
    {
        self.sink.taken()
    }

    /// Its room is what its type says, and used up where it has failed, as its type keeps it; a read tells so to the proof.
    pub(crate) fn keeps_room(&self)
        ensures room { IsRoomy ROOM self.now }
    {
        let _ = self.sink.taken();
    }
}

impl<const ROOM: usize> Sink for RoomySink<ROOM> {
    ghost taken = { λ s. Some s.taken };

    ghost faults = { λ s. s.faults };

    fn write(&mut self, piece: &[u8]) -> Result<usize, Failed> {
        self.sink.write(piece)
    }
}
