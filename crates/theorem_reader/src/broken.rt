//! A source that fails, and what is answered over it.
ghost use Rattle.std.specs.Prelude.{◌≡◌, ◌↔◌, ◌<◌, ◌≤◌, ℕ, [], ◌∷◌, ◌++◌, codes, length, None, Some, IsErr, IfOk, map, string_bytes};
ghost use Rattle.std.specs.Io.{ReadsAtMost};
ghost use Rattle.std.specs.Io.KnownBytes.{ReadConsumes, WriteAppends};
ghost use Rattle.byte_streams.specs.Faults.{HasCause};
ghost use Rattle.theorem_reader.specs.Calls.{AreCovered};
ghost use Rattle.theorem_reader.specs.Refusals.{IsSaid, IsUsage, HasUsage, ReadsText};
ghost use Rattle.theorem_reader.specs.Runs.{AsksGenerate, boot_of, generated_by, IsRun};
ghost use Rattle.theorem_reader.specs.Tasks.{AsksNoTasks};
ghost use Rattle.theorem_reader.specs.Telling.{BrokenState, FailsBehind, IsSo};

use crate::reader::Told;
use crate::room::RoomySink;
use std::alloc::Global;
use std::marker::Model;
use tk_io::{Failed, MemSource, NoMemory, Source};
use tkernel_cli::tkernel;

/// Bytes in memory to read. Behind them each read fails.
#[derive(Drop)]
pub struct BrokenSource {
    source: MemSource,
    faults: u64,
}

impl Model for BrokenSource {
    ghost use Rattle.theorem_reader.specs.Telling.{BrokenState};

    ghost Value = { BrokenState };

    ghost view = { λ s. record { left = s.source; faults = s.faults } };

    ghost use Rattle.theorem_reader.specs.Telling.{FailsBehind};

    ghost invariant = { λ s. FailsBehind (record { left = s.source; faults = s.faults }) };
}

impl BrokenSource {
    /// A source that gives these bytes.
    pub fn new(bytes: Vec<u8>) -> BrokenSource
        ensures fresh { result ≡ record { left = bytes.items; faults = 0 } }
    {
        BrokenSource {
            source: MemSource::new(bytes),
            faults: 0,
        }
    }

    /// It failed only behind its bytes, as its type keeps it; a look at what is left tells so to the proof.
    fn keeps_behind(&self)
        ensures behind { FailsBehind self.now }
    {
        let _ = self.source.left();
    }
}

impl Source for BrokenSource {
    // One byte is left that it never gives.
    ghost left = { λ s. Some (s.left ++ 0 ∷ []) };

    ghost faults = { λ s. s.faults };

    fn read(&mut self, buf: &mut [u8]) -> Result<usize, Failed>
        ensures bound { ReadsAtMost result buf.new }
        ensures bytes { ReadConsumes (Some (self.old.left ++ 0 ∷ [])) (Some (self.new.left ++ 0 ∷ [])) result buf.new }
        ensures gives { WriteAppends None None result buf.new }
        ensures cause { HasCause self.old.faults self.new.faults result }

        ensures behind { IsErr result ↔ (self.old.left ≡ []) }
    {
        if self.source.left().is_empty() {
            self.faults = self.faults.saturating_add(1);
            return Err(Failed);
        }
        self.source.read(buf)
    }
}

/// Answers these words over a source that gives this text and then fails, as often as it is read.
pub fn run_broken<const ROOM: usize>(
    alloc: Global,
    words: &[String],
    text: Vec<u8>,
) -> Result<Told<ROOM>, NoMemory>
    ensures fault { ReadsText (map string_bytes words.now) → length text.items ≤ 2097152
        → IfOk result (λ told. IsSo ROOM told.out (λ sink. IsSaid sink 5 (codes "read fault\n") told.status told.out.taken told.kept told.tasks)) }
    ensures long { ReadsText (map string_bytes words.now) → 2097152 < length text.items
        → IfOk result (λ told. IsSo ROOM told.out (λ sink. IsSaid sink 3 (codes "input too long\n") told.status told.out.taken told.kept told.tasks)) }
    ensures generate { IfOk result (λ told. (seed : ℕ) → AsksGenerate (map string_bytes words.now) seed
        → IsSo ROOM told.out (λ sink. IsRun (boot_of (generated_by seed)) sink (generated_by seed) told.status told.out.taken told.kept)) }
    ensures usage { IfOk result (λ told. (own : ℕ) → IsUsage (map string_bytes words.now) own
        → IsSo ROOM told.out (λ sink. HasUsage sink own told.status told.out.taken told.kept told.tasks)) }
    ensures no_tasks { IfOk result (λ told. AsksNoTasks (map string_bytes words.now) → told.tasks ≡ None) }
    ensures covered { IfOk result (λ told. AreCovered (map string_bytes words.now)) }
{
    let mut input = BrokenSource::new(text);
    let mut out = RoomySink::new(alloc)?;
    let exit = tkernel(alloc, words, &mut input, &mut out);
    out.keeps_room();
    input.keeps_behind();
    let status = exit.status.number();
    Ok(Told {
        status,
        out,
        kept: exit.kept,
        tasks: exit.tasks,
    })
}
