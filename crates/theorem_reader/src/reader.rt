//! Runs over streams in memory.
ghost use Rattle.std.specs.Prelude.{◌≡◌, ◌⊎◌, ◌*◌, ℕ, List, None, IfOk, map, string_bytes};
ghost use Rattle.theorem_reader.specs.Calls.{IsAsked, IsWanting};
ghost use Rattle.theorem_reader.specs.Checks.{AsksCheck, IsChecked};
ghost use Rattle.theorem_reader.specs.Dumps.{AsksDump, IsDumped};
ghost use Rattle.theorem_reader.specs.Refusals.{IsRefused, IsSaid, AsksAsm, IsAssembled, IsUsage, HasUsage};
ghost use Rattle.theorem_reader.specs.Restarts.{AsksRestart, IsRestarted};
ghost use Rattle.theorem_reader.specs.Runs.{Asked, Asks, AsksGenerate, boot_of, generated_by, IsRun, plainly};
ghost use Rattle.theorem_reader.specs.Tasks.{AreRun, AskedTasks, AsksNoTasks, AsksTasks};
ghost use Rattle.theorem_reader.specs.Telling.{IsSo};

use crate::room::RoomySink;
use hex_image::{Image, write};
use preempt_count::BOUND_PER_Q;
use std::alloc::Global;
use tk_io::{MemSource, NoMemory};
use tk_run::Machine;
use tk_tasks::Tasks;
use tkernel_cli::tkernel;

/// What a call answered.
#[derive(Drop)]
pub struct Told<const ROOM: usize> {
    /// The number that the process would end with.
    pub status: u8,
    /// What was taken.
    pub out: RoomySink<ROOM>,
    /// The machine of the run, of the second one for `restart`, where one is kept.
    pub kept: Option<Machine>,
    /// The tasks of the run, for `tasks`.
    pub tasks: Option<Tasks>,
}

/// Answers these words over this text, into a sink with room for so many bytes.
pub fn run_text<const ROOM: usize>(
    alloc: Global,
    words: &[String],
    text: Vec<u8>,
) -> Result<Told<ROOM>, NoMemory>
    ensures run { IfOk result (λ told. (asked : Asked) → Asks (map string_bytes words.now) text.items asked
        → IsSo ROOM told.out (λ sink. IsRun (boot_of asked) sink asked told.status told.out.taken told.kept)) }
    ensures dump { IfOk result (λ told. (asked : Asked) → AsksDump (map string_bytes words.now) text.items asked
        → IsSo ROOM told.out (λ sink. IsDumped sink asked told.status told.out.taken told.kept)) }
    ensures restart { IfOk result (λ told. (asked : Asked) → AsksRestart (map string_bytes words.now) text.items asked
        → IsSo ROOM told.out (λ sink. IsRestarted sink asked told.status told.out.taken told.kept)) }
    ensures tasks { IfOk result (λ told. (asked : AskedTasks) → AsksTasks (map string_bytes words.now) text.items asked
        → IsSo ROOM told.out (λ sink. AreRun sink asked told.status told.out.taken told.kept told.tasks)) }
    ensures check { IfOk result (λ told. (image flash : List ℕ) → AsksCheck (map string_bytes words.now) text.items image flash
        → IsSo ROOM told.out (λ sink. IsChecked sink image flash told.status told.out.taken told.kept)) }
    ensures asm { IfOk result (λ told. (image : List ℕ) → AsksAsm (map string_bytes words.now) text.items image
        → IsSo ROOM told.out (λ sink. IsAssembled sink image told.status told.out.taken told.kept told.tasks)) }
    ensures generate { IfOk result (λ told. (seed : ℕ) → AsksGenerate (map string_bytes words.now) seed
        → IsSo ROOM told.out (λ sink. IsRun (boot_of (generated_by seed)) sink (generated_by seed) told.status told.out.taken told.kept)) }
    ensures refused { IfOk result (λ told. (line : List ℕ) → IsRefused (map string_bytes words.now) text.items line
        → IsSo ROOM told.out (λ sink. IsSaid sink 3 line told.status told.out.taken told.kept told.tasks)) }
    ensures usage { IfOk result (λ told. (own : ℕ) → IsUsage (map string_bytes words.now) own
        → IsSo ROOM told.out (λ sink. HasUsage sink own told.status told.out.taken told.kept told.tasks)) }
    ensures no_tasks { IfOk result (λ told. AsksNoTasks (map string_bytes words.now) → told.tasks ≡ None) }
    ensures covered { IfOk result (λ told. IsAsked (map string_bytes words.now) text.items
        ⊎ IsSo ROOM told.out (λ sink. IsWanting (map string_bytes words.now) sink told.status told.out.taken told.kept told.tasks)) }
{
    let mut input = MemSource::new(text);
    let mut out = RoomySink::new(alloc)?;
    let exit = tkernel(alloc, words, &mut input, &mut out);
    out.keeps_room();
    let status = exit.status.number();
    Ok(Told {
        status,
        out,
        kept: exit.kept,
        tasks: exit.tasks,
    })
}

/// Runs any image, without inputs, by the word `run`.
pub fn run_image<const ROOM: usize>(alloc: Global, image: &Image) -> Result<Told<ROOM>, NoMemory>
    ensures run { IfOk result (λ told. IsSo ROOM told.out (λ sink. IsRun (boot_of (plainly image.now)) sink (plainly image.now) told.status told.out.taken told.kept)) }
{
    let text = write(alloc, image)?;
    let word = word_of(alloc, "run")?;
    run_text(alloc, &[word], text)
}

/// A word of a command line.
pub(crate) fn word_of(alloc: Global, text: &str) -> Result<String, NoMemory>
    ensures same { IfOk result (λ word. string_bytes word ≡ text.now) }
{
    Ok(String::from_str(alloc, text)?)
}

/// Bytes of an input.
pub(crate) fn bytes_of(alloc: Global, bytes: &[u8]) -> Result<Vec<u8>, NoMemory>
    ensures same { IfOk result (λ text. text.items ≡ bytes.now) }
{
    Ok(bytes.to_vec(alloc)?)
}

/// In a run of this quantum at most so many instructions of rewritten code stand in a row without a service (`few` of
/// `HasActs`).
pub fn longest_wait(quantum: u8) -> u64
    ensures value { result ≡ 5120 * quantum }
{
    BOUND_PER_Q * u64::from(quantum)
}
