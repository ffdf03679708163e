//! Calls of each command, and of some texts that are refused, so that what the clauses of `run_text` ask of words and texts is
//! met by some.
ghost use Rattle.std.specs.Prelude.{◌≡◌, ◌<◌, ℕ, List, [], ◌∷◌, codes, length, IfOk};
ghost use Rattle.theorem_reader.specs.Checks.{AsksCheck, IsChecked};
ghost use Rattle.theorem_reader.specs.Dumps.{IsDumped};
ghost use Rattle.theorem_reader.specs.Examples.{example_of_tasks, words_of_tasks, erased};
ghost use Rattle.theorem_reader.specs.Refusals.{AsksAsm, IsAssembled, IsRefused, IsSaid, IsUsage, HasUsage, bad_line};
ghost use Rattle.theorem_reader.specs.Restarts.{IsRestarted};
ghost use Rattle.theorem_reader.specs.Runs.{IsRun, boot_of, example, generated_by};
ghost use Rattle.theorem_reader.specs.Tasks.{AskedTasks, AsksTasks, AreRun};
ghost use Rattle.theorem_reader.specs.Telling.{IsSo};

use crate::broken::run_broken;
use crate::reader::{Told, bytes_of, run_text, word_of};
use std::alloc::Global;
use tk_io::NoMemory;

/// A HEX text of three words, and behind it a script of three lines.
const TEXT: &[u8; 74] =
    b":060000000FE00BBBFFCF77\n:00000001FF\nat 22 uart 0x41\nfail flash 0012\n# end\n";

/// The HEX text alone.
const HEX: &[u8; 36] = b":060000000FE00BBBFFCF77\n:00000001FF\n";

/// The source of this program.
const SOURCE: &[u8; 46] = b"ldi r16, 0x0F\nout 0x1B, r16\nagain: rjmp again\n";

/// The HEX text, and behind it a line that no script of several programs may have.
const BAD_TASK_SCRIPT: &[u8; 49] = b":060000000FE00BBBFFCF77\n:00000001FF\nfail flash 1\n";

/// The HEX text, and behind it a line that no script has.
const BAD_SCRIPT: &[u8; 40] = b":060000000FE00BBBFFCF77\n:00000001FF\nend\n";

/// A HEX text of an image with a word at 0x0FFE, which no program may have.
const BAD_TASK_IMAGE: &[u8; 28] = b":021FFC000000E3\n:00000001FF\n";

/// The HEX text, and behind it a line that no dump has.
const BAD_DUMP: &[u8; 41] = b":060000000FE00BBBFFCF77\n:00000001FF\npage\n";

/// Runs this text for at most 100 steps, with a checkpoint at every seventh crossing and without swap, into a sink with
/// room for so many bytes.
pub fn run_example<const ROOM: usize>(alloc: Global) -> Result<Told<ROOM>, NoMemory>
    ensures run { IfOk result (λ told. IsSo ROOM told.out (λ sink. IsRun (boot_of example) sink example told.status told.out.taken told.kept)) }
{
    answer(alloc, "run")
}

/// The flash that this run leaves.
pub fn dump_example<const ROOM: usize>(alloc: Global) -> Result<Told<ROOM>, NoMemory>
    ensures dump { IfOk result (λ told. IsSo ROOM told.out (λ sink. IsDumped sink example told.status told.out.taken told.kept)) }
{
    answer(alloc, "dump")
}

/// This run, a restart, and the run behind it.
pub fn restart_example<const ROOM: usize>(alloc: Global) -> Result<Told<ROOM>, NoMemory>
    ensures restart { IfOk result (λ told. IsSo ROOM told.out (λ sink. IsRestarted sink example told.status told.out.taken told.kept)) }
{
    answer(alloc, "restart")
}

/// Runs this program by `tasks`, as the only one of them.
pub fn tasks_example<const ROOM: usize>(alloc: Global) -> Result<Told<ROOM>, NoMemory>
    ensures tasks { IfOk result (λ told. IsSo ROOM told.out (λ sink. AreRun sink example_of_tasks told.status told.out.taken told.kept told.tasks)) }
{
    answer_tasks(alloc, HEX)
}

/// Whether an erased flash is faithful to this program; it isn't.
pub fn check_example<const ROOM: usize>(alloc: Global) -> Result<Told<ROOM>, NoMemory>
    ensures check { IfOk result (λ told. IsSo ROOM told.out (λ sink. IsChecked sink example.image erased told.status told.out.taken told.kept)) }
{
    answer_alone(alloc, "check", HEX)
}

/// The HEX text of this program, of its source.
pub fn asm_example<const ROOM: usize>(alloc: Global) -> Result<Told<ROOM>, NoMemory>
    ensures asm { IfOk result (λ told. IsSo ROOM told.out (λ sink. IsAssembled sink example.image told.status told.out.taken told.kept told.tasks)) }
{
    answer_alone(alloc, "asm", SOURCE)
}

/// The run of the program of a seed.
pub fn generate_example<const ROOM: usize>(alloc: Global) -> Result<Told<ROOM>, NoMemory>
    ensures generate { IfOk result (λ told. IsSo ROOM told.out (λ sink. IsRun (boot_of (generated_by 7)) sink (generated_by 7) told.status told.out.taken told.kept)) }
{
    let text = bytes_of(alloc, &[])?;
    let words = [word_of(alloc, "generate")?, word_of(alloc, "7")?];
    run_text(alloc, &words, text)
}

/// The usage.
pub fn help_example<const ROOM: usize>(alloc: Global) -> Result<Told<ROOM>, NoMemory>
    ensures help { IfOk result (λ told. IsSo ROOM told.out (λ sink. HasUsage sink 0 told.status told.out.taken told.kept told.tasks)) }
{
    answer_alone(alloc, "help", &[])
}

/// What is wrong with a text that is no HEX text.
pub fn bad_hex_example<const ROOM: usize>(alloc: Global) -> Result<Told<ROOM>, NoMemory>
    ensures bad { IfOk result (λ told. IsSo ROOM told.out (λ sink. IsSaid sink 3 (bad_line (codes "hex") 1 (codes "start")) told.status told.out.taken told.kept told.tasks)) }
{
    answer_alone(alloc, "run", SOURCE)
}

/// What is wrong with a text that is no source.
pub fn bad_source_example<const ROOM: usize>(alloc: Global) -> Result<Told<ROOM>, NoMemory>
    ensures bad { IfOk result (λ told. IsSo ROOM told.out (λ sink. IsSaid sink 3 (bad_line (codes "asm") 1 (codes "form")) told.status told.out.taken told.kept told.tasks)) }
{
    answer_alone(alloc, "asm", HEX)
}

/// What is wrong with a script.
pub fn bad_script_example<const ROOM: usize>(alloc: Global) -> Result<Told<ROOM>, NoMemory>
    ensures bad { IfOk result (λ told. IsSo ROOM told.out (λ sink. IsSaid sink 3 (bad_line (codes "script") 1 (codes "form")) told.status told.out.taken told.kept told.tasks)) }
{
    answer_alone(alloc, "run", BAD_SCRIPT)
}

/// What is wrong with a script of several programs.
pub fn bad_task_script_example<const ROOM: usize>(alloc: Global) -> Result<Told<ROOM>, NoMemory>
    ensures bad { IfOk result (λ told. IsSo ROOM told.out (λ sink. IsSaid sink 3 (bad_line (codes "script") 1 (codes "form")) told.status told.out.taken told.kept told.tasks)) }
{
    answer_tasks(alloc, BAD_TASK_SCRIPT)
}

/// What is wrong with an image of several programs.
pub fn bad_task_image_example<const ROOM: usize>(alloc: Global) -> Result<Told<ROOM>, NoMemory>
    ensures bad { IfOk result (λ told. IsSo ROOM told.out (λ sink. IsSaid sink 3 (codes "bad task image 0x0FFE\n") told.status told.out.taken told.kept told.tasks)) }
{
    answer_tasks(alloc, BAD_TASK_IMAGE)
}

/// What is wrong with a dump.
pub fn bad_dump_example<const ROOM: usize>(alloc: Global) -> Result<Told<ROOM>, NoMemory>
    ensures bad { IfOk result (λ told. IsSo ROOM told.out (λ sink. IsSaid sink 3 (bad_line (codes "dump") 1 (codes "form")) told.status told.out.taken told.kept told.tasks)) }
{
    answer_alone(alloc, "check", BAD_DUMP)
}

/// Any text that is too long.
pub fn long_example<const ROOM: usize>(alloc: Global, text: &[u8]) -> Result<Told<ROOM>, NoMemory>
    ensures long { 2097152 < length text.now
        → IfOk result (λ told. IsSo ROOM told.out (λ sink. IsSaid sink 3 (codes "input too long\n") told.status told.out.taken told.kept told.tasks)) }
{
    answer_alone(alloc, "asm", text)
}

/// This program's run, where its text can't be read to the end.
pub fn broken_example<const ROOM: usize>(alloc: Global) -> Result<Told<ROOM>, NoMemory>
    ensures fault { IfOk result (λ told. IsSo ROOM told.out (λ sink. IsSaid sink 5 (codes "read fault\n") told.status told.out.taken told.kept told.tasks)) }
{
    let bytes = bytes_of(alloc, HEX)?;
    let word = word_of(alloc, "run")?;
    run_broken(alloc, &[word], bytes)
}

/// Answers one word over a text.
fn answer_alone<const ROOM: usize>(
    alloc: Global,
    command: &str,
    text: &[u8],
) -> Result<Told<ROOM>, NoMemory>
    ensures check { IfOk result (λ told. (image flash : List ℕ) → AsksCheck (command.now ∷ []) text.now image flash
        → IsSo ROOM told.out (λ sink. IsChecked sink image flash told.status told.out.taken told.kept)) }
    ensures asm { IfOk result (λ told. (image : List ℕ) → AsksAsm (command.now ∷ []) text.now image
        → IsSo ROOM told.out (λ sink. IsAssembled sink image told.status told.out.taken told.kept told.tasks)) }
    ensures refused { IfOk result (λ told. (line : List ℕ) → IsRefused (command.now ∷ []) text.now line
        → IsSo ROOM told.out (λ sink. IsSaid sink 3 line told.status told.out.taken told.kept told.tasks)) }
    ensures usage { IfOk result (λ told. (own : ℕ) → IsUsage (command.now ∷ []) own
        → IsSo ROOM told.out (λ sink. HasUsage sink own told.status told.out.taken told.kept told.tasks)) }
{
    let bytes = bytes_of(alloc, text)?;
    let word = word_of(alloc, command)?;
    run_text(alloc, &[word], bytes)
}

/// Answers `tasks` for one program.
fn answer_tasks<const ROOM: usize>(alloc: Global, text: &[u8]) -> Result<Told<ROOM>, NoMemory>
    ensures tasks { IfOk result (λ told. (asked : AskedTasks) → AsksTasks words_of_tasks text.now asked
        → IsSo ROOM told.out (λ sink. AreRun sink asked told.status told.out.taken told.kept told.tasks)) }
    ensures refused { IfOk result (λ told. (line : List ℕ) → IsRefused words_of_tasks text.now line
        → IsSo ROOM told.out (λ sink. IsSaid sink 3 line told.status told.out.taken told.kept told.tasks)) }
{
    let bytes = bytes_of(alloc, text)?;
    let words = [
        word_of(alloc, "tasks")?,
        word_of(alloc, "--tasks")?,
        word_of(alloc, "1")?,
    ];
    run_text(alloc, &words, bytes)
}

/// Answers a command that takes these options.
fn answer<const ROOM: usize>(alloc: Global, command: &str) -> Result<Told<ROOM>, NoMemory>
    ensures run { command.now ≡ codes "run" → IfOk result (λ told. IsSo ROOM told.out (λ sink. IsRun (boot_of example) sink example told.status told.out.taken told.kept)) }
    ensures dump { command.now ≡ codes "dump" → IfOk result (λ told. IsSo ROOM told.out (λ sink. IsDumped sink example told.status told.out.taken told.kept)) }
    ensures restart { command.now ≡ codes "restart" → IfOk result (λ told. IsSo ROOM told.out (λ sink. IsRestarted sink example told.status told.out.taken told.kept)) }
{
    let text = bytes_of(alloc, TEXT)?;
    let words = [
        word_of(alloc, command)?,
        word_of(alloc, "--steps")?,
        word_of(alloc, "100")?,
        word_of(alloc, "--quantum=7")?,
        word_of(alloc, "--swap")?,
        word_of(alloc, "0")?,
    ];
    run_text(alloc, &words, text)
}
