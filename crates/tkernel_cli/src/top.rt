//! The top call: words and input in, lines and a status out.
ghost use Rattle.std.specs.Prelude.{◌≡◌, map, string_bytes};
ghost use Rattle.tkernel_cli.specs.Answer.{IsAnswer, IsExact};
ghost use Rattle.byte_streams.specs.Streams.{input_of};
ghost use Rattle.cli_words.specs.Stream.{stream};

use crate::job::do_job;
use byte_streams::{Sink, Source};
use cli_requests::job_of;
use cli_words::Status;
use std::alloc::Global;
use tk_run::Machine;
use tk_tasks::Tasks;

/// How a call ended.
#[derive(Drop)]
pub struct Exit {
    pub status: Status,
    /// The machine of the run, where one was made.
    pub kept: Option<Machine>,
    /// The tasks of the run, where several programs were booted.
    pub tasks: Option<Tasks>,
}

impl Exit {
    /// The status alone: what is kept is dropped.
    pub fn into_status(self) -> Status
        ensures status { result ≡ self.status }
    {
        let status = self.status;
        drop(self);
        status
    }
}

/// Answers a command line. `words` are those after the program's name, and make one of eight commands:
///
/// - `help` prints the usage line;
/// - `run` reads a program as a HEX text and a script behind it from `input`, runs it, and prints its lines
///   to `out`;
/// - `dump` reads and runs the same, prints none of its lines, and prints the dump of the flash that is left;
/// - `restart` reads the same and runs it without a line, up to its end or to the operation on flash that the script has
///   fail; there power is lost; then it prints what a restart keeps of the pool, and the lines of a second run over that;
/// - `tasks` reads a HEX text of up to four programs, which are linked at their quarters, and a script behind it from
///   `input`, runs them in turn on one mote, and prints their lines, each with its task;
/// - `check` reads a HEX text and a dump behind it from `input`, and prints whether the dump's flash holds the image
///   and faithful rewritten code of it, and if not the page where it doesn't;
/// - `generate SEED` runs the test program of that seed, and reads nothing;
/// - `asm` reads a source from `input`, and prints the HEX text of its image to `out`.
///
/// Other words are answered with the usage line and a status of their own.
pub fn tkernel<S: Source, K: Sink>(
    alloc: Global,
    words: &[String],
    input: &mut S,
    out: &mut K,
) -> Exit
    ensures answer { IsAnswer (map string_bytes words.now)
        (input_of S.left S.given S.faults input.old) (input_of S.left S.given S.faults input.new)
        (stream K.taken K.faults out.old) (stream K.taken K.faults out.new)
        result }
    // The words alone decide, and for a command that reads the text of a source that tells it, or keeps what it gave, and
    // doesn't fail; or memory is wanted, but not for the usage line, for which nothing is read.
    ensures exact { IsExact (map string_bytes words.now)
        (input_of S.left S.given S.faults input.old) (input_of S.left S.given S.faults input.new)
        (stream K.taken K.faults out.old) (stream K.taken K.faults out.new)
        result }
{
    let job = job_of(alloc, words, input);
    do_job(alloc, job, out)
}
