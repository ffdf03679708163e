//! What is done for a job.
ghost use Rattle.std.specs.Prelude.{◌≡◌, ◌⊎◌, None};
ghost use Rattle.cli_words.specs.Commands.{IsPossibleJob, RunsAProgram};
ghost use Rattle.cli_words.specs.Printed.{no_memory};
ghost use Rattle.cli_words.specs.Stream.{stream};
ghost use Rattle.tkernel_cli.specs.Answer.{Does};
ghost use Rattle.tkernel_cli.specs.Jobs.{DoesAlone};
ghost use Rattle.tkernel_cli.specs.Runs.{Says};

use crate::dumping::dump_request;
use crate::restarting::restart_request;
use crate::running::run_request;
use crate::tasking::run_tasks;
use crate::top::Exit;
use byte_streams::{Sink, put};
use cli_words::{Job, Status};
use printed_text::NO_MEMORY;
use std::alloc::Global;
use tk_run::Machine;

/// How a job of one program, or of none, ended.
#[derive(Drop)]
pub(crate) struct Outcome {
    pub(crate) status: Status,
    /// The machine of the run, where one was made.
    pub(crate) kept: Option<Machine>,
}

/// Does a job. What runs a program is done, or it is told that memory is wanted for it.
pub(crate) fn do_job<K: Sink>(alloc: Global, job: Job, out: &mut K) -> Exit
    requires possible { IsPossibleJob job }
    ensures done { Does job (stream K.taken K.faults out.old) (stream K.taken K.faults out.new) result
        ⊎ (RunsAProgram job
        × Does no_memory (stream K.taken K.faults out.old) (stream K.taken K.faults out.new) result) }
{
    let outcome = match job {
        Job::Print(status, line) => told(say(status, &line, out)),
        Job::Write(text) => told(say(Status::Done, text.bytes(), out)),
        Job::Run(request) => run_request(alloc, request, out),
        Job::Dump(request) => dump_request(alloc, request, out),
        Job::Restart(request, again) => restart_request(alloc, request, again, out),
        Job::Tasks(request) => return run_tasks(alloc, request, out),
    };
    Exit {
        status: outcome.status,
        kept: outcome.kept,
        tasks: None,
    }
}

/// A job that keeps no machine.
fn told(status: Status) -> Outcome
    ensures status { result.status ≡ status }
    ensures nothing { result.kept ≡ None }
{
    Outcome { status, kept: None }
}

/// Puts that there was no memory.
pub(crate) fn tell_no_memory<K: Sink>(out: &mut K) -> Outcome
    ensures done { DoesAlone no_memory (stream K.taken K.faults out.old) (stream K.taken K.faults out.new) result.status result.kept }
{
    told(say(Status::NoMemory, NO_MEMORY, out))
}

/// Puts a text, and gives its status, or that of a failed write.
pub fn say<K: Sink>(own: Status, text: &[u8], out: &mut K) -> Status
    ensures said { Says own text.now (stream K.taken K.faults out.old) (stream K.taken K.faults out.new) result }
{
    match put(out, text) {
        Ok(()) => own,
        Err(_) => Status::WriteFault,
    }
}
