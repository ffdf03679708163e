//! The job that words and an input ask for.
ghost use Rattle.std.specs.Prelude.{map, string_bytes};
ghost use Rattle.cli_words.specs.Commands.{IsPossibleJob};
ghost use Rattle.byte_streams.specs.Streams.{input_of};
ghost use Rattle.cli_requests.specs.Asking.{IsAsked};

use crate::asm_command::asm_job;
use crate::check_command::check_job;
use crate::dump_command::dump_job;
use crate::generate_command::generated_job;
use crate::restart_command::restart_job;
use crate::run_command::run_job;
use crate::tasks_command::tasks_job;
use byte_streams::Source;
use cli_words::{Command, Job, Status, command_of, usage};
use std::alloc::Global;

/// What the words ask for, and the input where they have it read.
pub fn job_of<S: Source>(alloc: Global, words: &[String], input: &mut S) -> Job
    ensures asked { IsAsked (map string_bytes words.now)
        (input_of S.left S.given S.faults input.old) (input_of S.left S.given S.faults input.new)
        result }
    ensures possible { IsPossibleJob result }
{
    match command_of(words) {
        Some(Command::Help) => usage(Status::Done),
        Some(Command::Run(options)) => run_job(alloc, options, input),
        Some(Command::Dump(options)) => dump_job(alloc, options, input),
        Some(Command::Restart(options)) => restart_job(alloc, options, input),
        Some(Command::Tasks(options)) => tasks_job(alloc, options, input),
        Some(Command::Check) => check_job(alloc, input),
        Some(Command::Generate(seed)) => generated_job(alloc, seed),
        Some(Command::Asm) => asm_job(alloc, input),
        None => usage(Status::Usage),
    }
}
