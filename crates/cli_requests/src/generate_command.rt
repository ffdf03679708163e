//! The command `generate`.
ghost use Rattle.std.specs.Prelude.{◌≡◌, ◌⊎◌};
ghost use Rattle.cli_words.specs.Commands.{IsPossibleJob};
ghost use Rattle.cli_words.specs.Printed.{no_memory};
ghost use Rattle.cli_requests.specs.GenerateCommand.{generated_run};

use cli_words::{DEFAULT_OPTIONS, Job, Request, RunOptions, no_memory};
use std::alloc::Global;

/// How the test program is run.
const GENERATE_OPTIONS: RunOptions = RunOptions {
    steps: 10_000_000,
    ..DEFAULT_OPTIONS
};

/// The run of the test program of a seed, without a script.
pub(crate) fn generated_job(alloc: Global, seed: u32) -> Job
    ensures asks { (result ≡ generated_run seed) ⊎ (result ≡ no_memory) }
    ensures possible { IsPossibleJob result }
{
    let image = match program_generator::generate(alloc, seed) {
        Ok(image) => image,
        Err(_) => return no_memory(),
    };
    // A text without lines has no faulty one.
    let script = match input_script::read(alloc, b"") {
        Ok(script) => script,
        Err(_) => return no_memory(),
    };
    Job::Run(Request {
        image,
        script,
        options: GENERATE_OPTIONS,
    })
}
