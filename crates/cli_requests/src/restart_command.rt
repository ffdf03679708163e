//! The command `restart`.
ghost use Rattle.std.specs.Prelude.{◌≡◌, ◌⊎◌, ◌≤◌, length};
ghost use Rattle.cli_words.specs.Commands.{AreOptions, IsPossibleJob};
ghost use Rattle.cli_words.specs.Printed.{no_memory};
ghost use Rattle.byte_streams.specs.Streams.{input_of};
ghost use Rattle.cli_requests.specs.Reading.{AsksByText, most_input};
ghost use Rattle.cli_requests.specs.RestartCommand.{RestartAsks};

use crate::reading::read_input;
use crate::run_command::request_in;
use byte_streams::Source;
use cli_words::{Job, RunOptions};
use std::alloc::Global;

/// Reads the input of `restart`, which is that of `run`, and judges it.
pub(crate) fn restart_job<S: Source>(alloc: Global, options: RunOptions, input: &mut S) -> Job
    requires possible { AreOptions options }
    ensures asks { AsksByText (RestartAsks options)
        (input_of S.left S.given S.faults input.old) (input_of S.left S.given S.faults input.new)
        result }
    ensures possible { IsPossibleJob result }
{
    match read_input(alloc, input) {
        Ok(text) => text_job(alloc, options, &text),
        Err(job) => job,
    }
}

/// What a text asks for, which is a HEX text and a script behind it. It is read twice: each run has the events for its
/// own.
fn text_job(alloc: Global, options: RunOptions, text: &[u8]) -> Job
    requires possible { AreOptions options }
    requires short { length text.now ≤ most_input }
    ensures asks { RestartAsks options text.now result ⊎ (result ≡ no_memory) }
    ensures possible { IsPossibleJob result }
{
    let request = match request_in(alloc, options, text) {
        Ok(request) => request,
        Err(job) => return job,
    };
    match request_in(alloc, options, text) {
        Ok(again) => Job::Restart(request, again.script),
        Err(job) => job,
    }
}
