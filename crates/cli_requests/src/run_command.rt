//! The command `run`.
ghost use Rattle.std.specs.Prelude.{◌≡◌, ◌⊎◌, ◌≤◌, length, MatchResult};
ghost use Rattle.cli_words.specs.declared.command.Command.TheVariants.{Run};
ghost use Rattle.cli_words.specs.declared.job.Job.{Job};
ghost use Rattle.cli_words.specs.declared.request.Request.{Request};
ghost use Rattle.cli_words.specs.Commands.{AreOptions, IsPossible, IsPossibleJob};
ghost use Rattle.cli_words.specs.Printed.{no_memory};
ghost use Rattle.byte_streams.specs.Streams.{input_of};
ghost use Rattle.cli_requests.specs.Reading.{AsksByText, most_input};
ghost use Rattle.cli_requests.specs.RunCommand.{RequestThen, RunAsks};

use crate::reading::read_input;
use byte_streams::Source;
use cli_words::{Job, Request, RunOptions, bad_hex, bad_script, no_memory};
use hex_image::HexError;
use input_script::ScriptError;
use std::alloc::Global;

/// Reads the input of `run`, and judges it.
pub fn run_job<S: Source>(alloc: Global, options: RunOptions, input: &mut S) -> Job
    requires possible { IsPossible (Run options) }
    ensures asks { AsksByText (RunAsks options)
        (input_of S.left S.given S.faults input.old) (input_of S.left S.given S.faults input.new)
        result }
    ensures possible { IsPossibleJob result }
{
    match read_input(alloc, input) {
        Ok(text) => text_job(alloc, options, &text),
        Err(job) => job,
    }
}

/// What a text asks for, which is a HEX text and a script behind it.
fn text_job(alloc: Global, options: RunOptions, text: &[u8]) -> Job
    requires possible { IsPossible (Run options) }
    requires short { length text.now ≤ most_input }
    ensures asks { RunAsks options text.now result ⊎ (result ≡ no_memory) }
    ensures possible { IsPossibleJob result }
{
    match request_in(alloc, options, text) {
        Ok(request) => Job::Run(request),
        Err(job) => job,
    }
}

/// The program of a text, which is a HEX text and a script behind it, with options; where there is none, what is
/// printed instead.
pub(crate) fn request_in(alloc: Global, options: RunOptions, text: &[u8]) -> Result<Request, Job>
    requires possible { AreOptions options }
    requires short { length text.now ≤ most_input }
    // Whatever is asked with it.
    ensures judged { (asked : Request → Job) → MatchResult result
        (λ request. RequestThen options text.now asked (asked request))
        (λ job. RequestThen options text.now asked job ⊎ (job ≡ no_memory)) }
    ensures possible { MatchResult result (λ request. AreOptions request.options) IsPossibleJob }
{
    let (image, position) = match hex_image::read(alloc, text) {
        Ok(read) => read,
        Err(HexError::Bad { line, fault }) => return Err(bad_hex(line, fault)),
        Err(HexError::NoMemory) => return Err(no_memory()),
    };
    let script = match input_script::read(alloc, &text[position..]) {
        Ok(script) => script,
        Err(ScriptError::Bad { line, fault }) => return Err(bad_script(line, fault)),
        Err(ScriptError::NoMemory) => return Err(no_memory()),
    };
    Ok(Request {
        image,
        script,
        options,
    })
}
