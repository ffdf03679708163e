//! The command `asm`.
ghost use Rattle.std.specs.Prelude.{◌≡◌, ◌⊎◌, ◌≤◌, length};
ghost use Rattle.cli_words.specs.Commands.{IsPossibleJob};
ghost use Rattle.cli_words.specs.Printed.{no_memory};
ghost use Rattle.byte_streams.specs.Streams.{input_of};
ghost use Rattle.cli_requests.specs.AsmCommand.{AsmAsks};
ghost use Rattle.cli_requests.specs.Reading.{AsksByText, most_input};

use crate::printed::bad_asm;
use crate::reading::read_input;
use avr_asm::{AsmError, assemble};
use byte_streams::Source;
use cli_words::{Job, Output, no_memory};
use std::alloc::Global;

/// Reads the source, and assembles it.
pub(crate) fn asm_job<S: Source>(alloc: Global, input: &mut S) -> Job
    ensures asks { AsksByText AsmAsks
        (input_of S.left S.given S.faults input.old) (input_of S.left S.given S.faults input.new)
        result }
    ensures possible { IsPossibleJob result }
{
    match read_input(alloc, input) {
        Ok(text) => source_job(alloc, &text),
        Err(job) => job,
    }
}

/// What a source asks for.
fn source_job(alloc: Global, text: &[u8]) -> Job
    requires short { length text.now ≤ most_input }
    ensures asks { AsmAsks text.now result ⊎ (result ≡ no_memory) }
    ensures possible { IsPossibleJob result }
{
    let image = match assemble(alloc, text) {
        Ok(image) => image,
        Err(AsmError::Bad { line, fault }) => return bad_asm(line, fault),
        Err(AsmError::NoMemory) => return no_memory(),
    };
    match hex_image::write(alloc, &image) {
        Ok(hex) => Job::Write(Output::new(hex)),
        Err(_) => no_memory(),
    }
}
