//! The dump of the flash that a run leaves.
ghost use Rattle.std.specs.Prelude.{◌⊎◌};
ghost use Rattle.flash_dump.specs.WrittenDumps.{written};
ghost use Rattle.printed_text.specs.PlainLines.{no_memory_line};
ghost use Rattle.cli_words.specs.Commands.{AreOptions};
ghost use Rattle.cli_words.specs.declared.status.Status.TheVariants.{Done, NoMemory};
ghost use Rattle.tkernel_cli.specs.DumpRuns.{HasDumped};
ghost use Rattle.cli_words.specs.Printed.{no_memory};
ghost use Rattle.tkernel_cli.specs.Jobs.{DoesAlone};
ghost use Rattle.tkernel_cli.specs.Runs.{Says};
ghost use Rattle.cli_words.specs.Stream.{stream};

use crate::job::{Outcome, say, tell_no_memory};
use crate::running::run_silently;
use byte_streams::Sink;
use cli_words::{Request, Status};
use flash_dump::write_dump;
use flash_model::Flash;
use printed_text::NO_MEMORY;
use std::alloc::Global;

/// Runs a request to its end without a line, and puts the dump of its flash.
#[inline(never)]
pub(crate) fn dump_request<K: Sink>(alloc: Global, request: Request, out: &mut K) -> Outcome
    requires possible { AreOptions request.options }
    ensures done { HasDumped request (stream K.taken K.faults out.old) (stream K.taken K.faults out.new) result.status result.kept
        ⊎ DoesAlone no_memory (stream K.taken K.faults out.old) (stream K.taken K.faults out.new) result.status result.kept }
{
    let Request {
        image,
        script,
        options,
    } = request;
    let machine = match run_silently(alloc, &image, script, options) {
        Ok(machine) => machine,
        Err(_) => return tell_no_memory(out),
    };
    let status = put_dump(alloc, &machine.kernel.mote.flash, out);
    Outcome {
        status,
        kept: Some(machine),
    }
}

/// Puts the dump of a flash, or that there was no memory for its text.
fn put_dump<K: Sink>(alloc: Global, flash: &Flash, out: &mut K) -> Status
    ensures said { Says Done (written flash.now.words) (stream K.taken K.faults out.old) (stream K.taken K.faults out.new) result
        ⊎ Says NoMemory no_memory_line (stream K.taken K.faults out.old) (stream K.taken K.faults out.new) result }
{
    match write_dump(alloc, flash) {
        Ok(text) => say(Status::Done, &text, out),
        Err(_) => say(Status::NoMemory, NO_MEMORY, out),
    }
}
