//! A run, a loss of power, and a second run over what a restart keeps.
ghost use Rattle.std.specs.Prelude.{◌≡◌, ◌⊎◌, ◌≤◌, ◌^◌, false, length, []};
ghost use Rattle.flash_words.specs.Layouts.{layout_of};
ghost use Rattle.flash_words.specs.Memory.{Memory};
ghost use Rattle.kernel_entry.specs.Parts.{image_held};
ghost use Rattle.nat_page.specs.Faithful.{IsFaithful};
ghost use Rattle.pool_check.specs.Links.{HaveFormsAround};
ghost use Rattle.program_steps.specs.Ready.{IsKept};
ghost use Rattle.cli_words.specs.Commands.{AreOptions};
ghost use Rattle.cli_words.specs.declared.request.Request.{Request as RequestValue};
ghost use Rattle.cli_words.specs.Printed.{no_memory};
ghost use Rattle.tkernel_cli.specs.Jobs.{DoesAlone};
ghost use Rattle.tkernel_cli.specs.RestartRuns.{HasRestarted, RunsOver, lost_flash as flash_lost, refused_in, second_start};
ghost use Rattle.cli_words.specs.Stream.{stream};
ghost use Rattle.printed_text.specs.RestartLines.{restart_text};

use crate::job::{Outcome, tell_no_memory};
use crate::running::{run_silently, tell_end};
use byte_streams::{Sink, put};
use cli_words::{Request, Status};
use flash_model::Flash;
use input_script::Script;
use printed_text::restart_line;
use std::alloc::Global;
use swap_store::Swap;
use tk_restart::{Kept, lose, restart};
use tk_run::{End, Machine};

/// Runs a request without a line, loses power at the operation that is refused, if one is, restarts, and runs it again
/// over what is kept.
#[inline(never)]
pub(crate) fn restart_request<K: Sink>(
    alloc: Global,
    request: Request,
    again: Script,
    out: &mut K,
) -> Outcome
    requires possible { AreOptions request.options }
    requires same { again ≡ request.script }
    ensures done { HasRestarted request (stream K.taken K.faults out.old) (stream K.taken K.faults out.new) result.status result.kept
        ⊎ DoesAlone no_memory (stream K.taken K.faults out.old) (stream K.taken K.faults out.new) result.status result.kept }
{
    let Request {
        image,
        script,
        options,
    } = request;
    let swap = match Swap::new(alloc, options.swap) {
        Ok(swap) => swap,
        Err(_) => return tell_no_memory(out),
    };
    let mut first = match run_silently(alloc, &image, script, options) {
        Ok(machine) => machine,
        Err(_) => return tell_no_memory(out),
    };
    let layout = first.kernel.layout;
    let cursor = first.take_cursor();
    let mut flash = lost_flash(first);
    let told = restart(&mut flash, image.words(), &layout);
    let mut machine = Machine::over(flash, &image, again, swap, options.quantum);
    machine.keep_cursor(cursor);
    let status = run_again(&mut machine, told, options.steps, out);
    Outcome {
        status,
        kept: Some(machine),
    }
}

/// The flash of a machine after power was lost: where an operation was refused, its page has other words.
fn lost_flash(machine: Machine) -> Flash
    ensures lost { result ≡ flash_lost machine }
    // The pages outside the pool have their form.
    ensures around { HaveFormsAround machine.kernel.layout (image_held machine.kernel) result.words }
    ensures sound { result.failing ≡ [] }
    ensures few { result.ops ≤ 2 }
{
    let op = refused_op(machine.end);
    let mut flash = machine.kernel.mote.flash;
    let page = flash.refused();
    flash.renew();
    lose(&mut flash, op, page);
    flash
}

/// The number of the operation on flash that ended a run.
fn refused_op(end: Option<End>) -> Option<u64>
    ensures value { result ≡ refused_in end }
{
    match end {
        Some(End::Flash(op)) => Some(op),
        Some(End::Spent | End::Stopped(_) | End::Wild(_)) | None => None,
    }
}

/// Puts the line of the restart, and runs the machine, which has done nothing yet.
fn run_again<K: Sink>(machine: &mut Machine, told: Kept, steps: u64, out: &mut K) -> Status
    requires kept { IsKept machine.old }
    requires running { machine.old.broken ≡ false }
    requires begins { machine.old.steps ≡ 0 }
    requires quantum { 1 ≤ machine.old.kernel.quantum }
    requires steps { steps ≤ 10 ^ 9 }
    // Whatever request it is the second run of, over whatever flash.
    ensures over { (request : RequestValue) (flash : Memory) → machine.old ≡ second_start request flash → IsFaithful (layout_of (length request.image)) request.image flash.words → request.options.steps ≡ steps
        → RunsOver request flash (restart_text told.kept told.dropped) (stream K.taken K.faults out.old) (stream K.taken K.faults out.new) result machine.new }
{
    match put(out, &restart_line(told.kept, told.dropped)) {
        Ok(()) => {}
        Err(_) => return Status::WriteFault,
    }
    match machine.advance(steps, out) {
        Ok(end) => tell_end(machine, end, out),
        Err(_) => Status::WriteFault,
    }
}
