//! A whole run, and its printed lines.
ghost use Rattle.std.specs.Prelude.{◌≡◌, ◌⊎◌, ◌≤◌, ◌^◌, length, IfOk};
ghost use Rattle.flash_words.specs.Layouts.{layout_of};
ghost use Rattle.hex_image.specs.Image.{IsImage};
ghost use Rattle.cli_words.specs.Commands.{AreOptions};
ghost use Rattle.cli_words.specs.declared.status.Status.{Status as StatusValue};
ghost use Rattle.tkernel_cli.specs.DumpRuns.{silent};
ghost use Rattle.cli_words.specs.Printed.{no_memory};
ghost use Rattle.cli_words.specs.Stream.{stream};
ghost use Rattle.tkernel_cli.specs.Jobs.{DoesAlone};
ghost use Rattle.tkernel_cli.specs.Runs.{HasRun, Runs, Says, last_text, status_of_stop};

use crate::job::{Outcome, say, tell_no_memory};
use byte_streams::{NoMemory, NullSink, Sink, put};
use cli_words::{Request, RunOptions, Status};
use hex_image::Image;
use input_script::Script;
use kernel_entry::Stop;
use printed_text::{counts, stop_line};
use std::alloc::Global;
use tk_run::{End, Machine, Options};

/// Runs a request to its end, and puts its lines. Not inlined, nor are its like: else the frame of the call that chooses the job
/// holds what all of them hold.
#[inline(never)]
pub(crate) fn run_request<K: Sink>(alloc: Global, request: Request, out: &mut K) -> Outcome
    requires quantum { 1 ≤ request.options.quantum }
    requires swap { request.options.swap ≤ 251 }
    requires steps { request.options.steps ≤ 10 ^ 9 }
    ensures done { HasRun request (stream K.taken K.faults out.old) (stream K.taken K.faults out.new) result.status result.kept
        ⊎ DoesAlone no_memory (stream K.taken K.faults out.old) (stream K.taken K.faults out.new) result.status result.kept }
{
    let Request {
        image,
        script,
        options,
    } = request;
    let asked = Options {
        quantum: options.quantum,
        swap: options.swap,
    };
    let mut machine = match Machine::boot(alloc, &image, script, asked) {
        Ok(machine) => machine,
        Err(_) => return tell_no_memory(out),
    };
    let status = match machine.advance(options.steps, out) {
        Ok(end) => tell_end(&machine, end, out),
        Err(_) => Status::WriteFault,
    };
    Outcome {
        status,
        kept: Some(machine),
    }
}

/// Runs a program to its end; its lines go nowhere.
#[inline(never)]
pub(crate) fn run_silently(
    alloc: Global,
    image: &Image,
    script: Script,
    options: RunOptions,
) -> Result<Machine, NoMemory>
    requires image { IsImage image.now }
    requires possible { AreOptions options }
    ensures ran { IfOk result (λ machine. (ended : StatusValue) × Runs (record { image = image.now; script = script; options = options }) silent silent ended machine) }
    ensures layout { IfOk result (λ machine. machine.kernel.layout ≡ layout_of (length image.now)) }
{
    let asked = Options {
        quantum: options.quantum,
        swap: options.swap,
    };
    let mut machine = Machine::boot(alloc, image, script, asked)?;
    let _end = machine.advance(options.steps, &mut NullSink);
    Ok(machine)
}

/// Puts the stop line and the count line. The status is the end's own, unless they can't be put.
pub(crate) fn tell_end<K: Sink>(machine: &Machine, end: End, out: &mut K) -> Status
    requires quantum { 1 ≤ machine.now.kernel.quantum }
    ensures said { Says (status_of_stop end)
        (last_text end machine.now)
        (stream K.taken K.faults out.old) (stream K.taken K.faults out.new)
        result }
{
    let checkpoints = machine.crossings / u64::from(machine.kernel.quantum);
    match put(out, &stop_line(end, machine.steps, checkpoints)) {
        Ok(()) => say(
            status_of(end),
            &counts(machine.natural, machine.entries, machine.pages),
            out,
        ),
        Err(_) => Status::WriteFault,
    }
}

/// The status of an end.
pub fn status_of(end: End) -> Status
    ensures status { result ≡ status_of_stop end }
{
    match end {
        End::Spent => Status::Spent,
        End::Stopped(Stop::Halted(_) | Stop::Asleep(_)) => Status::Done,
        End::Stopped(_) | End::Wild(_) => Status::Fault,
        End::Flash(_) => Status::FlashFault,
    }
}
