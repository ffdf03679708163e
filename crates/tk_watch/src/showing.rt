//! What is put of a watched run: what a view tells of it, and its stop line.
ghost use Rattle.std.specs.Prelude.{◌≡◌, ◌<◌, ◌≤◌, ◌++◌, ◌^◌, ℕ, [], codes, length, slice_index, IfOk, MatchResult};
ghost use Rattle.byte_streams.specs.Faults.{HasCause};
ghost use Rattle.byte_streams.specs.Streams.{Puts};
ghost use Rattle.cli_words.specs.Commands.{AreOptions};
ghost use Rattle.cli_words.specs.declared.status.Status.TheVariants.{NoMemory as NoMemoryStatus};
ghost use Rattle.cli_words.specs.Stream.{stream};
ghost use Rattle.heap_frames.specs.Paged.{IsPaged};
ghost use Rattle.printed_text.specs.Gathering.{Gathers};
ghost use Rattle.program_steps.specs.Machines.{Machine as MachineValue, flat_of};
ghost use Rattle.program_steps.specs.Wholes.{whole};
ghost use Rattle.tk_run.specs.Booted.{booted};
ghost use Rattle.tkernel_cli.specs.Runs.{Says, status_of_stop};
ghost use Rattle.tk_watch.specs.Kept.{IsMarked, IsPossible};
ghost use Rattle.tk_watch.specs.Views.{left_text};
ghost use Rattle.tk_watch.specs.Watching.{HasRun, HasShown, IsStart, end_text, stop_of};

use crate::memory::tell_memory;
use crate::profile::{counted_steps, no_counts, tell_counts};
use crate::state::{Bounds, tell_state};
use crate::steps::watched_steps;
use crate::view::View;
use crate::visits::mark;
use byte_streams::{Failed, NoMemory, Sink};
use cli_words::{RunOptions, Status};
use hex_image::Image;
use input_script::Script;
use kernel_entry::{End, Kernel};
use page_cursor::Cursor;
use printed_text::{Gathered, NO_MEMORY, add, send, stop_line};
use program_steps::Progress;
use std::alloc::Global;
use text_lines::Text;
use tk_run::{Machine, Options};
use tkernel_cli::{say, status_of};

/// A machine in its parts, what its run knows of places, and a number for each address: how many steps began there, or whether
/// visits there are told.
#[derive(Drop)]
pub(crate) struct Start {
    pub kernel: Kernel,
    pub progress: Progress,
    pub cursor: Box<Cursor>,
    pub counts: Vec<u64>,
}

/// The machine of a run that has done nothing yet.
pub(crate) fn started(
    alloc: Global,
    image: &Image,
    script: Script,
    options: RunOptions,
) -> Result<Start, NoMemory>
    requires possible { AreOptions options }
    ensures booted { IfOk result (λ s. whole s.kernel s.progress ≡ booted image.now script options.quantum options.swap) }
    ensures start { IfOk result (λ s. IsStart (whole s.kernel s.progress) s.counts.items) }
{
    let asked = Options {
        quantum: options.quantum,
        swap: options.swap,
    };
    let Ok(counts) = no_counts(alloc) else {
        return Err(NoMemory);
    };
    let mut machine = Machine::boot(alloc, image, script, asked)?;
    let Some(cursor) = machine.take_cursor() else {
        return Err(NoMemory);
    };
    Ok(Start {
        progress: machine.progress(),
        kernel: machine.kernel,
        cursor,
        counts,
    })
}

/// Does up to n steps of a machine that has done nothing yet, and puts what a view tells of them, and the stop line; or that memory
/// is wanted, where there is none.
pub(crate) fn show<K: Sink>(
    view: &View,
    bounds: Bounds,
    start: Result<Start, NoMemory>,
    n: u64,
    out: &mut K,
) -> Status
    requires possible { IsPossible view.now }
    requires steps { n ≤ 10 ^ 12 }
    requires start { IfOk start (λ s. IsStart (whole s.kernel s.progress) s.counts.items) }
    ensures shown { MatchResult start
        (λ s. (new : MachineValue) × HasShown view.now bounds.slots bounds.events (whole s.kernel s.progress) new n (stream K.taken K.faults out.old) (stream K.taken K.faults out.new) result)
        (λ none. Says NoMemoryStatus (codes "no memory\n") (stream K.taken K.faults out.old) (stream K.taken K.faults out.new) result) }
{
    match start {
        Ok(start) => {
            let Start {
                mut kernel,
                mut progress,
                mut cursor,
                mut counts,
            } = start;
            tell(
                view,
                bounds,
                &mut kernel,
                &mut progress,
                &mut *cursor,
                counts.as_mut_slice(),
                n,
                out,
            )
        }
        Err(_) => say(Status::NoMemory, NO_MEMORY, out),
    }
}

/// Does up to n steps, and puts what a view tells of them, and the stop line.
fn tell<K: Sink>(
    view: &View,
    bounds: Bounds,
    k: &mut Kernel,
    p: &mut Progress,
    cursor: &mut Cursor,
    counts: &mut [u64],
    n: u64,
    out: &mut K,
) -> Status
    requires possible { IsPossible view.now }
    requires steps { n ≤ 10 ^ 12 }
    requires start { IsStart (whole k.old p.old) counts.old }
    ensures shown { HasShown view.now bounds.slots bounds.events (whole k.old p.old) (whole k.new p.new) n (stream K.taken K.faults out.old) (stream K.taken K.faults out.new) result }
{
    let mut gathered = Gathered::new();
    match run(view, k, p, cursor, counts, n, &mut gathered, out) {
        Ok(end) => tell_end(view, bounds, k, p, counts, end, &mut gathered, out),
        Err(_) => Status::WriteFault,
    }
}

/// Does up to n steps, and gathers what a view tells of each, or counts them.
fn run<K: Sink>(
    view: &View,
    k: &mut Kernel,
    p: &mut Progress,
    cursor: &mut Cursor,
    counts: &mut [u64],
    n: u64,
    gathered: &mut Gathered,
    out: &mut K,
) -> Result<End, Failed>
    requires possible { IsPossible view.now }
    requires steps { n ≤ 10 ^ 12 }
    requires start { IsStart (whole k.old p.old) counts.old }
    requires empty { gathered.old.items ≡ [] }
    ensures run { HasRun view.now (whole k.old p.old) (whole k.new p.new) n counts.new gathered.new.items (K.taken out.old) (K.taken out.new) result }
    ensures size { length counts.new ≡ 65536 }
    ensures cause { HasCause (K.faults out.old) (K.faults out.new) result }
{
    match view {
        View::Profile => Ok(counted_steps(k, p, cursor, n, counts)),
        _ => {
            mark_places(view, counts);
            watched_steps(view, k, p, cursor, n, counts, gathered, out)
        }
    }
}

/// Marks the places at which visits are told, where none is marked.
fn mark_places(view: &View, marks: &mut [u64])
    requires size { length marks.old ≡ 65536 }
    requires unmarked { (a : ℕ) → a < 65536 → slice_index marks.old a ≡ 0 }
    ensures marked { IsMarked view.now marks.new }
    ensures size { length marks.new ≡ 65536 }
{
    match view {
        View::Visits(places) => mark(places, marks),
        _ => {}
    }
}

/// Puts what a view tells at the end, and the stop line.
fn tell_end<K: Sink>(
    view: &View,
    bounds: Bounds,
    k: &Kernel,
    p: &Progress,
    counts: &[u64],
    end: End,
    gathered: &mut Gathered,
    out: &mut K,
) -> Status
    requires paged { IsPaged k.now.mote.sram k.now.mote.swap }
    requires quantum { 1 ≤ k.now.quantum }
    requires size { length counts.now ≡ 65536 }
    ensures said { Says (status_of_stop end) (gathered.old.items ++ end_text view.now bounds.slots bounds.events (slice_index counts.now) end (whole k.now p.now)) (stream K.taken K.faults out.old) (stream K.taken K.faults out.new) result }
{
    match tell_left(view, bounds, k, p, counts, gathered, out) {
        Ok(()) => tell_stop(k, p, end, gathered, out),
        Err(_) => Status::WriteFault,
    }
}

/// Gathers what a view tells at the end.
fn tell_left<K: Sink>(
    view: &View,
    bounds: Bounds,
    k: &Kernel,
    p: &Progress,
    counts: &[u64],
    gathered: &mut Gathered,
    out: &mut K,
) -> Result<(), Failed>
    requires paged { IsPaged k.now.mote.sram k.now.mote.swap }
    requires size { length counts.now ≡ 65536 }
    ensures text { Gathers gathered.old.items gathered.new.items (K.taken out.old) (K.taken out.new) result (left_text view.now bounds.slots bounds.events (slice_index counts.now) k.now.mote.flash.ops (flat_of (whole k.now p.now)).now) }
    ensures cause { HasCause (K.faults out.old) (K.faults out.new) result }
{
    match view {
        View::State => tell_state(k, p, bounds, gathered, out),
        View::Memory => tell_memory(&k.mote, gathered, out),
        View::Profile => tell_counts(counts, gathered, out),
        _ => Ok(()),
    }
}

/// Puts what was gathered, and the stop line. The status is the end's own, unless they can't be put.
fn tell_stop<K: Sink>(
    k: &Kernel,
    p: &Progress,
    end: End,
    gathered: &mut Gathered,
    out: &mut K,
) -> Status
    requires quantum { 1 ≤ k.now.quantum }
    ensures said { Says (status_of_stop end) (gathered.old.items ++ stop_of end (whole k.now p.now)) (stream K.taken K.faults out.old) (stream K.taken K.faults out.new) result }
{
    let line = stop_line(end, p.steps, p.crossings / u64::from(k.quantum));
    match put_behind(&line, gathered, out) {
        Ok(()) => status_of(end),
        Err(_) => Status::WriteFault,
    }
}

/// Puts what was gathered, and a last line behind it.
fn put_behind<K: Sink>(line: &Text, gathered: &mut Gathered, out: &mut K) -> Result<(), Failed>
    ensures text { Puts (K.taken out.old) (K.taken out.new) result (gathered.old.items ++ line.now.items) }
    ensures cause { HasCause (K.faults out.old) (K.faults out.new) result }
{
    add(line, gathered, out)?;
    send(gathered, out)
}
