//! Moves inside a step: plain steps of the mote, or a service of the kernel.

ghost use Rattle.std.specs.Prelude.{◌≡◌, ◌+◌, ◌<◌, ◌≤◌, ◌^◌, max, false, None};
ghost use Rattle.std.specs.Option.{option_or};
ghost use Rattle.page_cursor.specs.Cursors.{IsCursor};
ghost use Rattle.program_steps.specs.Machines.{Machine, state_of, numbers_of};
ghost use Rattle.program_steps.specs.Loop.{CanPlain, HasPlain, CanServeNow, HasServed, IsUnderway, IsFurther, KeepsFlash, Halts, AreSmall, moves_made};
ghost use Rattle.program_steps.specs.Wholes.{whole, entered};

use crate::progress::Progress;
use kernel_entry::{End, Kernel, Owed, Served, resume_at_once, return_at_once, serve_told};
use mote_devices::Line;
use page_cursor::Cursor;

/// Plain steps from the instruction at the pc on, up to where an entry may begin. Tells the new pc.
#[inline(never)]
pub(crate) fn plain_steps(k: &mut Kernel, p: &mut Progress, cursor: &Cursor, pc: u16) -> u16
    requires at { pc ≡ k.old.mote.cpu.pc }
    requires low { pc < 0xF000 }
    requires underway { (begun : Machine) × IsUnderway begun (whole k.old p.old) p.old.line }
    requires cursor { IsCursor k.old.layout k.old.mote.flash.words cursor.now }
    ensures further { (begun : Machine) → IsUnderway begun (whole k.old p.old) p.old.line → IsFurther begun (whole k.new p.new) p.new.line }
    ensures more { moves_made (whole k.old p.old) < moves_made (whole k.new p.new) }
    ensures pc { result ≡ k.new.mote.cpu.pc }
    ensures free { Halts (whole k.new p.new) false }
    ensures keeps { KeepsFlash (whole k.old p.old) (whole k.new p.new) }
    ensures steps { p.new.steps ≤ p.old.steps }
{
    let mut pc = pc;
    'steps: loop {
        pc = plain(k, p, pc);
        if !cursor.passes(pc) {
            return pc;
        }
    }
}

/// One plain step, of the instruction at the pc, whichever it is. Tells the new pc.
#[inline(always)]
pub(crate) fn plain(k: &mut Kernel, p: &mut Progress, pc: u16) -> u16
    requires at { pc ≡ k.old.mote.cpu.pc }
    requires can { CanPlain (state_of (whole k.old p.old)) }
    requires small { AreSmall (numbers_of (whole k.old p.old)) (2 ^ 62) }
    ensures stepped { HasPlain (whole k.old p.old) (whole k.new p.new) p.old.line p.new.line }
    ensures pc { result ≡ k.new.mote.cpu.pc }
    ensures free { Halts (whole k.new p.new) false }
    ensures keeps { KeepsFlash (whole k.old p.old) (whole k.new p.new) }
    ensures steps { p.new.steps ≡ p.old.steps }
{
    p.since += 1;
    k.mote.plain_step_into(pc, &mut p.line)
}

/// One service of the kernel, at once where it can be. Tells whether an arrival is owed now, or the program has stopped.
#[inline(never)]
pub(crate) fn service(k: &mut Kernel, p: &mut Progress) -> bool
    requires untorn { p.old.torn ≡ None }
    requires can { CanServeNow (state_of (whole k.old p.old)) }
    requires small { AreSmall (numbers_of (whole k.old p.old)) (2 ^ 62) }
    ensures served { HasServed (whole k.old p.old) (whole k.new p.new) p.old.line p.new.line }
    ensures over { Halts (whole k.new p.new) result }
    ensures keeps { KeepsFlash (whole k.old p.old) (whole k.new p.new) }
    ensures steps { p.new.steps ≤ p.old.steps }
{
    count_entry(p);
    if resume_at_once(k) {
        return false;
    }
    match return_at_once(k) {
        Some(gone) => {
            p.owed = Some(Owed {
                target: gone.0,
                stub: None,
            });
            p.due = gone.1;
            true
        }
        None => serve_in_full(k, p),
    }
}

/// Counts an entry of the kernel, and the plain steps up to it.
#[inline(always)]
fn count_entry(p: &mut Progress)
    requires entries { p.old.entries < 2 ^ 62 }
    requires natural { p.old.before + p.old.since < 2 ^ 62 }
    ensures entered { p.new ≡ entered p.old }
{
    p.entries += 1;
    raise(&mut p.longest, p.since);
    p.before += p.since;
    p.since = 0;
}

/// The service in full, behind the entry. It stands apart, so that a service at once keeps no registers for it.
#[inline(never)]
fn serve_in_full(k: &mut Kernel, p: &mut Progress) -> bool
    requires untorn { p.old.torn ≡ None }
    requires can { CanServeNow (state_of (whole k.old p.old)) }
    ensures served { (q : Progress) → p.old ≡ entered q → HasServed (whole k.old q) (whole k.new p.new) q.line p.new.line }
    ensures over { Halts (whole k.new p.new) result }
    ensures keeps { KeepsFlash (whole k.old p.old) (whole k.new p.new) }
    ensures steps { p.new.steps ≤ p.old.steps }
{
    let told = serve_told(k);
    match told.0 {
        Served::Resume(line) => {
            show(&mut p.line, line);
            false
        }
        Served::Goto { target, stub } => {
            p.owed = Some(Owed { target, stub });
            p.due = told.1;
            true
        }
        Served::Woke { target } => {
            p.owed = Some(Owed { target, stub: None });
            p.due = told.1;
            true
        }
        Served::Stopped(stop) => {
            p.end = Some(End::Stopped(stop));
            p.steps = p.steps.saturating_sub(1);
            true
        }
    }
}

/// The longest stretch of plain steps up to a service, with the last one. A branch costs less than a store each time.
fn raise(longest: &mut u64, since: u64)
    ensures raised { longest.new ≡ max longest.old since }
{
    if *longest < since {
        *longest = since;
    }
}

/// The line of the step, where the service has shown one.
fn show(line: &mut Option<Line>, shown: Option<Line>)
    ensures shown { line.new ≡ option_or shown line.old }
{
    if shown.is_some() {
        *line = shown;
    }
}
