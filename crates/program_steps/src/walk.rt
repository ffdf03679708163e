//! A walk over steps of the program that write no device line: from the midst of one of them to the end of that which leads to the
//! kernel, or writes a line, or is the last that was asked for.

ghost use Rattle.std.specs.Prelude.{◌≡◌, ◌≢◌, List, ℕ, ◌+◌, ◌<◌, ◌≤◌, ◌^◌, false, None, IfSome, IfNone};
ghost use Rattle.flash_words.specs.Layouts.{IsRight};
ghost use Rattle.flash_model.specs.DecodeCache.{AreMicroOps};
ghost use Rattle.page_index.specs.Entries.{IsEntry, IsMapped};
ghost use Rattle.page_cursor.specs.Cursors.{IsCursor};
ghost use Rattle.mote_devices.specs.Waking.{Timely};
ghost use Rattle.mote_core.specs.FastPath.{core_at};
ghost use Rattle.kernel_entry.specs.declared.kernel.Kernel.{Kernel};
ghost use Rattle.step_laws.specs.StepLaws.{crossings_over};
ghost use Rattle.program_steps.specs.declared.progress.Progress.{Progress};
ghost use Rattle.program_steps.specs.Machines.{Machine};
ghost use Rattle.program_steps.specs.Loop.{HasPlain, KeepsFlash, Halts, moves_made, target, settled_at};
ghost use Rattle.program_steps.specs.Walking.{IsAlong, IsPartway, Underway, Stepped, CanGo, HasGone, HasWalked, IsFarther, place_of, end_of_way, HasLeft, StandsAt, kernel_with, with_core, progress_at};
ghost use Rattle.program_steps.specs.Wholes.{whole};

use crate::moves::{plain, plain_steps, service};
use crate::progress::Progress;
use avr_exec::Cpu;
use flash_model::{KERNEL_FIRST, MicroOp};
use kernel_entry::Kernel;
use mote_core::fast_move;
use mote_devices::Devices;
use page_cursor::{Cursor, Mark};
use preempt_count::is_crossing;
use sram_layout::Sram;

/// Where moves of the fast path led, with one of another kind behind them where that comes next: to this place.
#[derive(Clone, Copy)]
enum Fast {
    /// As many steps were made as were asked for. An entry begins here.
    Over(u16),
    /// In the midst of a step, or at its end: it isn't known whether an entry begins here.
    Partway(u16),
}

/// Where moves of the fast path led: to this place.
#[derive(Clone, Copy)]
enum Way {
    /// As many steps were made as were asked for. An entry begins here.
    Over(u16),
    /// In the midst of a step; the next move isn't one of the fast path.
    Slow(u16),
    /// In the midst of a step; it isn't known whether an entry begins here.
    Unknown(u16),
}

/// Where the moves led that are left of a step.
#[derive(Clone, Copy)]
enum Rest {
    /// To this place, from where moves of the fast path may follow.
    On(u16),
    /// To this place, where the code of this original address begins: the step is over.
    Reached(u16, u16),
    /// To the kernel, for an arrival or for good.
    Halted,
}

/// Moves from `from` on, where control stands in the midst of a step, over as many steps as may follow one another without an
/// arrival, up to the end of that which is the one of number `end`. Tells the place of the entry that the last has led to, if it
/// has, so that the next may follow.
#[inline(always)]
pub(crate) fn walk(
    k: &mut Kernel,
    p: &mut Progress,
    cursor: &mut Cursor,
    from: u16,
    end: u64,
) -> Option<u16>
    requires at { from ≡ k.old.mote.cpu.pc }
    requires low { from < 0xF000 }
    requires silent { p.old.line ≡ None }
    requires few { (p.old.steps ≤ end) × (end ≤ 10 ^ 12) }
    requires free { Halts (whole k.old p.old) false }
    requires along { (start : Machine) × IsAlong Underway end start (whole k.old p.old) }
    requires cursor { IsCursor k.old.layout k.old.mote.flash.words cursor.old }
    ensures along { (start : Machine) → IsAlong Underway end start (whole k.old p.old) → IsAlong (Stepped p.new.line) end start (whole k.new p.new) }
    ensures reached { IfSome result (λ pc. (pc ≡ k.new.mote.cpu.pc) × (p.new.owed ≡ None) × (p.new.end ≡ None) × (p.new.due ≡ false)) }
    ensures ended { p.new.end ≢ None → p.new.owed ≡ None }
    ensures cursor { IsCursor k.new.layout k.new.mote.flash.words cursor.new }
{
    let mut pc = from;
    'walk: loop {
        let place = match fast_steps(k, p, cursor, pc, end) {
            Fast::Over(place) => return Some(place),
            Fast::Partway(place) => place,
        };
        match rest_moves(k, p, cursor, place) {
            Rest::On(place) => pc = place,
            Rest::Reached(place, t) => {
                settle(p, Some(t));
                return Some(place);
            }
            Rest::Halted => {
                settle(p, None);
                return None;
            }
        }
    }
}

/// Moves of the fast path from `from` on, over as many steps as they lead through, up to the end of that which is the one of
/// number `end`, and past one move of another kind.
#[inline(always)]
fn fast_steps(k: &mut Kernel, p: &mut Progress, cursor: &Cursor, from: u16, end: u64) -> Fast
    requires at { from ≡ k.old.mote.cpu.pc }
    requires low { from < 0xF000 }
    requires silent { p.old.line ≡ None }
    requires few { (p.old.steps ≤ end) × (end ≤ 10 ^ 12) }
    requires free { Halts (whole k.old p.old) false }
    requires along { (start : Machine) × IsAlong Underway end start (whole k.old p.old) }
    requires cursor { IsCursor k.old.layout k.old.mote.flash.words cursor.now }
    ensures pc { place_of result ≡ k.new.mote.cpu.pc }
    ensures free { Halts (whole k.new p.new) false }
    ensures few { p.new.steps ≤ end }
    ensures flash { k.new.mote.flash ≡ k.old.mote.flash }
    ensures layout { k.new.layout ≡ k.old.layout }
    ensures more { moves_made (whole k.old p.old) < moves_made (whole k.new p.new) }
    ensures along { (start : Machine) → IsAlong Underway end start (whole k.old p.old) → HasGone result p.new.line end start (whole k.new p.new) }
{
    keeps_timely(&k.mote.devices);
    let ops = k.mote.flash.micro_ops();
    match fast_moves(ops, &mut k.mote.cpu, &mut k.mote.sram, p, cursor, from, end) {
        Way::Over(place) => Fast::Over(place),
        Way::Slow(place) => Fast::Partway(plain(k, p, place)),
        Way::Unknown(place) => Fast::Partway(place),
    }
}

/// Moves of the fast path from `from` on, over as many steps as they lead through, up to the end of that which is the one of
/// number `end`. What they change of the mote is handed in apart, so that it needn't be looked for anew at each move.
#[inline(always)]
fn fast_moves(
    ops: &[MicroOp],
    cpu: &mut Cpu,
    sram: &mut Sram,
    p: &mut Progress,
    cursor: &Cursor,
    from: u16,
    end: u64,
) -> Way
    requires at { from ≡ cpu.old.pc }
    requires low { from < 0xF000 }
    requires silent { p.old.line ≡ None }
    requires few { (p.old.steps ≤ end) × (end ≤ 10 ^ 12) }
    requires free { (p.old.owed ≡ None) × (p.old.end ≡ None) }
    requires can { (start : Machine) × (k : Kernel) × CanGo ops.now cpu.old sram.old p.old cursor.now end start k }
    ensures pc { end_of_way result ≡ cpu.new.pc }
    ensures free { (p.new.owed ≡ None) × (p.new.end ≡ None) }
    ensures silent { p.new.line ≡ None }
    ensures few { p.new.steps ≤ end }
    ensures more { IsFarther result p.old p.new }
    ensures gone { (start : Machine) → (k : Kernel) → CanGo ops.now cpu.old sram.old p.old cursor.now end start k → HasWalked result end start (whole (with_core k cpu.new sram.new) p.new) }
{
    let mut sreg = cpu.sreg;
    let mut place = usize::from(from);
    let mut since = p.since;
    let mut left = end - p.steps;
    'fast: loop {
        match fast_plain(ops, cpu, sram, &mut sreg, place) {
            Some(next) => place = next,
            None => {
                put_back(cpu, p, sreg, place, since, end - left);
                return Way::Slow(place as u16);
            }
        }
        since += 1;
        match cursor.mark(place) {
            Mark::Quiet => continue 'fast,
            Mark::Unknown => {
                put_back(cpu, p, sreg, place, since, end - left);
                return Way::Unknown(place as u16);
            }
            Mark::Entry(to) => {
                p.crossings = crossings_after(p.crossings, p.at, to);
                p.at = to;
                if left == 0 {
                    put_back(cpu, p, sreg, place, since, end);
                    return Way::Over(place as u16);
                }
                left -= 1;
            }
        }
    }
}

/// Puts back what stood apart.
#[inline(always)]
fn put_back(cpu: &mut Cpu, p: &mut Progress, sreg: u8, place: usize, since: u64, steps: u64)
    requires place { place < 65536 }
    ensures core { cpu.new ≡ core_at cpu.old sreg place }
    ensures progress { p.new ≡ progress_at p.old since steps }
{
    cpu.sreg = sreg;
    cpu.pc = place as u16;
    p.since = since;
    p.steps = steps;
}

/// One move of the fast path, where that knows it.
#[inline(always)]
fn fast_plain(
    ops: &[MicroOp],
    cpu: &mut Cpu,
    sram: &mut Sram,
    sreg: &mut u8,
    place: usize,
) -> Option<usize>
    requires low { place < 0xF000 }
    requires ops { (words : List ℕ) × AreMicroOps words ops.now }
    ensures stepped { IfSome result (λ next. (k : Kernel) (p : Progress) → AreMicroOps k.mote.flash.words ops.now → HasPlain (whole (kernel_with k cpu.old sram.old sreg.old place) p) (whole (kernel_with k cpu.new sram.new sreg.new next) (progress_at p (p.since + 1) p.steps)) p.line p.line) }
    ensures below { IfSome result (λ next. next < 65536) }
    ensures none { IfNone result ((cpu.new ≡ cpu.old) × (sreg.new ≡ sreg.old) × (sram.new ≡ sram.old)) }
{
    fast_move(ops, cpu, sram, sreg, place)
}

/// The moves that are left of a step some of which were made, up to where those of the fast path may follow.
#[inline(always)]
fn rest_moves(k: &mut Kernel, p: &mut Progress, cursor: &mut Cursor, pc: u16) -> Rest
    requires at { pc ≡ k.old.mote.cpu.pc }
    requires untorn { p.old.torn ≡ None }
    requires right { IsRight k.old.layout }
    requires mapped { IsMapped k.old.layout k.old.mote.flash.words }
    requires free { Halts (whole k.old p.old) false }
    requires partway { (begun : Machine) × IsPartway begun (whole k.old p.old) p.old.line }
    requires cursor { IsCursor k.old.layout k.old.mote.flash.words cursor.old }
    ensures left { (begun : Machine) → IsPartway begun (whole k.old p.old) p.old.line → HasLeft result begun (whole k.new p.new) p.new.line }
    ensures stands { StandsAt result (whole k.new p.new) p.new.line }
    ensures more { moves_made (whole k.old p.old) ≤ moves_made (whole k.new p.new) }
    ensures steps { p.new.steps ≤ p.old.steps }
    ensures keeps { KeepsFlash (whole k.old p.old) (whole k.new p.new) }
    ensures cursor { IsCursor k.new.layout k.new.mote.flash.words cursor.new }
{
    let mut pc = pc;
    'moves: loop {
        if pc < KERNEL_FIRST {
            if let Some(t) = look(k, cursor, pc) {
                return Rest::Reached(pc, t);
            }
            if p.line.is_none() {
                return Rest::On(pc);
            }
            pc = plain_steps(k, p, cursor, pc);
        } else {
            if service(k, p) {
                return Rest::Halted;
            }
            pc = k.mote.cpu.pc;
        }
    }
}

/// The original address whose code control, which is at `pc`, has reached, if it has.
#[inline(always)]
fn look(k: &Kernel, cursor: &mut Cursor, pc: u16) -> Option<u16>
    requires at { pc ≡ k.now.mote.cpu.pc }
    requires right { IsRight k.now.layout }
    requires mapped { IsMapped k.now.layout k.now.mote.flash.words }
    requires cursor { IsCursor k.now.layout k.now.mote.flash.words cursor.old }
    ensures found { IfSome result (λ t. IsEntry k.now.layout k.now.mote.flash.words t k.now.mote.cpu.pc) }
    ensures none { IfNone result ((t : ℕ) → ¬ IsEntry k.now.layout k.now.mote.flash.words t k.now.mote.cpu.pc) }
    ensures cursor { IsCursor k.now.layout k.now.mote.flash.words cursor.new }
{
    cursor.origin(&k.mote.flash, &k.layout, pc)
}

/// The numbers of the events to come fit 32 bits, as the devices' type keeps it; a read of their count tells so to the
/// proof.
#[inline(always)]
pub(crate) fn keeps_timely(devices: &Devices)
    ensures timely { Timely devices.now }
{
    let _ = devices.polls();
}

/// Takes down where the step led, and whether it was a crossing.
#[inline(always)]
fn settle(p: &mut Progress, reached: Option<u16>)
    requires few { p.old.crossings < 2 ^ 62 }
    ensures settled { p.new ≡ settled_at (target reached p.old.owed) p.old }
{
    let to = match (reached, p.owed) {
        (Some(t), _) => t,
        (None, Some(owed)) => owed.target,
        (None, None) => return,
    };
    p.crossings = crossings_after(p.crossings, p.at, to);
    p.at = to;
}

/// How many crossings there are after a step.
fn crossings_after(crossings: u64, from: u16, to: u16) -> u64
    requires few { crossings < 2 ^ 62 }
    ensures after { result ≡ crossings_over from to crossings }
{
    if is_crossing(from, to) {
        crossings + 1
    } else {
        crossings
    }
}
