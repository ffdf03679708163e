//! Steps of the program: each from one entry of its code to the next, or to the kernel.

ghost use Rattle.std.specs.Prelude.{◌≡◌, ◌≢◌, ◌+◌, ◌<◌, ◌≤◌, ◌^◌, false, None, IfSome, IfNone};
ghost use Rattle.page_cursor.specs.Cursors.{IsCursor};
ghost use Rattle.flat_machine.specs.FlatMachine.{is_taken};
ghost use Rattle.program_steps.specs.Machines.{flat_of};
ghost use Rattle.program_steps.specs.Ready.{IsGoing, IsQuiet};
ghost use Rattle.program_steps.specs.Several.{HasFollowed, HasDone};
ghost use Rattle.program_steps.specs.Wholes.{whole};

use crate::arrival::{arrive_between_steps, is_followed};
use crate::progress::Progress;
use crate::walk::{keeps_timely, walk};
use kernel_entry::Kernel;
use page_cursor::Cursor;

/// Makes up to `most` steps, with the arrivals between them that leave flash as it is. It stops early behind a step that wrote a
/// device line, stopped the program, or owes an arrival that may change flash, that is refused, or at which an interrupt is due.
/// Tells how many steps there were. Only the first may begin where an interrupt is due; where it stops the program, one stays due.
#[inline(never)]
pub fn steps(k: &mut Kernel, p: &mut Progress, cursor: &mut Cursor, most: u64) -> u64
    requires ready { IsGoing (whole k.old p.old) }
    requires placed { p.old.owed ≡ None }
    requires untaken { is_taken (flat_of (whole k.old p.old)) ≡ false }
    requires some { 1 ≤ most }
    requires few { p.old.steps + most ≤ 10 ^ 12 }
    requires cursor { IsCursor k.old.layout k.old.mote.flash.words cursor.old }
    ensures done { HasDone (whole k.old p.old) (whole k.new p.new) result p.new.line }
    ensures most { result ≤ most }
    ensures cursor { IsCursor k.new.layout k.new.mote.flash.words cursor.new }
{
    let due = p.due;
    p.due = false;
    let count = undue_steps(k, p, cursor, most);
    if count != 1 {
        return count;
    }
    if p.end.is_none() {
        return 1;
    }
    p.due = due;
    1
}

/// Makes steps where no interrupt is due.
#[inline(always)]
fn undue_steps(k: &mut Kernel, p: &mut Progress, cursor: &mut Cursor, most: u64) -> u64
    requires ready { IsGoing (whole k.old p.old) }
    requires placed { p.old.owed ≡ None }
    requires undue { p.old.due ≡ false }
    requires some { 1 ≤ most }
    requires few { p.old.steps + most ≤ 10 ^ 12 }
    requires cursor { IsCursor k.old.layout k.old.mote.flash.words cursor.old }
    ensures done { HasDone (whole k.old p.old) (whole k.new p.new) result p.new.line }
    ensures ended { p.new.end ≢ None → p.new.owed ≡ None }
    ensures most { result ≤ most }
    ensures cursor { IsCursor k.new.layout k.new.mote.flash.words cursor.new }
{
    p.line = None;
    let begin = p.steps;
    let end = begin + most;
    let mut pc = k.mote.cpu.pc;
    'steps: loop {
        keeps_timely(&k.mote.devices);
        p.steps += 1;
        let led = walk(k, p, cursor, pc, end);
        match followed(k, p, cursor, led, end) {
            Some(place) => pc = place,
            None => return steps_since(begin, p),
        }
    }
}

/// The place from where the next step may follow, behind one that has led to such an entry, or to an arrival, which is made
/// then: there are fewer than so many, and this one wrote no line. If none may, nothing is done.
#[inline(always)]
fn followed(
    k: &mut Kernel,
    p: &mut Progress,
    cursor: &mut Cursor,
    led: Option<u16>,
    end: u64,
) -> Option<u16>
    requires going { p.old.end ≡ None → IsGoing (whole k.old p.old) × IsQuiet (whole k.old p.old) }
    requires ended { p.old.end ≢ None → p.old.owed ≡ None }
    requires led { IfSome led (λ pc. (pc ≡ k.old.mote.cpu.pc) × (p.old.owed ≡ None) × (p.old.end ≡ None) × (p.old.due ≡ false)) }
    requires cursor { IsCursor k.old.layout k.old.mote.flash.words cursor.old }
    ensures followed { IfSome result (λ _. HasFollowed (whole k.old p.old) (whole k.new p.new)) }
    ensures pc { IfSome result (λ pc. pc ≡ k.new.mote.cpu.pc) }
    ensures fewer { IfSome result (λ _. p.old.steps < end) }
    ensures silent { IfSome result (λ _. (p.old.line ≡ None) × (p.new.line ≡ None)) }
    ensures none { IfNone result ((k.new ≡ k.old) × (p.new ≡ p.old)) }
    ensures cursor { IsCursor k.new.layout k.new.mote.flash.words cursor.new }
{
    match led {
        Some(place) => {
            if is_followed(p, end) {
                Some(place)
            } else {
                None
            }
        }
        None => {
            if arrive_between_steps(k, p, cursor, end) {
                Some(k.mote.cpu.pc)
            } else {
                None
            }
        }
    }
}

/// How many steps there were since so many were counted. One that stopped the program isn't counted.
fn steps_since(begin: u64, p: &Progress) -> u64
    requires begun { begin ≤ p.now.steps }
    requires few { p.now.steps ≤ 10 ^ 12 }
    ensures going { p.now.end ≡ None → begin + result ≡ p.now.steps }
    ensures ended { p.now.end ≢ None → begin + result ≡ p.now.steps + 1 }
{
    let counted = p.steps - begin;
    if p.end.is_some() {
        counted + 1
    } else {
        counted
    }
}
