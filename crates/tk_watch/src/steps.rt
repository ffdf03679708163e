//! The steps of a watched run, and what a view tells of each.
ghost use Rattle.std.specs.Prelude.{◌≡◌, ◌+◌, ◌-◌, ◌%◌, ◌<◌, ◌≤◌, ◌^◌, ℕ, [], length, false, None, OnOk};
ghost use Rattle.byte_streams.specs.Faults.{HasCause};
ghost use Rattle.heap_frames.specs.Memory.{vmem};
ghost use Rattle.heap_frames.specs.Paged.{IsPaged};
ghost use Rattle.printed_text.specs.Gathering.{Gathers, turn_steps};
ghost use Rattle.program_steps.specs.Machines.{flat_of};
ghost use Rattle.program_steps.specs.Ready.{IsGoing, IsQuiet};
ghost use Rattle.program_steps.specs.Wholes.{whole};
ghost use Rattle.step_laws.specs.Moves.{line_before};
ghost use Rattle.tk_watch.specs.Kept.{AreHeld, AreHeldBeside, IsForeseen, IsMarked, IsPossible, IsSpared, IsUntold, step_told};
ghost use Rattle.tk_watch.specs.StepTexts.{front_text};
ghost use Rattle.tk_watch.specs.Watching.{GoOutInTurn, HasWatched};

use crate::access_rows::tell_accesses;
use crate::accesses::{Access, next_access};
use crate::changes::{bytes_from, tell_changes, within_reach};
use crate::lines::tell_line;
use crate::reading::core;
use crate::trace::{rowless_steps, tell_row};
use crate::turn::turn;
use crate::view::{MOST_BYTES, View};
use crate::visits::tell_visit;
use byte_streams::{Failed, Sink};
use kernel_entry::{End, Kernel};
use mote_core::Mote;
use page_cursor::Cursor;
use printed_text::{Gathered, send_in_turn, up_to_turn};
use program_steps::{Progress, at_bound};

/// What is known of a turn before it is made: the address at which its step begins, and SREG; which of the watched bytes the step may
/// change, those from the first of these numbers on in front of the other; and what the step reads and writes by address, where that
/// is told.
#[derive(Clone, Copy)]
pub(crate) struct Outset {
    pub pc: u16,
    pub sreg: u8,
    pub reach: (usize, usize),
    pub access: Access,
}

/// Does up to n steps, and gathers what a view tells in front of them, and of each.
pub(crate) fn watched_steps<K: Sink>(
    view: &View,
    k: &mut Kernel,
    p: &mut Progress,
    cursor: &mut Cursor,
    n: u64,
    marks: &[u64],
    gathered: &mut Gathered,
    out: &mut K,
) -> Result<End, Failed>
    requires going { p.old.end ≡ None }
    requires whole { p.old.broken ≡ false }
    requires ready { IsGoing (whole k.old p.old) }
    requires quiet { IsQuiet (whole k.old p.old) }
    requires unshut { k.old.part.shut ≡ false }
    requires begins { p.old.steps ≡ 0 }
    requires steps { n ≤ 10 ^ 12 }
    requires possible { IsPossible view.now }
    requires size { length marks.now ≡ 65536 }
    requires marked { IsMarked view.now marks.now }
    requires empty { gathered.old.items ≡ [] }
    ensures watched { HasWatched view.now (whole k.old p.old) (whole k.new p.new) n gathered.new.items (K.taken out.old) (K.taken out.new) result }
    ensures turns { GoOutInTurn K.taken view.now (whole k.old p.old) out.old p.new.steps }
    ensures cause { HasCause (K.faults out.old) (K.faults out.new) result }
{
    cursor.forget();
    tell_front(view, k, p, marks, gathered, out)?;
    let mut bytes = watched_bytes(view, &k.mote);
    let mut done = 0;
    'turns: while done < n {
        send_in_turn(done, gathered, out)?;
        let outset = outset_of(view, k, p);
        let count = turn(k, p, cursor, untold_steps(view, done).min(n - done));
        if let Some(end) = p.end {
            return Ok(end);
        }
        done += count;
        tell_step(view, done, outset, k, p, marks, &mut bytes, gathered, out)?;
    }
    Ok(at_bound(k, p, cursor))
}

/// Adds what is told in front of all steps.
fn tell_front<K: Sink>(
    view: &View,
    k: &Kernel,
    p: &Progress,
    marks: &[u64],
    gathered: &mut Gathered,
    out: &mut K,
) -> Result<(), Failed>
    requires size { length marks.now ≡ 65536 }
    requires marked { IsMarked view.now marks.now }
    ensures text { Gathers gathered.old.items gathered.new.items (K.taken out.old) (K.taken out.new) result (front_text view.now (flat_of (whole k.now p.now)).now) }
    ensures cause { HasCause (K.faults out.old) (K.faults out.new) result }
{
    match view {
        View::Trace(first, count) => tell_row((*first, *count), 0, &k.mote, p.at, gathered, out),
        View::Visits(_) => tell_visit(marks, 0, p.at, gathered, out),
        _ => Ok(()),
    }
}

/// The bytes that are watched.
fn watched_bytes(view: &View, mote: &Mote) -> [u8; MOST_BYTES]
    requires paged { IsPaged mote.now.sram mote.now.swap }
    requires possible { IsPossible view.now }
    ensures size { length result ≡ 64 }
    ensures held { AreHeld view.now (vmem mote.now.sram mote.now.swap) result }
{
    match view {
        View::Changes(at, count) => bytes_from(mote, *at, *count),
        _ => [0; MOST_BYTES],
    }
}

/// What is known of the next turn.
#[inline(always)]
fn outset_of(view: &View, k: &Kernel, p: &Progress) -> Outset
    requires ready { IsGoing (whole k.now p.now) }
    requires possible { IsPossible view.now }
    ensures pc { result.pc ≡ p.now.at }
    ensures sreg { result.sreg ≡ k.now.mote.cpu.sreg }
    ensures spared { IsSpared view.now (whole k.now p.now) result.reach.0 result.reach.1 }
    ensures foreseen { IsForeseen view.now (whole k.now p.now) result.access }
{
    Outset {
        pc: p.at,
        sreg: k.mote.cpu.sreg,
        reach: reach_of(view, k, p),
        access: access_in(view, k, p),
    }
}

/// What the next step reads and writes by address, where that is told.
#[inline(always)]
fn access_in(view: &View, k: &Kernel, p: &Progress) -> Access
    requires ready { IsGoing (whole k.now p.now) }
    ensures foreseen { IsForeseen view.now (whole k.now p.now) result }
{
    match view {
        View::Accesses(_, _) => next_access(k, p),
        _ => Access::Nothing,
    }
}

/// Which of the watched bytes the next step may change.
#[inline(always)]
fn reach_of(view: &View, k: &Kernel, p: &Progress) -> (usize, usize)
    requires ready { IsGoing (whole k.now p.now) }
    requires possible { IsPossible view.now }
    ensures spared { IsSpared view.now (whole k.now p.now) result.0 result.1 }
{
    match view {
        View::Changes(at, count) => within_reach(k, p, *at, *count),
        _ => (0, 0),
    }
}

/// How many steps may be done at once behind so many, since nothing is told of those in front of the last, unless they write a
/// line.
#[inline(always)]
fn untold_steps(view: &View, done: u64) -> u64
    ensures some { 1 ≤ result }
    ensures most { result ≤ turn_steps - done % turn_steps }
    ensures untold { (step : ℕ) → done < step → step < done + result → IsUntold view.now step }
{
    match view {
        View::Trace(first, count) => rowless_steps((*first, *count), done).min(up_to_turn(done)),
        View::Visits(_) | View::Changes(_, _) | View::Accesses(_, _) => 1,
        _ => up_to_turn(done),
    }
}

/// Adds what is told of the last step of a turn.
#[inline(always)]
fn tell_step<K: Sink>(
    view: &View,
    step: u64,
    outset: Outset,
    k: &Kernel,
    p: &Progress,
    marks: &[u64],
    bytes: &mut [u8; MOST_BYTES],
    gathered: &mut Gathered,
    out: &mut K,
) -> Result<(), Failed>
    requires paged { IsPaged k.now.mote.sram k.now.mote.swap }
    requires possible { IsPossible view.now }
    requires places { length marks.now ≡ 65536 }
    requires marked { IsMarked view.now marks.now }
    requires size { length bytes.old ≡ 64 }
    requires held { AreHeldBeside view.now (vmem k.now.mote.sram k.now.mote.swap) outset.reach.0 outset.reach.1 bytes.old }
    ensures text { Gathers gathered.old.items gathered.new.items (K.taken out.old) (K.taken out.new) result
        (step_told view.now step (line_before p.now.line []) outset.pc outset.sreg bytes.old outset.access (flat_of (whole k.now p.now)).now) }
    ensures held { OnOk result (AreHeld view.now (vmem k.now.mote.sram k.now.mote.swap) bytes.new) }
    ensures size { length bytes.new ≡ 64 }
    ensures cause { HasCause (K.faults out.old) (K.faults out.new) result }
{
    match view {
        View::Lines => tell_line(step, p.line, gathered, out),
        View::Trace(first, count) => tell_row((*first, *count), step, &k.mote, p.at, gathered, out),
        View::Visits(_) => tell_visit(marks, step, p.at, gathered, out),
        View::Changes(at, count) => {
            tell_changes(step, outset, (*at, *count), &k.mote, bytes, gathered, out)
        }
        View::Accesses(first, count) => {
            let began = (outset.pc, outset.sreg);
            let after = core(k, p.at);
            tell_accesses(
                step,
                began,
                (*first, *count),
                &outset.access,
                &after,
                gathered,
                out,
            )
        }
        _ => Ok(()),
    }
}
