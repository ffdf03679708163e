//! Tries of the task that has the mote.

ghost use Rattle.std.specs.Prelude.{◌≡◌, ℕ, ◌+◌, ◌<◌, ◌≤◌, ◌^◌, true, false, [], Some, None};
ghost use Rattle.page_cursor.specs.Cursors.{IsCursor};
ghost use Rattle.flat_machine.specs.FlatMachine.{is_taken};
ghost use Rattle.kernel_entry.specs.declared.kernel.End.{End as Ends};
ghost use Rattle.program_steps.specs.Machines.{flat_of};
ghost use Rattle.program_steps.specs.Ready.{IsGoing, IsQuiet};
ghost use Rattle.program_steps.specs.Stepping.{HasStepped};
ghost use Rattle.program_steps.specs.Interrupts.{is_taken_now};
ghost use Rattle.program_steps.specs.Wholes.{whole};
ghost use Rattle.tk_tasks.specs.Trying.{rest_at, rest_if, task_end, IsBehind, HasMade, HasTried};
ghost use Rattle.task_turns.specs.Checkpoints.{checks_by};

use flat_machine::Part;
use kernel_entry::{End, Kernel, Stop};
use mote_devices::Line;
use page_cursor::Cursor;
use parked_tasks::TaskEnd;
use program_steps::{Progress, enter, must_take, steps, take};

/// What tries of a task came to: the line that the last wrote, how the task ended, if it did, whether the mote goes to
/// another task, and how many there were: each is a step of the program, or ends the task.
#[derive(Clone, Copy)]
pub(crate) struct Tried {
    pub line: Option<Line>,
    pub end: Option<TaskEnd>,
    pub changes: bool,
    pub count: u64,
}

/// How a task ends that makes no further step: it is outside its part of the image, or has done all its steps.
fn rest_at(part: &Part, at: u16, left: u64) -> Option<TaskEnd>
    ensures value { result ≡ rest_at part.now at left }
{
    if !part.owns(at) {
        return Some(TaskEnd::Wild(at));
    }
    if left == 0 {
        Some(TaskEnd::Spent)
    } else {
        None
    }
}

/// How a program's end ends its task.
fn task_end(end: End) -> TaskEnd
    ensures value { result ≡ task_end end }
{
    match end {
        End::Spent => TaskEnd::Spent,
        End::Stopped(Stop::Read(pc, word)) => TaskEnd::Read(pc, word),
        End::Stopped(stop) => TaskEnd::Stopped(stop),
        End::Wild(address) => TaskEnd::Wild(address),
        // This end can't come: where tasks run, no operation on flash fails.
        End::Flash(_) => TaskEnd::Spent,
    }
}

/// Tries of the running task, which may do `left` further steps: at most `most` steps of its program, and none behind one
/// that writes a line, owes an arrival, or ends it.
pub(crate) fn try_on(
    k: &mut Kernel,
    p: &mut Progress,
    cursor: &mut Cursor,
    left: u64,
    most: u64,
) -> Tried
    requires ready { IsGoing (whole k.old p.old) }
    requires quiet { IsQuiet (whole k.old p.old) }
    requires shut { k.old.part.shut ≡ true }
    requires unfailing { k.old.mote.flash.failing ≡ [] }
    requires steps { p.old.steps + left ≤ 10 ^ 12 }
    requires some { 1 ≤ most }
    requires cursor { IsCursor k.old.layout k.old.mote.flash.words cursor.old }
    ensures tried { HasTried (whole k.old p.old) (whole k.new p.new) left result }
    ensures most { result.count ≤ most }
    ensures cursor { IsCursor k.new.layout k.new.mote.flash.words cursor.new }
{
    if let Some(end) = rest_at(&k.part, p.at, left) {
        return Tried {
            line: None,
            end: Some(end),
            changes: true,
            count: 1,
        };
    }
    if must_take(k, p) {
        return interrupted(k, p);
    }
    enter(k, p, cursor);
    stepped(k, p, cursor, left, most)
}

/// An interrupt that the running task takes: a step that is no checkpoint, or its end.
fn interrupted(k: &mut Kernel, p: &mut Progress) -> Tried
    requires ready { IsGoing (whole k.old p.old) }
    requires wanted { is_taken_now (whole k.old p.old) ≡ true }
    requires steps { p.old.steps < 2 ^ 50 }
    ensures stepped { HasStepped (whole k.old p.old) (whole k.new p.new) result.line }
    ensures behind { (left : ℕ) → IsBehind (whole k.old p.old) (whole k.new p.new) left result }
    ensures one { result.count ≡ 1 }
    ensures flash { k.new.mote.flash ≡ k.old.mote.flash }
    ensures layout { k.new.layout ≡ k.old.layout }
{
    match take(k, p) {
        None => Tried {
            line: None,
            end: None,
            changes: false,
            count: 1,
        },
        Some(end) => Tried {
            line: None,
            end: Some(task_end(end)),
            changes: true,
            count: 1,
        },
    }
}

/// Steps of the running task, from where it stands. Behind a checkpoint the mote goes to another task, and the running one
/// ends at once where it makes no further step.
fn stepped(k: &mut Kernel, p: &mut Progress, cursor: &mut Cursor, left: u64, most: u64) -> Tried
    requires ready { IsGoing (whole k.old p.old) }
    requires placed { p.old.owed ≡ None }
    requires untaken { is_taken (flat_of (whole k.old p.old)) ≡ false }
    requires some { 1 ≤ most }
    requires left { 1 ≤ left }
    requires few { p.old.steps + left ≤ 10 ^ 12 }
    requires cursor { IsCursor k.old.layout k.old.mote.flash.words cursor.old }
    ensures made { HasMade (whole k.old p.old) (whole k.new p.new) left result }
    ensures most { result.count ≤ most }
    ensures cursor { IsCursor k.new.layout k.new.mote.flash.words cursor.new }
{
    let before = p.crossings;
    let count = steps(k, p, cursor, most.min(left));
    behind(k, p, before, left - count, count)
}

/// What steps came to, of which so many are left.
fn behind(k: &Kernel, p: &Progress, before: u64, left: u64, count: u64) -> Tried
    requires quantum { 1 ≤ k.now.quantum }
    ensures line { result.line ≡ p.now.line }
    ensures count { result.count ≡ count }
    ensures on { p.now.end ≡ None → (result.changes ≡ checks_by k.now.quantum before p.now.crossings) × (result.end ≡ rest_if (checks_by k.now.quantum before p.now.crossings) k.now.part p.now.at left) }
    ensures over { (end : Ends) → p.now.end ≡ Some end → (result.changes ≡ true) × (result.end ≡ Some (task_end end)) }
{
    if let Some(end) = p.end {
        return Tried {
            line: p.line,
            end: Some(task_end(end)),
            changes: true,
            count,
        };
    }
    let changes = is_checkpoint(before, p.crossings, k.quantum);
    Tried {
        line: p.line,
        end: if changes {
            rest_at(&k.part, p.at, left)
        } else {
            None
        },
        changes,
        count,
    }
}

/// Whether the last of several steps, none of which owed an arrival before, was a checkpoint.
fn is_checkpoint(before: u64, crossings: u64, quantum: u8) -> bool
    requires quantum { 1 ≤ quantum }
    ensures value { result ≡ checks_by quantum before crossings }
{
    before < crossings && crossings % u64::from(quantum) == 0
}
