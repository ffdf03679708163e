//! Plays of the running task, with the mote changed from one task to the next.

ghost use Rattle.std.specs.Prelude.{◌≡◌, ◌+◌, ◌<◌, ◌≤◌, ◌^◌, ◌↔◌, false, Some, None, IsTrue, length, slice_get};
ghost use Rattle.program_steps.specs.Wholes.{whole};
ghost use Rattle.parked_tasks.specs.declared.task.Task.{Task as TaskOf};
ghost use Rattle.tk_tasks.specs.States.{AreSound, machine_of, owed_of, Tasks as TasksOf};
ghost use Rattle.tk_tasks.specs.Trying.{HasPlayed, tried_told, kept_task, stub_in};

use crate::tasks::Tasks;
use crate::trying::try_on;
use kernel_entry::Owed;
use mote_devices::Line;
use parked_tasks::{Task, TaskEnd, arrivals_of_others};
use program_steps::Progress;

/// What is told of the task that ran: the line that it wrote, and how it ended, with its steps and crossings; and how many
/// tries there were.
#[derive(Clone, Copy)]
pub(crate) struct Shown {
    pub task: u8,
    pub line: Option<Line>,
    pub end: Option<TaskEnd>,
    pub steps: u64,
    pub crossings: u64,
    pub count: u64,
}

/// Writes down how far a task has come, and how it ended, if it did.
fn keep(task: &mut Task, p: &Progress, end: Option<TaskEnd>)
    requires room { p.now.before + p.now.since < 2 ^ 64 }
    ensures kept { (tasks : TasksOf) → task.new ≡ kept_task task.old (whole tasks.kernel p.now) end }
{
    task.at = p.at;
    task.owed = match p.owed {
        None => None,
        Some(owed) => Some(owed.target),
    };
    task.due = p.due;
    task.end = end;
    task.steps = p.steps;
    task.crossings = p.crossings;
    task.natural = p.before + p.since;
    task.entries = p.entries;
    task.since = p.since;
    task.longest = p.longest.max(p.since);
}

/// The arrival that the running task owes.
fn owed_of(owed: Option<u16>, stub: Option<u16>) -> Option<Owed>
    ensures value { result ≡ owed_of owed stub }
{
    match owed {
        None => None,
        Some(target) => Some(Owed { target, stub }),
    }
}

/// The stub that asked for the arrival that is owed.
fn stub_in(owed: Option<Owed>) -> Option<u16>
    ensures value { result ≡ stub_in owed }
{
    match owed {
        None => None,
        Some(owed) => owed.stub,
    }
}

impl Tasks {
    /// How far the running task has come, which has not ended.
    fn progress(&self) -> Progress
        requires sound { AreSound self.now }
        ensures progress { (task : TaskOf) → slice_get self.now.tasks self.now.running ≡ Some task → task.end ≡ None → whole self.now.kernel result ≡ machine_of self.now self.now.running task }
    {
        let task = &self.tasks[usize::from(self.running)];
        Progress {
            at: task.at,
            owed: owed_of(task.owed, self.stub),
            end: None,
            due: task.due,
            torn: None,
            broken: false,
            steps: task.steps,
            crossings: task.crossings,
            before: task.natural - task.since,
            entries: task.entries,
            pages: self.pages,
            since: task.since,
            longest: task.longest,
            began: 0,
            others: arrivals_of_others(&self.tasks, self.running),
            line: None,
        }
    }

    /// Whether the running task has not ended.
    pub(crate) fn goes_on(&self) -> bool
        requires one_runs { self.now.running < length self.now.tasks }
        ensures going { (task : TaskOf) → slice_get self.now.tasks self.now.running ≡ Some task → (IsTrue result ↔ (task.end ≡ None)) }
    {
        self.tasks[usize::from(self.running)].end.is_none()
    }

    /// Some plays of the running task, which has not ended and may do n steps in all: at most `most` steps of its program.
    pub(crate) fn play(&mut self, n: u64, most: u64) -> Shown
        requires sound { AreSound self.old }
        requires whole { self.old.broken ≡ false }
        requires going { (task : TaskOf) → slice_get self.old.tasks self.old.running ≡ Some task → task.end ≡ None }
        requires steps { n ≤ 10 ^ 12 }
        requires some { 1 ≤ most }
        requires room { self.old.switches < 2 ^ 63 }
        ensures sound { AreSound self.new }
        ensures whole { self.new.broken ≡ false }
        ensures played { HasPlayed n self.old self.new (tried_told result.task result.line result.end result.steps result.crossings) result.count }
        ensures task { result.task < 4 }
        ensures quantum { self.new.kernel.quantum ≡ self.old.kernel.quantum }
        ensures most { result.count ≤ most }
    {
        let running = self.running;
        let mut p = self.progress();
        let left = n.saturating_sub(p.steps);
        let tried = try_on(&mut self.kernel, &mut p, &mut *self.cursor, left, most);
        self.stub = stub_in(p.owed);
        self.pages = p.pages;
        keep(&mut self.tasks[usize::from(running)], &p, tried.end);
        if tried.changes {
            self.change();
        }
        Shown {
            task: running,
            line: tried.line,
            end: tried.end,
            steps: p.steps,
            crossings: p.crossings,
            count: tried.count,
        }
    }
}
