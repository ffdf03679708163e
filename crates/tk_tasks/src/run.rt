//! The run of the tasks: plays, one after another, until every task has ended.

ghost use Rattle.std.specs.Prelude.{◌≡◌, ℕ, ◌<◌, ◌≤◌, ◌^◌, false, Some, None, slice_get, sum_by};
ghost use Rattle.byte_streams.specs.Faults.{HasCause};
ghost use Rattle.printed_text.specs.Gathering.{Gathers};
ghost use Rattle.parked_tasks.specs.declared.task.Task.{Task as TaskOf};
ghost use Rattle.tk_tasks.specs.States.{AreSound};
ghost use Rattle.tk_tasks.specs.Booted.{IsUnstarted};
ghost use Rattle.tk_tasks.specs.InTurn.{WentOutInTurn};
ghost use Rattle.tk_tasks.specs.Plays.{HasRunTasks, told_text};
ghost use Rattle.tk_tasks.specs.Trying.{tried_told};
ghost use Rattle.tk_tasks.specs.Running.{end_shown_of, HavePut};

use crate::play::Shown;
use crate::tasks::Tasks;
use byte_streams::{Failed, Sink};
use kernel_entry::{End, Stop};
use parked_tasks::{Counts, TaskEnd, counts_of};
use printed_text::{Gathered, TURN, TaskLines, add_task, send, send_in_turn, up_to_turn};

/// A task's end, as its stop line shows it, if it ended.
fn end_shown(end: Option<TaskEnd>) -> Option<End>
    ensures value { result ≡ end_shown_of end }
{
    match end {
        None => None,
        Some(TaskEnd::Spent) => Some(End::Spent),
        Some(TaskEnd::Stopped(stop)) => Some(End::Stopped(stop)),
        Some(TaskEnd::Wild(address)) => Some(End::Wild(address)),
        Some(TaskEnd::Read(pc, word)) => Some(End::Stopped(Stop::Read(pc, word))),
    }
}

/// Adds what is told of a task.
fn put_shown<K: Sink>(
    shown: &Shown,
    quantum: u8,
    gathered: &mut Gathered,
    out: &mut K,
) -> Result<(), Failed>
    requires task { shown.now.task < 4 }
    requires quantum { 1 ≤ quantum }
    ensures text { Gathers gathered.old.items gathered.new.items (K.taken out.old) (K.taken out.new) result (told_text quantum (tried_told shown.now.task shown.now.line shown.now.end shown.now.steps shown.now.crossings)) }
    ensures cause { HasCause (K.faults out.old) (K.faults out.new) result }
{
    let lines = TaskLines {
        task: shown.task,
        line: shown.line,
        end: end_shown(shown.end),
        steps: shown.steps,
        checkpoints: shown.crossings / u64::from(quantum),
    };
    add_task(&lines, gathered, out)
}

/// What the tasks have done together.
fn all_counts(t: &Tasks) -> Counts
    requires sound { AreSound t.now }
    ensures natural { result.natural ≡ sum_by (λ task. task.natural) t.now.tasks }
    ensures entries { result.entries ≡ sum_by (λ task. task.entries) t.now.tasks }
{
    counts_of(&t.tasks)
}

impl Tasks {
    /// Runs the tasks until every one has ended, where each may do n steps, and puts their device lines and stop lines to
    /// `out`, each with its task's name: where 4,096 bytes were gathered, each 65,536 steps, and before it answers.
    ///
    /// Where lines could not be put the tasks are broken, and may not be run on.
    pub fn run<K: Sink>(&mut self, n: u64, out: &mut K) -> Result<(), Failed>
        requires sound { AreSound self.old }
        requires whole { self.old.broken ≡ false }
        requires going { (i : ℕ) → (task : TaskOf) → slice_get self.old.tasks i ≡ Some task → task.end ≡ None }
        requires switches { self.old.switches ≡ 0 }
        requires steps { n ≤ 10 ^ 9 }
        ensures run { HasRunTasks n self.old self.new (K.taken out.old) (K.taken out.new) result }
        // At each 65,536 tries there was a value of the sink that had taken just what the tries up to there tell, and what it has taken
        // at the end begins with that, whether or not it failed behind it.
        ensures turns { WentOutInTurn K.taken n self.old self.new out.old out.new }
        ensures sound { AreSound self.new }
        ensures cause { HasCause (K.faults out.old) (K.faults out.new) result }
    {
        let result = put_plays(self, n, out);
        let counts = all_counts(self);
        self.natural = counts.natural;
        self.entries = counts.entries;
        self.broken = result.is_err();
        result
    }
}

/// All plays of tasks of which none was run, and all that they tell.
fn put_plays<K: Sink>(t: &mut Tasks, n: u64, out: &mut K) -> Result<(), Failed>
    requires sound { AreSound t.old }
    requires unstarted { IsUnstarted t.old }
    requires steps { n ≤ 10 ^ 9 }
    ensures put { HavePut n t.old t.new (K.taken out.old) (K.taken out.new) result }
    ensures turns { WentOutInTurn K.taken n t.old t.new out.old out.new }
    ensures sound { AreSound t.new }
    ensures whole { t.new.broken ≡ false }
    ensures cause { HasCause (K.faults out.old) (K.faults out.new) result }
{
    let mut gathered = Gathered::new();
    let mut done = 0;
    'plays: while t.goes_on() {
        send_in_turn(done, &mut gathered, out)?;
        let shown = t.play(n, up_to_turn(done));
        done = (done + shown.count) % TURN;
        put_shown(&shown, t.kernel.quantum, &mut gathered, out)?;
    }
    send(&mut gathered, out)
}
