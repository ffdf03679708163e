//! A run of several programs on one mote, and its printed lines.
ghost use Rattle.std.specs.Prelude.{◌≡◌, ◌⊎◌};
ghost use Rattle.tkernel_cli.specs.Answer.{Does};
ghost use Rattle.cli_words.specs.Commands.{AreTasks};
ghost use Rattle.cli_words.specs.declared.status.Status.TheVariants.{Done};
ghost use Rattle.cli_words.specs.Printed.{no_memory};
ghost use Rattle.tkernel_cli.specs.Runs.{Says};
ghost use Rattle.cli_words.specs.Stream.{stream};
ghost use Rattle.tkernel_cli.specs.TasksRuns.{HasTasksRun, status_of_task as status_at, worse as worse_of, worst};
ghost use Rattle.printed_text.specs.Counts.{tasks_count_text};

use crate::job::say;
use crate::top::Exit;
use byte_streams::Sink;
use cli_words::{Status, TaskRequest};
use kernel_entry::Stop;
use printed_text::{NO_MEMORY, task_counts};
use std::alloc::Global;
use tk_tasks::{Task, TaskEnd, Tasks};

/// Runs several programs in turn, each to its end, and puts their lines. Not inlined, as the other jobs aren't.
#[inline(never)]
pub(crate) fn run_tasks<K: Sink>(alloc: Global, request: TaskRequest, out: &mut K) -> Exit
    requires possible { AreTasks request }
    ensures done { HasTasksRun request (stream K.taken K.faults out.old) (stream K.taken K.faults out.new) result
        ⊎ Does no_memory (stream K.taken K.faults out.old) (stream K.taken K.faults out.new) result }
{
    let TaskRequest {
        image,
        scripts,
        options,
    } = request;
    let booted = Tasks::boot(alloc, &image, scripts.list(), options.quantum, options.swap);
    let mut tasks = match booted {
        Ok(tasks) => tasks,
        Err(_) => {
            return Exit {
                status: say(Status::NoMemory, NO_MEMORY, out),
                kept: None,
                tasks: None,
            };
        }
    };
    let status = match tasks.run(options.steps, out) {
        Ok(()) => tell_counts(&tasks, out),
        Err(_) => Status::WriteFault,
    };
    Exit {
        status,
        kept: None,
        tasks: Some(tasks),
    }
}

/// Puts the last line. The status is that of the worst end, unless it can't be put.
fn tell_counts<K: Sink>(tasks: &Tasks, out: &mut K) -> Status
    ensures said { Says (worst Done tasks.now.tasks)
        (tasks_count_text tasks.now.natural tasks.now.entries tasks.now.pages tasks.now.switches)
        (stream K.taken K.faults out.old) (stream K.taken K.faults out.new)
        result }
{
    let line = task_counts(tasks.natural, tasks.entries, tasks.pages, tasks.switches);
    say(worst_end(tasks.tasks.as_slice()), &line, out)
}

/// The status of the worst end of tasks.
fn worst_end(tasks: &[Task]) -> Status
    ensures status { result ≡ worst Done tasks.now }
{
    let mut rest = tasks;
    let mut status = Status::Done;
    'tasks: while let [task, others @ ..] = rest {
        status = worse(status, status_of(task.end));
        rest = others;
    }
    status
}

/// The status with the greater number.
fn worse(one: Status, other: Status) -> Status
    ensures worse { result ≡ worse_of one other }
{
    if one.number() < other.number() {
        other
    } else {
        one
    }
}

/// The status of a task's end.
fn status_of(end: Option<TaskEnd>) -> Status
    ensures status { result ≡ status_at end }
{
    match end {
        None | Some(TaskEnd::Stopped(Stop::Halted(_) | Stop::Asleep(_))) => Status::Done,
        Some(TaskEnd::Spent) => Status::Spent,
        Some(TaskEnd::Stopped(_) | TaskEnd::Wild(_) | TaskEnd::Read(_, _)) => Status::Fault,
    }
}
