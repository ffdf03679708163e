//! The lines of one of several tasks.
ghost use Rattle.std.specs.Prelude.{◌<◌, ◌++◌};
ghost use Rattle.byte_streams.specs.Faults.{HasCause};
ghost use Rattle.printed_text.specs.Gathering.{Gathers};
ghost use Rattle.printed_text.specs.TaskTexts.{device_told, stop_told};

use crate::sending::{Gathered, add};
use crate::task::{task_line, task_stop};
use byte_streams::{Failed, Sink};
use kernel_entry::End;
use mote_devices::Line;

/// What a task tells at once: the line that it wrote, and how it ended, with its steps and checkpoints.
#[derive(Drop)]
pub struct TaskLines {
    pub task: u8,
    pub line: Option<Line>,
    pub end: Option<End>,
    pub steps: u64,
    pub checkpoints: u64,
}

/// Adds what a task tells.
pub fn add_task<K: Sink>(
    lines: &TaskLines,
    gathered: &mut Gathered,
    out: &mut K,
) -> Result<(), Failed>
    requires digit { lines.now.task < 10 }
    ensures text { Gathers gathered.old.items gathered.new.items (K.taken out.old) (K.taken out.new) result (device_told lines.now.task lines.now.line ++ stop_told lines.now.task lines.now.end lines.now.steps lines.now.checkpoints) }
    ensures cause { HasCause (K.faults out.old) (K.faults out.new) result }
{
    add_device(lines, gathered, out)?;
    add_stop(lines, gathered, out)
}

/// Adds the device line of a task, if it wrote one.
fn add_device<K: Sink>(
    lines: &TaskLines,
    gathered: &mut Gathered,
    out: &mut K,
) -> Result<(), Failed>
    requires digit { lines.now.task < 10 }
    ensures text { Gathers gathered.old.items gathered.new.items (K.taken out.old) (K.taken out.new) result (device_told lines.now.task lines.now.line) }
    ensures cause { HasCause (K.faults out.old) (K.faults out.new) result }
{
    match lines.line {
        None => Ok(()),
        Some(line) => add(&task_line(lines.task, line), gathered, out),
    }
}

/// Adds the stop line of a task, if it ended.
fn add_stop<K: Sink>(lines: &TaskLines, gathered: &mut Gathered, out: &mut K) -> Result<(), Failed>
    requires digit { lines.now.task < 10 }
    ensures text { Gathers gathered.old.items gathered.new.items (K.taken out.old) (K.taken out.new) result (stop_told lines.now.task lines.now.end lines.now.steps lines.now.checkpoints) }
    ensures cause { HasCause (K.faults out.old) (K.faults out.new) result }
{
    match lines.end {
        None => Ok(()),
        Some(end) => add(
            &task_stop(lines.task, end, lines.steps, lines.checkpoints),
            gathered,
            out,
        ),
    }
}
