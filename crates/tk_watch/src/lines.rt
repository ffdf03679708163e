//! The device lines of a run, each with the number of its step.
ghost use Rattle.std.specs.Prelude.{◌≡◌, [], flat_map};
ghost use Rattle.byte_streams.specs.Faults.{HasCause};
ghost use Rattle.printed_text.specs.Gathering.{Gathers};
ghost use Rattle.step_laws.specs.Moves.{line_before};
ghost use Rattle.tk_watch.specs.NumberedLines.{numbered_line as numbered_line_of};

use byte_streams::{Failed, Sink};
use mote_devices::Line;
use printed_text::{Gathered, add, device_line};
use text_lines::{Text, push, push_number, whole};

/// Adds the line of a step, if it has one.
#[inline(always)]
pub(crate) fn tell_line<K: Sink>(
    step: u64,
    line: Option<Line>,
    gathered: &mut Gathered,
    out: &mut K,
) -> Result<(), Failed>
    ensures text { Gathers gathered.old.items gathered.new.items (K.taken out.old) (K.taken out.new) result (flat_map (numbered_line_of step) (line_before line [])) }
    ensures cause { HasCause (K.faults out.old) (K.faults out.new) result }
{
    match line {
        None => Ok(()),
        Some(line) => add(&numbered_line(step, line), gathered, out),
    }
}

/// A device line behind the number of its step.
#[tactic(auto, unfolding(crate::specs::NumberedLines::numbered_line))]
fn numbered_line(step: u64, line: Line) -> Text
    ensures text { result.items ≡ numbered_line_of step line }
{
    let mut text = whole(b"step ");
    push_number(&mut text, step);
    push(&mut text, b" ");
    push(&mut text, &device_line(line));
    text
}
