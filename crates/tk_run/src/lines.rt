//! The device lines of a run.

ghost use Rattle.std.specs.Prelude.{◌≢◌, None, [], OnErr};
ghost use Rattle.byte_streams.specs.Faults.{HasCause};
ghost use Rattle.step_laws.specs.Moves.{line_before};
ghost use Rattle.printed_text.specs.Gathering.{Gathers};
ghost use Rattle.printed_text.specs.DeviceLines.{lines_text};

use byte_streams::{Failed, Sink};
use mote_devices::Line;
use printed_text::{Gathered, add, device_line};

/// Adds the line of a step, if it has one, to what was gathered.
pub(crate) fn gather<K: Sink>(
    line: Option<Line>,
    gathered: &mut Gathered,
    out: &mut K,
) -> Result<(), Failed>
    ensures text { Gathers gathered.old.items gathered.new.items (K.taken out.old) (K.taken out.new) result (lines_text (line_before line [])) }
    ensures line { OnErr result (line ≢ None) }
    ensures cause { HasCause (K.faults out.old) (K.faults out.new) result }
{
    match line {
        None => Ok(()),
        Some(line) => add(&device_line(line), gathered, out),
    }
}
