//! The lines of one of several tasks.
ghost use Rattle.std.specs.Prelude.{◌≡◌, ◌<◌, ◌≤◌, ◌++◌};
ghost use Rattle.arrayvec.specs.ArrayVec.{array_vec_len};
ghost use Rattle.text_lines.specs.Pieces.{task_text};
ghost use Rattle.printed_text.specs.DeviceLines.{device_line_text};
ghost use Rattle.printed_text.specs.StopLines.{end_line};

use crate::device::device_line;
use crate::stop::stop_line;
use kernel_entry::End;
use mote_devices::Line;
use text_lines::{Text, push, whole};

/// A task's device line.
pub fn task_line(task: u8, line: Line) -> Text
    requires digit { task < 10 }
    ensures text { result.items ≡ task_text task ++ device_line_text line }
{
    of_task(task, &device_line(line))
}

/// A task's stop line.
pub fn task_stop(task: u8, end: End, steps: u64, checkpoints: u64) -> Text
    requires digit { task < 10 }
    ensures text { result.items ≡ task_text task ++ end_line end steps checkpoints }
{
    of_task(task, &stop_line(end, steps, checkpoints))
}

/// A line with the name of its task before it. Both have room: the name has 7 bytes, and a stop line has 94 at most.
fn of_task(task: u8, line: &Text) -> Text
    requires digit { task < 10 }
    requires short { array_vec_len line.now ≤ 94 }
    ensures text { result.items ≡ task_text task ++ line.now.items }
{
    let mut text = whole(&[b't', b'a', b's', b'k', b' ', b'0' + task, b' ']);
    push(&mut text, line);
    text
}
