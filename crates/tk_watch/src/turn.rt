//! One turn of the machine: steps up to a device line.
ghost use Rattle.std.specs.Prelude.{◌≡◌, ◌+◌, ◌≤◌, ◌^◌, false};
ghost use Rattle.page_cursor.specs.Cursors.{IsCursor};
ghost use Rattle.program_steps.specs.Ready.{IsGoing, IsQuiet};
ghost use Rattle.program_steps.specs.Wholes.{whole};
ghost use Rattle.tk_watch.specs.Turning.{HasTurned};

use kernel_entry::Kernel;
use page_cursor::Cursor;
use program_steps::{Progress, enter, must_take, steps, take};

/// Steps of the program, at most so many, none behind one that writes a device line; or an interrupt that is taken instead,
/// which is one step. Tells how many there were; the last is none where it stopped the program.
pub(crate) fn turn(k: &mut Kernel, p: &mut Progress, cursor: &mut Cursor, most: u64) -> u64
    requires ready { IsGoing (whole k.old p.old) }
    requires quiet { IsQuiet (whole k.old p.old) }
    requires unshut { k.old.part.shut ≡ false }
    requires some { 1 ≤ most }
    requires few { p.old.steps + most ≤ 10 ^ 12 }
    requires cursor { IsCursor k.old.layout k.old.mote.flash.words cursor.old }
    ensures turned { HasTurned (whole k.old p.old) (whole k.new p.new) result p.new.line }
    ensures most { result ≤ most }
    ensures cursor { IsCursor k.new.layout k.new.mote.flash.words cursor.new }
{
    if must_take(k, p) {
        let _end = take(k, p);
        p.line = None;
        return 1;
    }
    if let Some(_) = enter(k, p, cursor) {
        p.line = None;
        return 0;
    }
    steps(k, p, cursor, most)
}
