//! The run loop: arrival, step and device line, up to a bound.

ghost use Rattle.std.specs.Prelude.{◌≡◌, ◌≤◌, ◌+◌, ◌-◌, ◌^◌, false, None, []};
ghost use Rattle.byte_streams.specs.Faults.{HasCause};
ghost use Rattle.page_cursor.specs.Cursors.{IsCursor};
ghost use Rattle.tk_run.specs.Gathering.{MayRun, HasMade};
ghost use Rattle.program_steps.specs.Ready.{IsGoing, IsQuiet};
ghost use Rattle.tk_run.specs.InTurn.{GoOutInTurn};
ghost use Rattle.tk_run.specs.Running.{HasAdvanced};
ghost use Rattle.program_steps.specs.Wholes.{whole};

use crate::End;
use crate::lines::gather;
use byte_streams::{Failed, Sink};
use kernel_entry::Kernel;
use page_cursor::Cursor;
use printed_text::{Gathered, send, send_in_turn, up_to_turn};
use program_steps::{Progress, at_bound, enter, must_take, steps, take};

/// Does up to n further steps, and puts the lines of each.
pub(crate) fn run_on<K: Sink>(
    k: &mut Kernel,
    p: &mut Progress,
    cursor: &mut Option<Box<Cursor>>,
    n: u64,
    out: &mut K,
) -> Result<End, Failed>
    requires whole { p.old.broken ≡ false }
    requires ready { p.old.end ≡ None → IsGoing (whole k.old p.old) }
    requires quiet { p.old.end ≡ None → IsQuiet (whole k.old p.old) }
    requires steps { p.old.steps + n ≤ 10 ^ 12 }
    requires unshut { k.old.part.shut ≡ false }
    ensures advanced { HasAdvanced (whole k.old p.old) (whole k.new p.new) n (K.taken out.old) (K.taken out.new) result }
    ensures others { p.new.others ≡ p.old.others }
    ensures turns { GoOutInTurn K.taken (whole k.old p.old) out.old out.new (p.new.steps - p.old.steps) }
    ensures cause { HasCause (K.faults out.old) (K.faults out.new) result }
{
    if let Some(end) = p.end {
        return Ok(end);
    }
    let result = match cursor {
        Some(cursor) => {
            cursor.forget();
            put_steps(k, p, &mut **cursor, n, out)
        }
        None => put_steps_anew(k, p, n, out),
    };
    p.broken = result.is_err();
    result
}

/// The steps of a machine without an end, and all their lines, by a cursor that is right for flash as it is.
fn put_steps<K: Sink>(
    k: &mut Kernel,
    p: &mut Progress,
    cursor: &mut Cursor,
    n: u64,
    out: &mut K,
) -> Result<End, Failed>
    requires may { MayRun (whole k.old p.old) n }
    requires cursor { IsCursor k.old.layout k.old.mote.flash.words cursor.old }
    ensures made { HasMade K.taken K.faults (whole k.old p.old) (whole k.new p.new) n [] out.old out.new result }
{
    let mut gathered = Gathered::new();
    let end = all_steps(k, p, cursor, n, &mut gathered, out)?;
    send(&mut gathered, out)?;
    Ok(end)
}

/// As `put_steps`, for a machine that keeps no cursor: by one on the stack. Not inlined, since it is large.
#[inline(never)]
fn put_steps_anew<K: Sink>(
    k: &mut Kernel,
    p: &mut Progress,
    n: u64,
    out: &mut K,
) -> Result<End, Failed>
    requires may { MayRun (whole k.old p.old) n }
    ensures made { HasMade K.taken K.faults (whole k.old p.old) (whole k.new p.new) n [] out.old out.new result }
{
    put_steps(k, p, &mut Cursor::new(), n, out)
}

/// The steps, with the last lines still gathered.
fn all_steps<K: Sink>(
    k: &mut Kernel,
    p: &mut Progress,
    cursor: &mut Cursor,
    n: u64,
    gathered: &mut Gathered,
    out: &mut K,
) -> Result<End, Failed>
    requires may { MayRun (whole k.old p.old) n }
    requires cursor { IsCursor k.old.layout k.old.mote.flash.words cursor.old }
    requires empty { gathered.old.items ≡ [] }
    ensures made { HasMade K.taken K.faults (whole k.old p.old) (whole k.new p.new) n gathered.new.items out.old out.new result }
{
    let mut done = 0;
    'steps: while done < n {
        send_in_turn(done, gathered, out)?;
        if must_take(k, p) {
            if let Some(end) = take(k, p) {
                return Ok(end);
            }
            done += 1;
            continue 'steps;
        }
        if let Some(end) = enter(k, p, cursor) {
            return Ok(end);
        }
        done += steps(k, p, cursor, up_to_turn(done).min(n - done));
        gather(p.line, gathered, out)?;
        if let Some(end) = p.end {
            return Ok(end);
        }
    }
    Ok(at_bound(k, p, cursor))
}
