//! How many steps of a run began at each original address.
ghost use Rattle.std.specs.Prelude.{◌≡◌, ◌≢◌, ◌+◌, ◌≤◌, ◌^◌, ℕ, ◌<◌, false, None, length, slice_index, slice_set, IfOk};
ghost use Rattle.byte_streams.specs.Faults.{HasCause};
ghost use Rattle.printed_text.specs.Gathering.{Gathers};
ghost use Rattle.page_cursor.specs.Cursors.{IsCursor};
ghost use Rattle.program_steps.specs.Ready.{IsGoing, IsQuiet};
ghost use Rattle.program_steps.specs.Wholes.{whole};
ghost use Rattle.tk_watch.specs.ProfileText.{count_text as count_of, profile_text};
ghost use Rattle.tk_watch.specs.Turning.{HasTurned};
ghost use Rattle.tk_watch.specs.Watching.{HasCounted};

use crate::turn::turn;
use byte_streams::{Failed, Sink};
use kernel_entry::{End, Kernel};
use page_cursor::Cursor;
use printed_text::{Gathered, add};
use program_steps::{Progress, at_bound};
use std::alloc::{AllocError, Global};
use text_lines::{Text, push, push_address, push_number};

/// How many addresses there are.
const ADDRESSES: usize = 65_536;

/// No step yet, for each address.
pub(crate) fn no_counts(alloc: Global) -> Result<Vec<u64>, AllocError>
    ensures size { IfOk result (λ counts. length counts.items ≡ 65536) }
    ensures zero { IfOk result (λ counts. (a : ℕ) → a < 65536 → slice_index counts.items a ≡ 0) }
{
    let counts = Vec::from_elem(alloc, 0u64, ADDRESSES)?;
    Ok(counts)
}

/// Does up to n steps, and counts those that began at each address.
pub(crate) fn counted_steps(
    k: &mut Kernel,
    p: &mut Progress,
    cursor: &mut Cursor,
    n: u64,
    counts: &mut [u64],
) -> End
    requires going { p.old.end ≡ None }
    requires whole { p.old.broken ≡ false }
    requires ready { IsGoing (whole k.old p.old) }
    requires quiet { IsQuiet (whole k.old p.old) }
    requires unshut { k.old.part.shut ≡ false }
    requires begins { p.old.steps ≡ 0 }
    requires steps { n ≤ 10 ^ 12 }
    requires size { length counts.old ≡ 65536 }
    requires zero { (a : ℕ) → a < 65536 → slice_index counts.old a ≡ 0 }
    ensures counted { HasCounted (whole k.old p.old) (whole k.new p.new) n counts.new result }
    ensures size { length counts.new ≡ 65536 }
{
    cursor.forget();
    let mut done = 0;
    'turns: while done < n {
        // The read tells the proof that it is an address.
        let _at = p.at;
        let one = counted_turn(k, p, cursor, counts);
        if let Some(end) = p.end {
            return end;
        }
        done += one;
    }
    at_bound(k, p, cursor)
}

/// One turn of at most one step. Where the program goes on behind it, it is counted at the address at which it began.
fn counted_turn(k: &mut Kernel, p: &mut Progress, cursor: &mut Cursor, counts: &mut [u64]) -> u64
    requires ready { IsGoing (whole k.old p.old) }
    requires quiet { IsQuiet (whole k.old p.old) }
    requires unshut { k.old.part.shut ≡ false }
    requires few { p.old.steps + 1 ≤ 10 ^ 12 }
    requires cursor { IsCursor k.old.layout k.old.mote.flash.words cursor.old }
    requires size { length counts.old ≡ 65536 }
    requires counted { slice_index counts.old p.old.at ≤ 10 ^ 12 }
    ensures turned { HasTurned (whole k.old p.old) (whole k.new p.new) result p.new.line }
    ensures most { result ≤ 1 }
    ensures cursor { IsCursor k.new.layout k.new.mote.flash.words cursor.new }
    ensures counted { p.new.end ≡ None → counts.new ≡ slice_set counts.old p.old.at (slice_index counts.old p.old.at + 1) }
    ensures ended { p.new.end ≢ None → counts.new ≡ counts.old }
    ensures size { length counts.new ≡ 65536 }
{
    let at = p.at;
    let count = turn(k, p, cursor, 1);
    if p.end.is_none() {
        counts[at as usize] += 1;
    }
    count
}

/// Gathers the addresses at which steps began, with their counts.
pub(crate) fn tell_counts<K: Sink>(
    counts: &[u64],
    gathered: &mut Gathered,
    out: &mut K,
) -> Result<(), Failed>
    requires size { length counts.now ≡ 65536 }
    ensures text { Gathers gathered.old.items gathered.new.items (K.taken out.old) (K.taken out.new) result (profile_text (slice_index counts.now)) }
    ensures cause { HasCause (K.faults out.old) (K.faults out.new) result }
{
    let mut at = 0;
    'addresses: while at < ADDRESSES {
        add_count(at as u16, counts[at], gathered, out)?;
        at += 1;
    }
    Ok(())
}

/// Adds an address, where steps began there.
fn add_count<K: Sink>(
    at: u16,
    count: u64,
    gathered: &mut Gathered,
    out: &mut K,
) -> Result<(), Failed>
    ensures text { Gathers gathered.old.items gathered.new.items (K.taken out.old) (K.taken out.new) result (count_of at count) }
    ensures cause { HasCause (K.faults out.old) (K.faults out.new) result }
{
    if count == 0 {
        Ok(())
    } else {
        add(&count_text(at, count), gathered, out)
    }
}

/// An address, and how many steps began there.
fn count_text(at: u16, count: u64) -> Text
    requires some { 1 ≤ count }
    ensures text { result.items ≡ count_of at count }
{
    let mut text = Text::new();
    push_address(&mut text, at);
    push(&mut text, b" ");
    push_number(&mut text, count);
    push(&mut text, b"\n");
    text
}
