//! The rows of the bytes that a step read and wrote by address, of those that are watched.
ghost use Rattle.std.specs.Prelude.{◌≡◌, ◌≤◌, codes, length, if◌then◌else◌};
ghost use Rattle.byte_streams.specs.Faults.{HasCause};
ghost use Rattle.printed_text.specs.Gathering.{Gathers};
ghost use Rattle.tk_watch.specs.AccessesText.{access_line as access_line_of, access_text, accesses_text, pop_text, push_text};

use crate::accesses::Access;
use avr_exec::Cpu;
use byte_streams::{Failed, Sink};
use printed_text::{Gathered, add};
use text_lines::{Text, push, push_address, push_byte, push_number, whole as whole_text};

/// What the rows of a step have in common, and the watched bytes: the first address, and how many.
#[derive(Clone, Copy)]
struct Row {
    step: u64,
    pc: u16,
    sreg: u8,
    first: u16,
    count: u32,
}

/// Adds those of the watched bytes that a step read or wrote by address, in the order in which it did. The step began at this pc with
/// this SREG, and left the core so.
pub(crate) fn tell_accesses<K: Sink>(
    step: u64,
    began: (u16, u8),
    range: (u16, u32),
    access: &Access,
    after: &Cpu,
    gathered: &mut Gathered,
    out: &mut K,
) -> Result<(), Failed>
    ensures text { Gathers gathered.old.items gathered.new.items (K.taken out.old) (K.taken out.new) result
        (accesses_text range.0 range.1 step began.0 began.1 access.now after.now) }
    ensures cause { HasCause (K.faults out.old) (K.faults out.new) result }
{
    let row = Row {
        step,
        pc: began.0,
        sreg: began.1,
        first: range.0,
        count: range.1,
    };
    let goes_on = after.pc == began.0.wrapping_add(1);
    match access {
        Access::Nothing => Ok(()),
        Access::Load(a, d) => tell(row, b"load", *a, after.byte(d), gathered, out),
        Access::Store(a, v) => tell(row, b"store", *a, *v, gathered, out),
        Access::SkipIfSet(a, bit) => tell_test(row, *a, *bit, !goes_on, gathered, out),
        Access::SkipIfClear(a, bit) => tell_test(row, *a, *bit, goes_on, gathered, out),
        Access::Set(a, bit) => tell(row, b"set", *a, *bit, gathered, out),
        Access::Clear(a, bit) => tell(row, b"clear", *a, *bit, gathered, out),
        Access::Call(sp, back) => tell_push(row, b"store", *sp, *back, gathered, out),
        Access::Interrupt(sp, back) => tell_push(row, b"interrupt", *sp, *back, gathered, out),
        Access::Return(sp) => tell_pop(row, *sp, after.pc, gathered, out),
    }
}

/// Adds a bit that was tested: its weight, where it was set.
fn tell_test<K: Sink>(
    row: Row,
    a: u16,
    bit: u8,
    is_set: bool,
    gathered: &mut Gathered,
    out: &mut K,
) -> Result<(), Failed>
    ensures text { Gathers gathered.old.items gathered.new.items (K.taken out.old) (K.taken out.new) result
        (access_text row.first row.count row.step row.pc row.sreg (codes "test") a (if is_set then bit else 0)) }
    ensures cause { HasCause (K.faults out.old) (K.faults out.new) result }
{
    let v = if is_set { bit } else { 0 };
    tell(row, b"test", a, v, gathered, out)
}

/// Adds a return address that is pushed.
fn tell_push<K: Sink>(
    row: Row,
    kind: &[u8],
    sp: u16,
    back: u16,
    gathered: &mut Gathered,
    out: &mut K,
) -> Result<(), Failed>
    requires short { length kind.now ≤ 16 }
    ensures text { Gathers gathered.old.items gathered.new.items (K.taken out.old) (K.taken out.new) result
        (push_text row.first row.count row.step row.pc row.sreg kind.now sp back) }
    ensures cause { HasCause (K.faults out.old) (K.faults out.new) result }
{
    let below = sp.wrapping_sub(1);
    tell(row, kind, sp, (back % 256) as u8, gathered, out)?;
    tell(row, kind, below, (back / 256) as u8, gathered, out)
}

/// Adds a return address that is popped.
fn tell_pop<K: Sink>(
    row: Row,
    sp: u16,
    back: u16,
    gathered: &mut Gathered,
    out: &mut K,
) -> Result<(), Failed>
    ensures text { Gathers gathered.old.items gathered.new.items (K.taken out.old) (K.taken out.new) result
        (pop_text row.first row.count row.step row.pc row.sreg sp back) }
    ensures cause { HasCause (K.faults out.old) (K.faults out.new) result }
{
    let (above, next) = (sp.wrapping_add(1), sp.wrapping_add(2));
    tell(row, b"load", above, (back / 256) as u8, gathered, out)?;
    tell(row, b"load", next, (back % 256) as u8, gathered, out)
}

/// Adds a row, where its byte is watched.
fn tell<K: Sink>(
    row: Row,
    kind: &[u8],
    a: u16,
    v: u8,
    gathered: &mut Gathered,
    out: &mut K,
) -> Result<(), Failed>
    requires short { length kind.now ≤ 16 }
    ensures text { Gathers gathered.old.items gathered.new.items (K.taken out.old) (K.taken out.new) result
        (access_text row.first row.count row.step row.pc row.sreg kind.now a v) }
    ensures cause { HasCause (K.faults out.old) (K.faults out.new) result }
{
    if row.first <= a && u32::from(a - row.first) < row.count {
        add(&access_line(row, kind, a, v), gathered, out)
    } else {
        Ok(())
    }
}

/// A row: the step, the pc at which it began, what it did, the address, the byte, and SREG in front of the step.
#[tactic(auto, unfolding(crate::specs::AccessesText::access_line))]
fn access_line(row: Row, kind: &[u8], a: u16, v: u8) -> Text
    requires short { length kind.now ≤ 16 }
    ensures text { result.items ≡ access_line_of row.step row.pc row.sreg kind.now a v }
{
    let mut text = whole_text(b"step ");
    push_number(&mut text, row.step);
    push(&mut text, b" ");
    push_address(&mut text, row.pc);
    push(&mut text, b" ");
    push(&mut text, kind);
    push(&mut text, b" ");
    push_address(&mut text, a);
    push(&mut text, b" ");
    push_byte(&mut text, v);
    push(&mut text, b" ");
    push_byte(&mut text, row.sreg);
    push(&mut text, b"\n");
    text
}
