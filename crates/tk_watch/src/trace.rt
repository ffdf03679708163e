//! What stands after a step, as a row.
ghost use Rattle.std.specs.Prelude.{◌≡◌, ◌+◌, ◌<◌, ◌≤◌, ◌++◌, ℕ, false, codes, slice_index};
ghost use Rattle.byte_streams.specs.Faults.{HasCause};
ghost use Rattle.printed_text.specs.Gathering.{Gathers};
ghost use Rattle.sram_layout.specs.Bytes.{data_word_at};
ghost use Rattle.sram_layout.specs.Cells.{vsp_cell};
ghost use Rattle.tk_watch.specs.Rows.{rows};
ghost use Rattle.tk_watch.specs.TraceText.{core_told, has_row as has_row_of, register_told, row_told, trace_text};

use byte_streams::{Failed, Sink};
use mote_core::Mote;
use printed_text::{Gathered, add};
use text_lines::{Text, push, push_address, push_byte, push_number, whole};

/// Adds the row of a trace, where there is one after so many steps: their number, pc, sp and SREG, and r0 to r31.
#[inline(always)]
pub(crate) fn tell_row<K: Sink>(
    range: (u64, u64),
    step: u64,
    mote: &Mote,
    at: u16,
    gathered: &mut Gathered,
    out: &mut K,
) -> Result<(), Failed>
    ensures text { Gathers gathered.old.items gathered.new.items (K.taken out.old) (K.taken out.new) result
        (trace_text range.0 range.1 step at (data_word_at mote.now.sram vsp_cell) mote.now.cpu.sreg mote.now.cpu.r) }
    ensures cause { HasCause (K.faults out.old) (K.faults out.new) result }
{
    if has_row(range.0, range.1, step) {
        tell_whole_row(step, mote, at, gathered, out)
    } else {
        Ok(())
    }
}

/// There is a row after so many steps.
#[inline(always)]
fn has_row(first: u64, count: u64, step: u64) -> bool
    ensures value { result ≡ has_row_of first count step }
{
    first <= step && step - first < count
}

/// How many steps may be done at once behind so many, since there is no row in front of the last.
#[inline(always)]
pub(crate) fn rowless_steps(range: (u64, u64), done: u64) -> u64
    ensures some { 1 ≤ result }
    ensures rowless { (step : ℕ) → done < step → step < done + result → has_row_of range.0 range.1 step ≡ false }
{
    let (first, count) = range;
    if done < first {
        first - done
    } else if done - first < count {
        1
    } else {
        u64::MAX
    }
}

/// Adds a row.
fn tell_whole_row<K: Sink>(
    step: u64,
    mote: &Mote,
    at: u16,
    gathered: &mut Gathered,
    out: &mut K,
) -> Result<(), Failed>
    ensures text { Gathers gathered.old.items gathered.new.items (K.taken out.old) (K.taken out.new) result
        (row_told step at (data_word_at mote.now.sram vsp_cell) mote.now.cpu.sreg mote.now.cpu.r) }
    ensures cause { HasCause (K.faults out.old) (K.faults out.new) result }
{
    let core = core_text(step, at, mote.sram.vsp(), mote.cpu.sreg);
    add(&core, gathered, out)?;
    tell_registers(&mote.cpu.r, gathered, out)
}

/// Adds the registers.
fn tell_registers<K: Sink>(
    registers: &[u8; 32],
    gathered: &mut Gathered,
    out: &mut K,
) -> Result<(), Failed>
    ensures text { Gathers gathered.old.items gathered.new.items (K.taken out.old) (K.taken out.new) result (rows (λ n. register_told (slice_index registers.now n)) 32 ++ codes "\n") }
    ensures cause { HasCause (K.faults out.old) (K.faults out.new) result }
{
    add(&registers_text(registers), gathered, out)?;
    add(&whole(b"\n"), gathered, out)
}

/// The begin of a row.
#[tactic(auto, unfolding(crate::specs::TraceText::core_told))]
fn core_text(step: u64, at: u16, sp: u16, sreg: u8) -> Text
    ensures text { result.items ≡ core_told step at sp sreg }
{
    let mut text = whole(b"step ");
    push_number(&mut text, step);
    push(&mut text, b" ");
    push_address(&mut text, at);
    push(&mut text, b" ");
    push_address(&mut text, sp);
    push(&mut text, b" ");
    push_byte(&mut text, sreg);
    text
}

/// The registers, each behind a blank.
fn registers_text(registers: &[u8; 32]) -> Text
    ensures text { result.items ≡ rows (λ n. register_told (slice_index registers.now n)) 32 }
{
    let mut text = Text::new();
    let mut number = 0;
    'registers: while number < 32 {
        push(&mut text, b" ");
        push_byte(&mut text, registers[number]);
        number += 1;
    }
    text
}
