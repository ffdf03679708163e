//! The memory that a run leaves.
ghost use Rattle.std.specs.Prelude.{◌≡◌, ◌+◌, ◌≤◌, [], MatchOption};
ghost use Rattle.byte_streams.specs.Faults.{HasCause};
ghost use Rattle.heap_frames.specs.Memory.{vmem};
ghost use Rattle.heap_frames.specs.Paged.{IsPaged};
ghost use Rattle.printed_text.specs.Gathering.{Gathers};
ghost use Rattle.tk_watch.specs.MemoryText.{memory_text, row_text};

use crate::reading::memory_byte;
use byte_streams::{Failed, Sink};
use mote_core::Mote;
use printed_text::{Gathered, add};
use text_lines::{Text, push, push_address, push_byte};

/// How many bytes a row has.
const ROW: u16 = 16;

/// Gathers the rows of the program's memory that are not all 0.
pub(crate) fn tell_memory<K: Sink>(
    mote: &Mote,
    gathered: &mut Gathered,
    out: &mut K,
) -> Result<(), Failed>
    requires paged { IsPaged mote.now.sram mote.now.swap }
    ensures text { Gathers gathered.old.items gathered.new.items (K.taken out.old) (K.taken out.new) result (memory_text (vmem mote.now.sram mote.now.swap)) }
    ensures cause { HasCause (K.faults out.old) (K.faults out.new) result }
{
    let mut row = 0;
    'rows: while row < 4096 {
        add_row(mote, ROW * row, gathered, out)?;
        row += 1;
    }
    Ok(())
}

/// Adds the row of the bytes from an address on, unless they are all 0.
fn add_row<K: Sink>(
    mote: &Mote,
    at: u16,
    gathered: &mut Gathered,
    out: &mut K,
) -> Result<(), Failed>
    requires row { at + 16 ≤ 65536 }
    requires paged { IsPaged mote.now.sram mote.now.swap }
    ensures text { Gathers gathered.old.items gathered.new.items (K.taken out.old) (K.taken out.new) result (row_text (vmem mote.now.sram mote.now.swap) at) }
    ensures cause { HasCause (K.faults out.old) (K.faults out.new) result }
{
    match row_line(mote, at) {
        None => Ok(()),
        Some(line) => add(&line, gathered, out),
    }
}

/// The row of the bytes from an address on, unless they are all 0.
fn row_line(mote: &Mote, at: u16) -> Option<Text>
    requires row { at + 16 ≤ 65536 }
    requires paged { IsPaged mote.now.sram mote.now.swap }
    ensures text { MatchOption result (row_text (vmem mote.now.sram mote.now.swap) at ≡ []) (λ text. text.items ≡ row_text (vmem mote.now.sram mote.now.swap) at) }
{
    let mut text = Text::new();
    push_address(&mut text, at);
    let mut filled = false;
    let mut i = 0;
    'bytes: while i < ROW {
        let byte = memory_byte(mote, at + i);
        push(&mut text, b" ");
        push_byte(&mut text, byte);
        filled |= byte != 0;
        i += 1;
    }
    push(&mut text, b"\n");
    if filled { Some(text) } else { None }
}
