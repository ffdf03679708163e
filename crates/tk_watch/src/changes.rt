//! The bytes that a step changes, of those that are watched.
ghost use Rattle.std.specs.Prelude.{◌≡◌, ◌+◌, ◌<◌, ◌≤◌, ℕ, false, length, slice_index, true, IfSome, OnOk, Some as Just};
ghost use Rattle.avr_decode.specs.Decoding.{size_by_first_word};
ghost use Rattle.avr_decode.specs.Program.{instruction_at};
ghost use Rattle.avr_isa.specs.declared.form.Form.{Form as FormValue};
ghost use Rattle.byte_streams.specs.Faults.{HasCause};
ghost use Rattle.flash_words.specs.Layouts.{image_of};
ghost use Rattle.flash_words.specs.Pages.{word_at};
ghost use Rattle.heap_frames.specs.Memory.{vmem};
ghost use Rattle.heap_frames.specs.Paged.{IsPaged};
ghost use Rattle.printed_text.specs.Gathering.{Gathers};
ghost use Rattle.program_steps.specs.Interrupts.{is_taken_now};
ghost use Rattle.program_steps.specs.Ready.{IsGoing};
ghost use Rattle.program_steps.specs.Wholes.{whole};
ghost use Rattle.tk_watch.specs.ChangesText.{change_line as change_line_of, change_text, changes_text};
ghost use Rattle.tk_watch.specs.Kept.{IsWithin, Spares};
ghost use Rattle.tk_watch.specs.Touching.{IsTouched, LiesInImage};

use crate::reading::{core, memory_byte};
use crate::steps::Outset;
use crate::view::MOST_BYTES;
use avr_exec::{Ask, asks};
use avr_isa::Instr;
use byte_streams::{Failed, Sink};
use flash_model::{Flash, Layout};
use kernel_entry::Kernel;
use mote_core::Mote;
use printed_text::{Gathered, add};
use program_steps::{Progress, must_take};
use text_lines::{Text, push, push_address, push_byte, push_number, whole as whole_text};

/// So many bytes of memory from an address on, and 0 behind them.
pub(crate) fn bytes_from(mote: &Mote, at: u16, count: u8) -> [u8; MOST_BYTES]
    requires paged { IsPaged mote.now.sram mote.now.swap }
    requires few { count ≤ 64 }
    requires within { at + count ≤ 65536 }
    ensures size { length result ≡ 64 }
    ensures held { (i : ℕ) → i < count → slice_index result i ≡ slice_index (vmem mote.now.sram mote.now.swap) (at + i) }
{
    let mut bytes = [0; MOST_BYTES];
    let mut i = 0;
    'bytes: while i < count {
        bytes[i as usize] = memory_byte(mote, at + i as u16);
        i += 1;
    }
    bytes
}

/// Which of so many bytes from an address on the next step may change: any, where it is an interrupt.
#[inline(always)]
pub(crate) fn within_reach(k: &Kernel, p: &Progress, at: u16, count: u8) -> (usize, usize)
    requires ready { IsGoing (whole k.now p.now) }
    ensures order { result.0 ≤ result.1 }
    ensures few { result.1 ≤ count }
    ensures spared { (i : ℕ) → i < count → ¬ IsWithin result.0 result.1 i → (is_taken_now (whole k.now p.now) ≡ false) × Spares (whole k.now p.now) (at + i) }
{
    if must_take(k, p) {
        return (0, usize::from(count));
    }
    match known_instruction(&k.mote.flash, &k.layout, p.at) {
        Some(instr) => touched(asks(instr, &core(k, p.at)), at, count),
        None => (0, usize::from(count)),
    }
}

/// The instruction at an address of the image, where there is one, and flash has decoded the words that the image has there.
#[inline(always)]
fn known_instruction<'a>(flash: &'a Flash, layout: &Layout, at: u16) -> Option<&'a Instr>
    ensures same { IfSome result (λ instr. (form : FormValue) → instruction_at (image_of layout.now flash.now.words) at ≡ Just form → instr.now ≡ form) }
{
    if lies_in_image(flash, layout, at) {
        if let Some(decoded) = flash.decoded(at) {
            return Some(&decoded.instr);
        }
    }
    None
}

/// The instruction at an address lies in the image, where there is one.
#[inline(always)]
fn lies_in_image(flash: &Flash, layout: &Layout, at: u16) -> bool
    ensures lies { result ≡ true → LiesInImage layout.now flash.now.words at }
{
    let behind = u32::from(at) + 1;
    let end = u32::from(layout.image_words);
    behind < end || behind == end && has_one_word(flash, at)
}

/// The instruction at an address has one word, if there is one, as is told where flash has decoded the word in front of it.
fn has_one_word(flash: &Flash, at: u16) -> bool
    ensures size { result ≡ true → size_by_first_word (word_at flash.now.words at) ≡ 1 }
{
    match flash.decoded(at.wrapping_sub(1)) {
        Some(decoded) => decoded.next_size == 1,
        None => false,
    }
}

/// Which of so many bytes from an address on an ask may change.
#[inline(always)]
fn touched(ask: Ask, at: u16, count: u8) -> (usize, usize)
    ensures order { result.0 ≤ result.1 }
    ensures few { result.1 ≤ count }
    ensures all { (i : ℕ) → i < count → IsTouched ask (at + i) → IsWithin result.0 result.1 i }
{
    match ask {
        Ask::Store(a, _) => part(a, a, at, count),
        Ask::PushByte(sp, _) => part(sp, sp, at, count),
        Ask::PushReturn(sp, _) => part(sp.saturating_sub(1), sp, at, count),
        _ => (0, 0),
    }
}

/// Which of so many bytes from an address on are those from one address to another.
#[inline(always)]
fn part(first: u16, last: u16, at: u16, count: u8) -> (usize, usize)
    requires range { first ≤ last }
    ensures order { result.0 ≤ result.1 }
    ensures few { result.1 ≤ count }
    ensures all { (i : ℕ) → i < count → first ≤ at + i → at + i ≤ last → IsWithin result.0 result.1 i }
{
    let end = u32::from(at) + u32::from(count);
    if last < at || end <= u32::from(first) {
        return (0, 0);
    }
    let from = first.saturating_sub(at);
    let to = (last - at).saturating_add(1).min(u16::from(count));
    (usize::from(from), usize::from(to))
}

/// Adds those of the watched bytes that a step changed, and keeps them as they are now.
pub(crate) fn tell_changes<K: Sink>(
    step: u64,
    outset: Outset,
    range: (u16, u8),
    mote: &Mote,
    bytes: &mut [u8; MOST_BYTES],
    gathered: &mut Gathered,
    out: &mut K,
) -> Result<(), Failed>
    requires paged { IsPaged mote.now.sram mote.now.swap }
    requires size { length bytes.old ≡ 64 }
    requires few { range.1 ≤ 64 }
    requires within { range.0 + range.1 ≤ 65536 }
    requires order { outset.reach.0 ≤ outset.reach.1 }
    requires reach { outset.reach.1 ≤ range.1 }
    requires held { (i : ℕ) → i < range.1 → ¬ IsWithin outset.reach.0 outset.reach.1 i → slice_index bytes.old i ≡ slice_index (vmem mote.now.sram mote.now.swap) (range.0 + i) }
    ensures text { Gathers gathered.old.items gathered.new.items (K.taken out.old) (K.taken out.new) result
        (changes_text range.0 range.1 step outset.pc (slice_index bytes.old) (λ i. slice_index (vmem mote.now.sram mote.now.swap) (range.0 + i))) }
    ensures held { OnOk result ((i : ℕ) → i < range.1 → slice_index bytes.new i ≡ slice_index (vmem mote.now.sram mote.now.swap) (range.0 + i)) }
    ensures size { length bytes.new ≡ 64 }
    ensures cause { HasCause (K.faults out.old) (K.faults out.new) result }
{
    let mut i = outset.reach.0;
    'bytes: while i < outset.reach.1 {
        let a = range.0 + i as u16;
        let now = memory_byte(mote, a);
        tell_byte((step, outset.pc), a, (bytes[i], now), gathered, out)?;
        bytes[i] = now;
        i += 1;
    }
    Ok(())
}

/// Adds a byte, where it isn't what it was.
fn tell_byte<K: Sink>(
    step: (u64, u16),
    a: u16,
    values: (u8, u8),
    gathered: &mut Gathered,
    out: &mut K,
) -> Result<(), Failed>
    ensures text { Gathers gathered.old.items gathered.new.items (K.taken out.old) (K.taken out.new) result (change_text step.0 step.1 a values.0 values.1) }
    ensures cause { HasCause (K.faults out.old) (K.faults out.new) result }
{
    if values.0 == values.1 {
        Ok(())
    } else {
        add(&change_line(step, a, values), gathered, out)
    }
}

/// A byte that a step changed: the step, the pc at which it began, the address, the byte before and after.
#[tactic(auto, unfolding(crate::specs::ChangesText::change_line))]
fn change_line(step: (u64, u16), a: u16, values: (u8, u8)) -> Text
    ensures text { result.items ≡ change_line_of step.0 step.1 a values.0 values.1 }
{
    let mut text = whole_text(b"step ");
    push_number(&mut text, step.0);
    push(&mut text, b" ");
    push_address(&mut text, step.1);
    push(&mut text, b" ");
    push_address(&mut text, a);
    push(&mut text, b" ");
    push_byte(&mut text, values.0);
    push(&mut text, b" ");
    push_byte(&mut text, values.1);
    push(&mut text, b"\n");
    text
}
