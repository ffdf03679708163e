//! The state that a run leaves.
ghost use Rattle.std.specs.Prelude.{◌≡◌, ◌+◌, ◌≤◌, ◌++◌, count_by, slice_index};
ghost use Rattle.arrayvec.specs.ArrayVec.{array_vec_len};
ghost use Rattle.byte_streams.specs.Faults.{HasCause};
ghost use Rattle.heap_frames.specs.Frames.{pages};
ghost use Rattle.heap_frames.specs.Paged.{IsPaged};
ghost use Rattle.printed_text.specs.Gathering.{Gathers};
ghost use Rattle.mote_devices.specs.State.{stored, mask_address};
ghost use Rattle.program_steps.specs.Machines.{flat_of};
ghost use Rattle.program_steps.specs.Wholes.{whole};
ghost use Rattle.tk_watch.specs.Rows.{rows};
ghost use Rattle.tk_watch.specs.StateText.{core_text as core_of, counts_text as counts_of, of_all, register_text as register_of, requests_text as requests_of, state_text, taken_of};

use byte_streams::{Failed, Sink};
use kernel_entry::Kernel;
use mote_core::Mote;
use mote_devices::Devices;
use printed_text::{Gathered, add};
use program_steps::Progress;
use text_lines::{Text, push, push_address, push_byte, push_number, whole as whole_text};

/// How many slots there are, and how many events.
#[derive(Clone, Copy)]
pub(crate) struct Bounds {
    pub slots: u8,
    pub events: usize,
}

/// Gathers the lines of the state of a machine: the core with its registers; the polls, the events and the pages of the heap; then
/// the interrupts and the operations on flash.
pub(crate) fn tell_state<K: Sink>(
    k: &Kernel,
    p: &Progress,
    bounds: Bounds,
    gathered: &mut Gathered,
    out: &mut K,
) -> Result<(), Failed>
    requires paged { IsPaged k.now.mote.sram k.now.mote.swap }
    ensures text { Gathers gathered.old.items gathered.new.items (K.taken out.old) (K.taken out.new) result (state_text bounds.slots bounds.events k.now.mote.flash.ops (flat_of (whole k.now p.now)).now) }
    ensures cause { HasCause (K.faults out.old) (K.faults out.new) result }
{
    let mote = &k.mote;
    let core = core_text(p.at, mote.sram.vsp(), mote.cpu.sreg);
    add(&core, gathered, out)?;
    tell_registers_and_counts(mote, bounds, gathered, out)
}

/// Gathers what stands behind the core.
fn tell_registers_and_counts<K: Sink>(
    mote: &Mote,
    bounds: Bounds,
    gathered: &mut Gathered,
    out: &mut K,
) -> Result<(), Failed>
    requires paged { IsPaged mote.now.sram mote.now.swap }
    ensures text { Gathers gathered.old.items gathered.new.items (K.taken out.old) (K.taken out.new) result
        (rows (λ n. register_of n (slice_index mote.now.cpu.r n)) 32
        ++ (counts_of mote.now.devices.polls (taken_of bounds.events mote.now.devices) bounds.events (count_by (λ has. has) (pages mote.now.sram)) bounds.slots
        ++ requests_of (stored mote.now.devices mask_address) mote.now.devices.received.pending mote.now.flash.ops)) }
    ensures cause { HasCause (K.faults out.old) (K.faults out.new) result }
{
    tell_registers(&mote.cpu.r, gathered, out)?;
    tell_counts(mote, bounds, gathered, out)
}

/// Gathers a line for each register.
fn tell_registers<K: Sink>(
    registers: &[u8; 32],
    gathered: &mut Gathered,
    out: &mut K,
) -> Result<(), Failed>
    ensures text { Gathers gathered.old.items gathered.new.items (K.taken out.old) (K.taken out.new) result (rows (λ n. register_of n (slice_index registers.now n)) 32) }
    ensures cause { HasCause (K.faults out.old) (K.faults out.new) result }
{
    let mut number = 0;
    'registers: while number < 32 {
        let line = register_text(number as u8, registers[number]);
        add(&line, gathered, out)?;
        number += 1;
    }
    Ok(())
}

/// Gathers the counts, and what stands behind them.
fn tell_counts<K: Sink>(
    mote: &Mote,
    bounds: Bounds,
    gathered: &mut Gathered,
    out: &mut K,
) -> Result<(), Failed>
    requires paged { IsPaged mote.now.sram mote.now.swap }
    ensures text { Gathers gathered.old.items gathered.new.items (K.taken out.old) (K.taken out.new) result
        (counts_of mote.now.devices.polls (taken_of bounds.events mote.now.devices) bounds.events (count_by (λ has. has) (pages mote.now.sram)) bounds.slots
        ++ requests_of (stored mote.now.devices mask_address) mote.now.devices.received.pending mote.now.flash.ops) }
    ensures cause { HasCause (K.faults out.old) (K.faults out.new) result }
{
    add(&counts_text(mote, bounds), gathered, out)?;
    let requests = requests_text(
        mote.devices.mask(),
        mote.devices.pending(),
        mote.flash.ops(),
    );
    add(&requests, gathered, out)
}

/// Where the program stands, its stack pointer and SREG.
#[tactic(auto, unfolding(crate::specs::StateText::core_text))]
fn core_text(pc: u16, sp: u16, sreg: u8) -> Text
    ensures text { result.items ≡ core_of pc sp sreg }
{
    let mut text = whole_text(b"pc ");
    push_address(&mut text, pc);
    push(&mut text, b"\nsp ");
    push_address(&mut text, sp);
    push(&mut text, b"\nsreg ");
    push_byte(&mut text, sreg);
    push(&mut text, b"\n");
    text
}

/// A register.
#[tactic(auto, unfolding(crate::specs::StateText::register_text))]
fn register_text(number: u8, value: u8) -> Text
    ensures text { result.items ≡ register_of number value }
{
    let mut text = whole_text(b"r");
    push_number(&mut text, u64::from(number));
    push(&mut text, b" ");
    push_byte(&mut text, value);
    push(&mut text, b"\n");
    text
}

/// How many polls were made, events took effect, and pages of the heap were stored to.
fn counts_text(mote: &Mote, bounds: Bounds) -> Text
    requires paged { IsPaged mote.now.sram mote.now.swap }
    ensures text { result.items ≡ counts_of mote.now.devices.polls (taken_of bounds.events mote.now.devices) bounds.events (count_by (λ has. has) (pages mote.now.sram)) bounds.slots }
{
    let taken = events_taken(&mote.devices, bounds.events);
    counts(
        mote.devices.polls(),
        (taken as u64, bounds.events as u64),
        (mote.sram.given(), bounds.slots),
    )
}

/// How many of so many events took effect.
fn events_taken(devices: &Devices, events: usize) -> usize
    ensures value { result ≡ taken_of events devices.now }
{
    events.saturating_sub(devices.coming())
}

/// The lines of these counts.
#[tactic(auto, unfolding(crate::specs::StateText::counts_text))]
fn counts(polls: u64, events: (u64, u64), pages: (u8, u8)) -> Text
    ensures text { result.items ≡ counts_of polls events.0 events.1 pages.0 pages.1 }
{
    let mut text = whole_text(b"polls ");
    push_number(&mut text, polls);
    push(&mut text, b"\nevents ");
    push_of(&mut text, events.0, events.1);
    push(&mut text, b"\nslots ");
    push_of(&mut text, u64::from(pages.0), u64::from(pages.1));
    push(&mut text, b"\n");
    text
}

/// Adds a number, and how many there are at most.
fn push_of(text: &mut Text, number: u64, all: u64)
    requires { array_vec_len text.old + 44 ≤ 160 }
    ensures text { text.new.items ≡ text.old.items ++ of_all number all }
    ensures longer { array_vec_len text.new ≤ array_vec_len text.old + 44 }
{
    push_number(text, number);
    push(text, b" of ");
    push_number(text, all);
}

/// The interrupts that are enabled and those that are requested, and how many operations on flash were tried.
#[tactic(auto, unfolding(crate::specs::StateText::requests_text))]
fn requests_text(enabled: u8, requested: u8, operations: u64) -> Text
    ensures text { result.items ≡ requests_of enabled requested operations }
{
    let mut text = whole_text(b"enabled ");
    push_byte(&mut text, enabled);
    push(&mut text, b"\n");
    push(&mut text, b"requested ");
    push_byte(&mut text, requested);
    push(&mut text, b"\n");
    push(&mut text, b"operations ");
    push_number(&mut text, operations);
    push(&mut text, b"\n");
    text
}
