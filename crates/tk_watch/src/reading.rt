//! What stands in the core and the memory of the original program, read off its mote, which stays as it is.
ghost use Rattle.std.specs.Prelude.{◌≡◌, ◌<◌, ◌/◌, ◌%◌, slice_index, IfSome};
ghost use Rattle.heap_frames.specs.Frames.{frame_of, holds};
ghost use Rattle.heap_frames.specs.Memory.{heap_byte as heap_byte_of, slot_byte as slot_byte_of, vmem};
ghost use Rattle.heap_frames.specs.Paged.{IsPaged};
ghost use Rattle.kernel_entry.specs.Parts.{core_of};

use avr_exec::Cpu;
use flat_machine::{AddrClass, class};
use kernel_entry::Kernel;
use mote_core::Mote;
use sram_layout::{FRAMES, Sram};
use swap_store::Swap;

/// How many frames there are.
const COUNT: u8 = 8;

/// The state of a frame without a page.
const EMPTY: u8 = 0;

/// No slot, in the map of slots.
const NO_SLOT: u8 = 0xFF;

/// The program's core, at this pc.
#[inline(always)]
pub(crate) fn core(k: &Kernel, pc: u16) -> Cpu
    ensures same { result ≡ core_of k.now pc }
{
    Cpu {
        r: k.mote.cpu.r,
        sreg: k.mote.cpu.sreg,
        sp: k.mote.sram.vsp(),
        pc,
    }
}

/// The byte at an address of memory.
pub(crate) fn memory_byte(mote: &Mote, a: u16) -> u8
    requires paged { IsPaged mote.now.sram mote.now.swap }
    ensures value { result ≡ slice_index (vmem mote.now.sram mote.now.swap) a }
{
    match class(a) {
        AddrClass::Stack => mote.sram.byte(a),
        AddrClass::Heap => heap_byte(&mote.sram, &mote.swap, a),
        // Registers are no memory.
        _ => 0,
    }
}

/// The byte at an address of the heap, whether its page is in a frame, in its slot or nowhere.
#[tactic(auto, unfolding(heap_frames::specs::Memory::heap_byte))]
fn heap_byte(sram: &Sram, swap: &Swap, a: u16) -> u8
    requires paged { IsPaged sram.now swap.now }
    ensures value { result ≡ heap_byte_of sram.now swap.now (a / 256) (a % 256) }
{
    let page = (a / 256) as u8;
    match frame_with(sram, page) {
        Some(frame) => sram.byte(FRAMES + 256 * u16::from(frame) + a % 256),
        None => slot_byte(sram, swap, page, (a % 256) as u8),
    }
}

/// The frame that holds a page.
#[tactic(auto, unfolding(heap_frames::specs::Frames::frame_of))]
fn frame_with(sram: &Sram, page: u8) -> Option<u8>
    ensures value { result ≡ frame_of sram.now page }
    ensures frame { IfSome result (λ frame. frame < 8) }
{
    (0..COUNT).find(|frame| is_in(sram, page, *frame))
}

/// Whether an occupied frame holds the page.
fn is_in(sram: &Sram, page: u8, frame: u8) -> bool
    requires { frame < 8 }
    ensures value { result ≡ holds sram.now page frame }
{
    let (held, state) = sram.frame(frame);
    state != EMPTY && held == page
}

/// The byte of a page in its slot, 0 where it has none.
fn slot_byte(sram: &Sram, swap: &Swap, page: u8, offset: u8) -> u8
    requires paged { IsPaged sram.now swap.now }
    ensures value { result ≡ slot_byte_of sram.now swap.now page offset }
{
    let slot = sram.slot(page);
    if slot == NO_SLOT {
        return 0;
    }
    let mut bytes = [0; 256];
    swap.read(slot, &mut bytes);
    bytes[offset as usize]
}
