//! One byte of the heap.

ghost use Rattle.std.specs.Prelude.{◌≡◌, ℕ, ◌/◌, ◌%◌, ◌<◌, ◌↔◌, true, false, List, Some, IfSome, IfErr, IsErr, OnOk, OnErr};
ghost use Rattle.flat_machine.specs.Addresses.{is_heap};
ghost use Rattle.heap_frames.specs.Paged.{IsPaged};
ghost use Rattle.heap_frames.specs.Paging.{store_of, heap_load, heap_store, stored_or_full, with_byte_in_frame};
ghost use Rattle.heap_frames.specs.InFrame.{stored_in_frame};
ghost use Rattle.heap_frames.specs.Changes.{Loaded, Stored, IsFull};

use crate::frames::{self, DIRTY};
use sram_layout::{NO_SLOT, Sram};
use swap_store::Swap;

/// A page was stored to for the first time, and every slot was given.
#[derive(Clone, Copy, PartialEq, Eq)]
pub struct SwapFull {
    /// The address of the store.
    pub address: u16,
}

/// Loads the byte at a heap address.
#[tactic(auto, unfolding(crate::specs::Paging::heap_load))]
pub fn load(sram: &mut Sram, swap: &mut Swap, a: u16) -> u8
    requires heap { is_heap a ≡ true }
    requires paged { IsPaged sram.old swap.old }
    ensures effect { (result, store_of sram.new swap.new) ≡ heap_load (store_of sram.old swap.old) a }
    // The byte is the memory's, and the memory stays.
    ensures loaded { Loaded (store_of sram.old swap.old) a result (store_of sram.new swap.new) }
    ensures paged { IsPaged sram.new swap.new }
{
    let page = (a / 256) as u8;
    if sram.slot(page) == NO_SLOT {
        return 0;
    }
    let frame = frames::seat(sram, swap, page);
    sram.byte(frames::frame_address(frame) + a % 256)
}

/// Stores a byte at a heap address. Where it answers `SwapFull`, nothing has changed.
#[tactic(auto, unfolding(crate::specs::Paging::heap_store))]
pub fn store(sram: &mut Sram, swap: &mut Swap, a: u16, v: u8) -> Result<(), SwapFull>
    requires heap { is_heap a ≡ true }
    requires paged { IsPaged sram.old swap.old }
    ensures effect { stored_or_full result (store_of sram.new swap.new) ≡ heap_store (store_of sram.old swap.old) a v }
    // The memory changes at the address alone.
    ensures stored { OnOk result (Stored (store_of sram.old swap.old) a v (store_of sram.new swap.new)) }
    ensures full { IsErr result ↔ IsFull sram.old swap.old (a / 256) }
    ensures refused { OnErr result ((sram.new ≡ sram.old) × (swap.new ≡ swap.old)) }
    ensures address { IfErr result (λ full. full.address ≡ a) }
    ensures paged { IsPaged sram.new swap.new }
{
    let page = (a / 256) as u8;
    if sram.slot(page) != NO_SLOT {
        let frame = frames::seat(sram, swap, page);
        put_byte(sram, frame, a, v);
        Ok(())
    } else if sram.given() < swap.slots() {
        let frame = frames::begin(sram, swap, page);
        put_byte(sram, frame, a, v);
        Ok(())
    } else {
        Err(SwapFull { address: a })
    }
}

/// The byte at a heap address, where a frame holds its page: no page moves, so the heap stays. None elsewhere.
#[inline(always)]
pub fn load_in_frame(sram: &Sram, a: u16) -> Option<u8>
    ensures hit { IfSome result (λ byte. (w : List (List ℕ)) → IsPaged sram.now w → heap_load (store_of sram.now w) a ≡ (byte, store_of sram.now w)) }
{
    match frames::frame_with(sram, (a / 256) as u8) {
        Some(frame) => Some(sram.byte(frames::frame_address(frame) + a % 256)),
        None => None,
    }
}

/// Stores a byte at a heap address, where a frame holds its page: no page moves. Tells whether one does; else nothing is done.
#[inline(always)]
pub fn store_in_frame(sram: &mut Sram, a: u16, v: u8) -> bool
    ensures hit { result ≡ true → (w : List (List ℕ)) → IsPaged sram.old w → heap_store (store_of sram.old w) a v ≡ Some (store_of (stored_in_frame sram.old a v) w) }
    ensures after { result ≡ true → sram.new ≡ stored_in_frame sram.old a v }
    ensures none { result ≡ false → sram.new ≡ sram.old }
{
    match frames::frame_with(sram, (a / 256) as u8) {
        Some(frame) => {
            put_byte(sram, frame, a, v);
            true
        }
        None => false,
    }
}

/// Writes a byte of the page that the frame holds, which is then dirty.
#[tactic(auto, unfolding(crate::specs::Paging::with_byte_in_frame))]
fn put_byte(sram: &mut Sram, frame: u8, a: u16, v: u8)
    requires { frame < 8 }
    ensures after { sram.new ≡ with_byte_in_frame sram.old frame (a / 256) (a % 256) v }
{
    sram.set(frames::frame_address(frame) + a % 256, v);
    sram.set_frame(frame, (a / 256) as u8, DIRTY);
}
