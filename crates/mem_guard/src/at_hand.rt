//! Bytes of the program's memory at hand: in the stack window, or in a page that a frame holds.

ghost use Rattle.std.specs.Prelude.{◌≡◌, true, false, IfSome};
ghost use Rattle.mem_guard.specs.AtHand.{stored_at_hand, LoadsAtHand, StoresAtHand};

use flat_machine::{AddrClass, class};
use heap_frames::{load_in_frame, store_in_frame};
use sram_layout::Sram;

/// The byte at a data address, where it is at hand.
#[tactic(auto, unfolding(flat_machine::specs::Classes::class_of))]
#[inline(always)]
pub fn load_at_hand(sram: &Sram, a: u16) -> Option<u8>
    ensures hit { IfSome result (λ byte. LoadsAtHand sram.now a byte) }
{
    match class(a) {
        AddrClass::Stack => Some(sram.byte(a)),
        AddrClass::Heap => load_in_frame(sram, a),
        _ => None,
    }
}

/// A byte for a data address, where the one there is at hand. Tells whether it is; else nothing is done.
#[tactic(auto, unfolding(flat_machine::specs::Classes::class_of))]
#[inline(always)]
pub fn store_at_hand(sram: &mut Sram, a: u16, v: u8) -> bool
    ensures hit { result ≡ true → StoresAtHand sram.old a v }
    ensures after { result ≡ true → sram.new ≡ stored_at_hand sram.old a v }
    ensures none { result ≡ false → sram.new ≡ sram.old }
{
    match class(a) {
        AddrClass::Stack => {
            sram.set(a, v);
            true
        }
        AddrClass::Heap => store_in_frame(sram, a, v),
        _ => false,
    }
}
