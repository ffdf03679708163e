//! The eight frames: which one holds a page, and how a page comes into one.

ghost use Rattle.std.specs.Prelude.{◌≡◌, ◌<◌, true, length, IfSome};
ghost use Rattle.swap_store.specs.Slots.{page_in, zero_page};
ghost use Rattle.heap_frames.specs.Frames.{clean, frame_bytes, frame_of, holds, has_slot, slot_of, victim, given};
ghost use Rattle.heap_frames.specs.Paged.{IsPaged};
ghost use Rattle.heap_frames.specs.Paging.{store_of, written_back, with_page_in_frame, frame_for, seated, first_touched, with_slot_given};

use sram_layout::{FRAMES, Sram};
use swap_store::Swap;

/// The number of frames.
const COUNT: u8 = 8;

/// The state of a frame without a page.
const EMPTY: u8 = 0;

/// The state of a frame that equals its page's slot.
const CLEAN: u8 = 1;

/// The state of a frame that may differ from its page's slot.
pub(crate) const DIRTY: u8 = 2;

/// The address of a frame's bytes.
pub(crate) fn frame_address(frame: u8) -> u16
    requires { frame < 8 }
    ensures value { result ≡ frame_bytes frame }
{
    FRAMES + 256 * u16::from(frame)
}

/// Whether an occupied frame holds the page. Most hold another, so the page is asked first.
#[inline(always)]
fn is_in(sram: &Sram, page: u8, frame: u8) -> bool
    requires { frame < 8 }
    ensures value { result ≡ holds sram.now page frame }
{
    let (held, state) = sram.frame(frame);
    if held != page {
        return false;
    }
    state != EMPTY
}

/// The frame that holds the page.
#[tactic(auto, unfolding(crate::specs::Frames::frame_of))]
#[inline(always)]
pub(crate) fn frame_with(sram: &Sram, page: u8) -> Option<u8>
    ensures value { result ≡ frame_of sram.now page }
    ensures frame_in { IfSome result (λ frame. frame < 8) }
{
    (0..COUNT).find(|frame| is_in(sram, page, *frame))
}

/// Writes a dirty frame's page to its slot.
#[tactic(auto, unfolding(crate::specs::Paging::written_back))]
fn write_back(sram: &Sram, swap: &mut Swap, frame: u8)
    requires frame_in { frame < 8 }
    requires paged { IsPaged sram.now swap.old }
    ensures after { swap.new ≡ written_back sram.now swap.old frame }
{
    let (page, state) = sram.frame(frame);
    if state == DIRTY {
        let mut bytes = [0; 256];
        sram.block(frame_address(frame), &mut bytes);
        swap.write(sram.slot(page), &bytes);
    }
}

/// Puts a page of these bytes into a frame; the frame after it is then the next to be replaced.
#[tactic(auto, unfolding(crate::specs::Paging::with_page_in_frame))]
fn put_page(sram: &mut Sram, frame: u8, page: u8, bytes: &[u8; 256], state: u8)
    requires { frame < 8 }
    ensures after { sram.new ≡ with_page_in_frame sram.old frame page bytes.now state }
{
    sram.set_block(frame_address(frame), bytes);
    sram.set_frame(frame, page, state);
    sram.set_victim((frame + 1) % COUNT);
}

/// Brings a page that is in no frame from its slot into the frame that is replaced next.
fn bring_in(sram: &mut Sram, swap: &mut Swap, page: u8) -> u8
    requires paged { IsPaged sram.old swap.old }
    requires slot { has_slot sram.old page ≡ true }
    ensures frame { result ≡ victim sram.old }
    ensures sram { sram.new ≡ with_page_in_frame sram.old (victim sram.old) page (page_in swap.old (slot_of sram.old page)) clean }
    ensures swap { swap.new ≡ written_back sram.old swap.old (victim sram.old) }
{
    let frame = sram.victim();
    let mut bytes = [0; 256];
    swap.read(sram.slot(page), &mut bytes);
    write_back(sram, swap, frame);
    put_page(sram, frame, page, &bytes, CLEAN);
    frame
}

/// The frame that holds a page which has a slot, after the page is brought in where none did.
#[tactic(auto, unfolding(crate::specs::Paging::seated, crate::specs::Paging::frame_for))]
pub(crate) fn seat(sram: &mut Sram, swap: &mut Swap, page: u8) -> u8
    requires paged { IsPaged sram.old swap.old }
    requires slot { has_slot sram.old page ≡ true }
    ensures frame { result ≡ frame_for sram.old page }
    ensures frame_in { result < 8 }
    ensures after { store_of sram.new swap.new ≡ seated (store_of sram.old swap.old) page }
{
    match frame_with(sram, page) {
        Some(frame) => frame,
        None => bring_in(sram, swap, page),
    }
}

/// Gives the next slot to a page.
#[tactic(auto, unfolding(crate::specs::Paging::with_slot_given))]
fn give_slot(sram: &mut Sram, page: u8)
    requires { given sram.old < 255 }
    ensures after { sram.new ≡ with_slot_given sram.old page }
{
    let slot = sram.given();
    sram.set_slot(page, slot);
    sram.set_given(slot + 1);
}

/// Gives the next slot to a page, and puts the page, all zeros, into the frame that is replaced next.
#[tactic(auto, unfolding(crate::specs::Paging::first_touched))]
pub(crate) fn begin(sram: &mut Sram, swap: &mut Swap, page: u8) -> u8
    requires paged { IsPaged sram.old swap.old }
    requires left { given sram.old < length swap.old }
    ensures frame { result ≡ victim sram.old }
    ensures frame_in { result < 8 }
    ensures after { store_of sram.new swap.new ≡ first_touched (store_of sram.old swap.old) page }
{
    let frame = sram.victim();
    write_back(sram, swap, frame);
    give_slot(sram, page);
    put_page(sram, frame, page, &zeros(), DIRTY);
    frame
}

#[tactic(auto, unfolding(swap_store::specs::Slots::zero_page))]
fn zeros() -> [u8; 256]
    ensures value { result ≡ zero_page }
{
    [0; 256]
}
