//! Bytes at their places.
ghost use Rattle.std.specs.Prelude.{◌≡◌, ◌≢◌, ◌+◌, ◌<◌, ◌^◌, ℕ, List, [], ◌++◌, length, max, is_some, slice_index_or, unwrap_or, false, OnOk, OnErr, Some, None};
ghost use Rattle.std.specs.List.{enumerate_from, list_any, range_with_len};
ghost use Rattle.hex_image.specs.Places.{Cell, byte_given};
ghost use Rattle.hex_image.specs.Reading.{AreSlots, place_fault};

use crate::fault::HexFault;
use crate::image::MOST_WORDS;
use std::alloc::AllocError;

/// The most bytes that an image has.
pub(crate) const MOST_BYTES: usize = 2 * MOST_WORDS as usize;

/// The first fault that a data record has by its places, where these bytes were given before.
pub(crate) fn place_fault(
    slots: &[Option<u8>],
    base: u32,
    address: u16,
    content: &[u8],
) -> Option<HexFault>
    ensures value { (cells : List Cell) → AreSlots cells slots.now
        → result ≡ place_fault cells base address content.now }
{
    if usize::from(address) + content.len() > 65_536 {
        return Some(HexFault::Wrap);
    }
    let start = base as usize + usize::from(address);
    if is_any_given(slots, start, content.len()) {
        return Some(HexFault::Twice);
    }
    if !content.is_empty() && start + content.len() > MOST_BYTES {
        return Some(HexFault::TooLarge);
    }
    None
}

/// Whether one of some places in a row is given.
fn is_any_given(slots: &[Option<u8>], start: usize, count: usize) -> bool
    requires { start + count < 2 ^ 63 }
    ensures value { result ≡ list_any (λ place. is_some (slice_index_or slots.now place None)) (range_with_len start count) }
{
    'places: for place in start..start + count {
        if is_given(slots, place) {
            return true;
        }
    }
    false
}

fn is_given(slots: &[Option<u8>], place: usize) -> bool
    ensures value { result ≡ is_some (slice_index_or slots.now place None) }
{
    matches!(slots.get(place), Some(Some(_)))
}

/// Gives bytes to places in a row, none of which was given before.
pub(crate) fn put_bytes(
    slots: &mut Vec<Option<u8>>,
    start: usize,
    content: &[u8],
) -> Result<(), AllocError>
    requires { start + length content.now < 2 ^ 63 }
    ensures put { (cells : List Cell) → AreSlots cells slots.old.items
        → list_any (λ place. is_some (byte_given cells place)) (range_with_len start (length content.now)) ≡ false
        → OnOk result (AreSlots (cells ++ enumerate_from start content.now) slots.new.items) }
    ensures some { OnErr result (content.now ≢ []) }
{
    for (i, byte) in content.iter().enumerate() {
        put_byte(slots, start + i, *byte)?;
    }
    Ok(())
}

/// Gives a byte to a place.
fn put_byte(slots: &mut Vec<Option<u8>>, place: usize, byte: u8) -> Result<(), AllocError>
    requires { place < 2 ^ 63 }
    ensures size { OnOk result (length slots.new.items ≡ max (place + 1) (length slots.old.items)) }
    ensures here { OnOk result (slice_index_or slots.new.items place None ≡ Some byte) }
    ensures others { OnOk result ((p : ℕ) → p ≢ place
        → slice_index_or slots.new.items p None ≡ slice_index_or slots.old.items p None) }
{
    'grow: while slots.len() <= place {
        slots.push(None)?;
    }
    slots[place] = Some(byte);
    Ok(())
}

/// The byte at a place, 0xFF where none is given.
pub(crate) fn byte_or_blank(slots: &[Option<u8>], place: usize) -> u8
    ensures value { result ≡ unwrap_or (slice_index_or slots.now place None) 255 }
{
    match slots.get(place) {
        Some(Some(byte)) => *byte,
        _ => 0xFF,
    }
}
