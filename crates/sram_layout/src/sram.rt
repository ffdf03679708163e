//! The bytes, and what is read and written of them in one piece.

ghost use Rattle.std.specs.Prelude.{◌≡◌, ◌+◌, ◌-◌, ◌/◌, ◌%◌, ◌≤◌, ◌<◌, length};
ghost use Rattle.sram_layout.specs.Bytes.{byte_count, byte_at, with_byte, data_word_at, with_word, block_at, with_block, part_at, with_part};
ghost use Rattle.base.specs.Lists.{many};
ghost use Rattle.sram_layout.specs.Cells.{no_slot};
ghost use Rattle.sram_layout.specs.Boot.{at_boot};
ghost use Rattle.sram_layout.specs.Regions.{whole_sram, is_within};

use crate::regions::{SRAM_FIRST, SWAP_MAP};
use std::marker::Model;

/// What the swap map has for a page without a slot.
pub const NO_SLOT: u8 = 0xFF;

/// The internal SRAM, data addresses 0x0100 to 0x10FF. Contracts see the list of its 4,096 bytes.
#[derive(Drop)]
pub struct Sram {
    bytes: [u8; 4096],
}

impl Model for Sram {
    ghost use Rattle.std.specs.Prelude.{List, ℕ};

    ghost Value = { List ℕ };

    ghost view = { λ s. s.bytes };
}

impl Sram {
    /// The kernel's state at boot. COUNT is 0 until the machine sets it.
    #[tactic(auto, unfolding(crate::specs::Boot::at_boot))]
    pub fn new() -> Sram
        ensures value { result ≡ at_boot }
        ensures size { length result ≡ byte_count }
    {
        let mut sram = Sram { bytes: zeros() };
        sram.set_block(SWAP_MAP, &no_slots());
        sram
    }

    /// Whether there is a byte at a data address.
    pub fn has(a: u16) -> bool
        ensures value { result ≡ is_within whole_sram a }
    {
        0x0100 <= a && a <= 0x10FF
    }

    /// The byte at a data address.
    #[tactic(auto, unfolding(crate::specs::Bytes::byte_at))]
    pub fn byte(&self, a: u16) -> u8
        requires { (0x0100 ≤ a) × (a ≤ 0x10FF) }
        ensures value { result ≡ byte_at self.now a }
        ensures size { length self.now ≡ byte_count }
    {
        self.bytes[a as usize - SRAM_FIRST as usize]
    }

    /// Writes the byte at a data address.
    #[tactic(auto, unfolding(crate::specs::Bytes::with_byte))]
    pub fn set(&mut self, a: u16, v: u8)
        requires { (0x0100 ≤ a) × (a ≤ 0x10FF) }
        ensures after { self.new ≡ with_byte self.old a v }
        ensures size { (length self.old ≡ byte_count) × (length self.new ≡ byte_count) }
    {
        self.bytes[a as usize - SRAM_FIRST as usize] = v;
    }

    /// Writes a return address as a call leaves it: its low byte at a data address, its high byte below.
    #[tactic(auto, unfolding(crate::specs::Bytes::with_byte))]
    #[inline(always)]
    pub fn set_return(&mut self, a: u16, ret: u16)
        requires { (0x0101 ≤ a) × (a ≤ 0x10FF) }
        ensures after { self.new ≡ with_byte (with_byte self.old a (ret % 256)) (a - 1) (ret / 256) }
        ensures size { (length self.old ≡ byte_count) × (length self.new ≡ byte_count) }
    {
        let low = (a - SRAM_FIRST) as usize;
        self.bytes[low] = (ret % 256) as u8;
        self.bytes[low - 1] = (ret / 256) as u8;
    }

    /// Copies the 256 bytes from a data address on.
    #[tactic(auto, unfolding(crate::specs::Bytes::block_at))]
    pub fn block(&self, a: u16, into: &mut [u8; 256])
        requires { (0x0100 ≤ a) × (a ≤ 0x1000) }
        ensures value { into.new ≡ block_at self.now a }
        ensures size { length self.now ≡ byte_count }
    {
        let first = (a - SRAM_FIRST) as usize;
        into.copy_from_slice(&self.bytes[first..first + 256]);
    }

    /// Writes the 256 bytes from a data address on.
    #[tactic(auto, unfolding(crate::specs::Bytes::with_block))]
    pub fn set_block(&mut self, a: u16, block: &[u8; 256])
        requires { (0x0100 ≤ a) × (a ≤ 0x1000) }
        ensures after { self.new ≡ with_block self.old a block.now }
        ensures size { (length self.old ≡ byte_count) × (length self.new ≡ byte_count) }
    {
        let first = (a - SRAM_FIRST) as usize;
        self.bytes[first..first + 256].copy_from_slice(block);
    }

    /// Copies the bytes from a data address on, as many as `into` has.
    #[tactic(auto, unfolding(crate::specs::Bytes::part_at))]
    pub fn part(&self, a: u16, into: &mut [u8])
        requires { (0x0100 ≤ a) × (a + length into.old ≤ 0x1100) }
        ensures value { into.new ≡ part_at self.now a (length into.old) }
        ensures size { length self.now ≡ byte_count }
    {
        let first = (a - SRAM_FIRST) as usize;
        into.copy_from_slice(&self.bytes[first..first + into.len()]);
    }

    /// Writes the bytes from a data address on.
    #[tactic(auto, unfolding(crate::specs::Bytes::with_part))]
    pub fn set_part(&mut self, a: u16, part: &[u8])
        requires { (0x0100 ≤ a) × (a + length part.now ≤ 0x1100) }
        ensures after { self.new ≡ with_part self.old a part.now }
        ensures size { (length self.old ≡ byte_count) × (length self.new ≡ byte_count) }
    {
        let first = (a - SRAM_FIRST) as usize;
        self.bytes[first..first + part.len()].copy_from_slice(part);
    }

    /// The word at a data address, low byte first.
    #[tactic(auto, unfolding(crate::specs::Bytes::data_word_at))]
    pub(crate) fn word(&self, a: u16) -> u16
        requires { (0x0100 ≤ a) × (a < 0x10FF) }
        ensures value { result ≡ data_word_at self.now a }
        ensures size { length self.now ≡ byte_count }
    {
        u16::from(self.byte(a + 1)) * 256 + u16::from(self.byte(a))
    }

    /// Writes the word at a data address, low byte first.
    #[tactic(auto, unfolding(crate::specs::Bytes::with_word))]
    pub(crate) fn set_word(&mut self, a: u16, w: u16)
        requires { (0x0100 ≤ a) × (a < 0x10FF) }
        ensures after { self.new ≡ with_word self.old a w }
        ensures size { (length self.old ≡ byte_count) × (length self.new ≡ byte_count) }
    {
        self.set(a, (w % 256) as u8);
        self.set(a + 1, (w / 256) as u8);
    }
}

#[tactic(auto, unfolding(base::specs::Lists::many))]
fn zeros() -> [u8; 4096]
    ensures value { result ≡ many byte_count 0 }
{
    [0; 4096]
}

#[tactic(auto, unfolding(base::specs::Lists::many))]
fn no_slots() -> [u8; 256]
    ensures value { result ≡ many 256 no_slot }
{
    [NO_SLOT; 256]
}
