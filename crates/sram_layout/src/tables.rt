//! The kernel's tables: frames, look-aside, two-way and swap map.

ghost use Rattle.std.specs.Prelude.{◌≡◌, ◌≤◌, ◌<◌, length};
ghost use Rattle.sram_layout.specs.Bytes.{byte_count, byte_at, with_byte};
ghost use Rattle.sram_layout.specs.Cells.{frame_cell, aside_cell, way_cell, slot_cell, frame_at, with_frame, entry_at, with_entry};

use crate::regions::SWAP_MAP;
use crate::sram::Sram;

const FRAME_TABLE: u16 = 0x0120;

const ASIDE: u16 = 0x0180;

const WAYS: u16 = 0x0200;

impl Sram {
    /// Entry `i` of the frame table: the page, and the state 0 empty, 1 clean, 2 dirty.
    pub fn frame(&self, i: u8) -> (u8, u8)
        requires { i < 8 }
        ensures value { (result.0, result.1) ≡ frame_at self.now (frame_cell i) }
        ensures size { length self.now ≡ byte_count }
    {
        let a = FRAME_TABLE + 4 * u16::from(i);
        (self.byte(a), self.byte(a + 1))
    }

    /// Writes a frame table entry's page and state; its other two bytes stay.
    pub fn set_frame(&mut self, i: u8, page: u8, state: u8)
        requires { i < 8 }
        ensures after { self.new ≡ with_frame self.old (frame_cell i) page state }
        ensures size { (length self.old ≡ byte_count) × (length self.new ≡ byte_count) }
    {
        let a = FRAME_TABLE + 4 * u16::from(i);
        self.set(a, page);
        self.set(a + 1, state);
    }

    /// Entry `i` of the look-aside table: an original address and its place, 0 for none.
    pub fn aside(&self, i: u8) -> (u16, u16)
        requires { i < 32 }
        ensures value { (result.0, result.1) ≡ entry_at self.now (aside_cell i) }
        ensures size { length self.now ≡ byte_count }
    {
        self.entry(ASIDE + 4 * u16::from(i))
    }

    /// Writes what [`aside`](Self::aside) reads.
    pub fn set_aside(&mut self, i: u8, t: u16, place: u16)
        requires { i < 32 }
        ensures after { self.new ≡ with_entry self.old (aside_cell i) t place }
        ensures size { (length self.old ≡ byte_count) × (length self.new ≡ byte_count) }
    {
        self.set_entry(ASIDE + 4 * u16::from(i), t, place);
    }

    /// An entry of a set of the two-way table: an original address and its place, 0 for none.
    pub fn way(&self, set: u8, which: u8) -> (u16, u16)
        requires set_in { set < 64 }
        requires which_in { which < 2 }
        ensures value { (result.0, result.1) ≡ entry_at self.now (way_cell set which) }
        ensures size { length self.now ≡ byte_count }
    {
        self.entry(WAYS + 8 * u16::from(set) + 4 * u16::from(which))
    }

    /// Writes what [`way`](Self::way) reads.
    pub fn set_way(&mut self, set: u8, which: u8, t: u16, place: u16)
        requires set_in { set < 64 }
        requires which_in { which < 2 }
        ensures after { self.new ≡ with_entry self.old (way_cell set which) t place }
        ensures size { (length self.old ≡ byte_count) × (length self.new ≡ byte_count) }
    {
        self.set_entry(WAYS + 8 * u16::from(set) + 4 * u16::from(which), t, place);
    }

    /// The swap slot of a virtual page, 0xFF for none.
    pub fn slot(&self, page: u8) -> u8
        ensures value { result ≡ byte_at self.now (slot_cell page) }
        ensures size { length self.now ≡ byte_count }
    {
        self.byte(SWAP_MAP + u16::from(page))
    }

    /// Writes what [`slot`](Self::slot) reads.
    pub fn set_slot(&mut self, page: u8, slot: u8)
        ensures after { self.new ≡ with_byte self.old (slot_cell page) slot }
        ensures size { (length self.old ≡ byte_count) × (length self.new ≡ byte_count) }
    {
        self.set(SWAP_MAP + u16::from(page), slot);
    }

    fn entry(&self, a: u16) -> (u16, u16)
        requires { (0x0100 ≤ a) × (a < 0x10FD) }
        ensures value { (result.0, result.1) ≡ entry_at self.now a }
        ensures size { length self.now ≡ byte_count }
    {
        (self.word(a), self.word(a + 2))
    }

    fn set_entry(&mut self, a: u16, t: u16, place: u16)
        requires { (0x0100 ≤ a) × (a < 0x10FD) }
        ensures after { self.new ≡ with_entry self.old a t place }
        ensures size { (length self.old ≡ byte_count) × (length self.new ≡ byte_count) }
    {
        self.set_word(a, t);
        self.set_word(a + 2, place);
    }
}
