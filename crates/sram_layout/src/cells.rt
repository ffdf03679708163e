//! The kernel's cells of one byte or one word.

ghost use Rattle.std.specs.Prelude.{◌≡◌, length};
ghost use Rattle.sram_layout.specs.Bytes.{byte_count, byte_at, with_byte, data_word_at, with_word};
ghost use Rattle.sram_layout.specs.Cells.{count_cell, r24_cell, sreg_cell, vsp_cell, z_cell, victim_cell, given_cell, ring_cell};

use crate::regions::{PLACE_CELLS, SRAM_FIRST};
use crate::sram::Sram;

/// The stack pointer where the kernel's own stack is empty: its two bytes are this one and the one below.
pub const KERNEL_STACK_TOP: u16 = 0x011F;

/// Data addresses of cells: COUNT.
pub const COUNT_CELL: u16 = SRAM_FIRST;

/// R24.
pub const R24_CELL: u16 = 0x0101;

/// SREG.
pub const SREG_CELL: u16 = 0x0102;

/// The program's stack pointer, a word.
pub const VSP_CELL: u16 = 0x0103;

/// The program's Z pointer, a word.
pub const Z_CELL: u16 = 0x0105;

const VICTIM: u16 = 0x0140;

const GIVEN: u16 = 0x0141;

const RING: u16 = PLACE_CELLS;

impl Sram {
    /// COUNT: crossings left before the next checkpoint.
    pub fn count(&self) -> u8
        ensures value { result ≡ byte_at self.now count_cell }
        ensures size { length self.now ≡ byte_count }
    {
        self.byte(COUNT_CELL)
    }

    /// Writes what [`count`](Self::count) reads.
    pub fn set_count(&mut self, v: u8)
        ensures after { self.new ≡ with_byte self.old count_cell v }
        ensures size { (length self.old ≡ byte_count) × (length self.new ≡ byte_count) }
    {
        self.set(COUNT_CELL, v);
    }

    /// The program's r24 while a crossing stub uses the register.
    pub fn r24(&self) -> u8
        ensures value { result ≡ byte_at self.now r24_cell }
        ensures size { length self.now ≡ byte_count }
    {
        self.byte(R24_CELL)
    }

    /// Writes what [`r24`](Self::r24) reads. Stubs do so by themselves: the program doesn't call this.
    pub fn set_r24(&mut self, v: u8)
        ensures after { self.new ≡ with_byte self.old r24_cell v }
        ensures size { (length self.old ≡ byte_count) × (length self.new ≡ byte_count) }
    {
        self.set(R24_CELL, v);
    }

    /// The program's status register while a template uses it.
    pub fn sreg(&self) -> u8
        ensures value { result ≡ byte_at self.now sreg_cell }
        ensures size { length self.now ≡ byte_count }
    {
        self.byte(SREG_CELL)
    }

    /// Writes what [`sreg`](Self::sreg) reads.
    pub fn set_sreg(&mut self, v: u8)
        ensures after { self.new ≡ with_byte self.old sreg_cell v }
        ensures size { (length self.old ≡ byte_count) × (length self.new ≡ byte_count) }
    {
        self.set(SREG_CELL, v);
    }

    /// The program's stack pointer.
    pub fn vsp(&self) -> u16
        ensures value { result ≡ data_word_at self.now vsp_cell }
        ensures size { length self.now ≡ byte_count }
    {
        self.word(VSP_CELL)
    }

    /// Writes what [`vsp`](Self::vsp) reads.
    pub fn set_vsp(&mut self, v: u16)
        ensures after { self.new ≡ with_word self.old vsp_cell v }
        ensures size { (length self.old ≡ byte_count) × (length self.new ≡ byte_count) }
    {
        self.set_word(VSP_CELL, v);
    }

    /// The program's Z pointer while a template uses r31:r30. Templates use the cell by themselves: the program calls neither this
    /// nor [`set_z`](Self::set_z).
    pub fn z(&self) -> u16
        ensures value { result ≡ data_word_at self.now z_cell }
        ensures size { length self.now ≡ byte_count }
    {
        self.word(Z_CELL)
    }

    /// Writes what [`z`](Self::z) reads.
    pub fn set_z(&mut self, v: u16)
        ensures after { self.new ≡ with_word self.old z_cell v }
        ensures size { (length self.old ≡ byte_count) × (length self.new ≡ byte_count) }
    {
        self.set_word(Z_CELL, v);
    }

    /// The frame to replace next, 0 to 7.
    pub fn victim(&self) -> u8
        ensures value { result ≡ byte_at self.now victim_cell }
        ensures size { length self.now ≡ byte_count }
    {
        self.byte(VICTIM)
    }

    /// Writes what [`victim`](Self::victim) reads.
    pub fn set_victim(&mut self, v: u8)
        ensures after { self.new ≡ with_byte self.old victim_cell v }
        ensures size { (length self.old ≡ byte_count) × (length self.new ≡ byte_count) }
    {
        self.set(VICTIM, v);
    }

    /// How many swap slots are given, 0 to 251.
    pub fn given(&self) -> u8
        ensures value { result ≡ byte_at self.now given_cell }
        ensures size { length self.now ≡ byte_count }
    {
        self.byte(GIVEN)
    }

    /// Writes what [`given`](Self::given) reads.
    pub fn set_given(&mut self, v: u8)
        ensures after { self.new ≡ with_byte self.old given_cell v }
        ensures size { (length self.old ≡ byte_count) × (length self.new ≡ byte_count) }
    {
        self.set(GIVEN, v);
    }

    /// RING: the number within the code pool of the page that is used again next.
    pub fn ring(&self) -> u16
        ensures value { result ≡ data_word_at self.now ring_cell }
        ensures size { length self.now ≡ byte_count }
    {
        self.word(RING)
    }

    /// Writes what [`ring`](Self::ring) reads.
    pub fn set_ring(&mut self, page: u16)
        ensures after { self.new ≡ with_word self.old ring_cell page }
        ensures size { (length self.old ≡ byte_count) × (length self.new ≡ byte_count) }
    {
        self.set_word(RING, page);
    }
}
