//! Where regions of SRAM begin, as data addresses (`specs/Regions`).

/// SRAM, and in it the kernel's cells and its frame table.
pub const SRAM_FIRST: u16 = 0x0100;

/// RING and the tables of places.
pub const PLACE_CELLS: u16 = 0x0142;

/// The swap map: 256 bytes.
pub const SWAP_MAP: u16 = 0x0400;

/// The bytes of the eight frames: 256 each.
pub const FRAMES: u16 = 0x0500;

/// Behind SRAM, whose last bytes are the stack window.
pub const SRAM_BEHIND: u16 = 0x1100;
