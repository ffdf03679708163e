//! The mote's SRAM and what the kernel keeps in it.
//!
//! [`Sram`] is the 4,096 bytes at data addresses 0x0100 to 0x10FF. Contracts see it as the list of
//! its bytes. Beside plain bytes, blocks of 256 and parts of any length it has a getter and a setter for each kernel
//! cell and table entry: each getter reads the bytes of its cell, each setter changes them alone.
//!
//! `specs/Bytes.antt` says what bytes, words, blocks and parts are, `specs/Cells.antt` where each cell
//! stands, and `specs/Boot.antt` what the kernel finds at boot. `proofs/Laws.antt` and
//! `proofs/PartLaws.antt` have the laws of one write and then one read, for the layers above.
#![tactic(auto)]

mod cells;
mod regions;
mod sram;
mod tables;

pub use cells::{COUNT_CELL, KERNEL_STACK_TOP, R24_CELL, SREG_CELL, VSP_CELL, Z_CELL};
pub use regions::{FRAMES, PLACE_CELLS, SRAM_BEHIND, SRAM_FIRST, SWAP_MAP};
pub use sram::{NO_SLOT, Sram};
