//! The guard in front of the mote's own memory.
//!
//! A program believes in 64 KiB of flat data memory, whose machine is crate `flat_machine`; its [`AddrClass`], [`class`]
//! and [`is_stack`] stand here too. [`VirtualBus`] is that memory over the mote's own parts: the devices, SRAM, the heap's frames and
//! slots, and flash for the program's own bytes. No access reaches the kernel's memory.
//!
//! ```rust
//! let mut bus = VirtualBus { sram: &mut sram, swap: &mut swap, devices: &mut devices, flash: &flash, layout: &layout, line: None };
//! exec(&instr, &mut cpu, &mut bus, next_size)?; // a stop says why, and changes nothing
//! ```
//!
//! [`instruction_in_image`], [`known_instruction`], [`kept_instruction`], [`next_size_in_image`] and [`byte_in_image`] read the
//! program itself from flash; [`load_at_hand`] and [`store_at_hand`] reach bytes that are in SRAM.
//!
//! `specs/Guarded` is what a `VirtualBus` stands for, with the flat memory that it means (`flat_of`). Each call
//! of the bus is the flat memory's call (`flat`); `specs/Left` says what it leaves of the mote's parts (`kept`, `heap`).
//!
//! Laws for the layers above: `proofs/Alike`, `proofs/Leaves` and `proofs/LineLaws` (every call and every
//! instruction), and `proofs/GuardedStep` (an instruction executed over the guarded space is the original
//! program's step).
#![tactic(auto)]

mod at_hand;
mod image;
mod parts;
mod virtual_bus;

pub use at_hand::{load_at_hand, store_at_hand};
pub use flat_machine::{AddrClass, class, is_stack};
pub use image::{
    byte_in_image, instruction_in_image, kept_instruction, known_instruction, next_size_in_image,
};
pub use virtual_bus::VirtualBus;
