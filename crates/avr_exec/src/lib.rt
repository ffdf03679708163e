//! One instruction of an AVR core, executed over any memory.
//!
//! [`exec`] takes the registers ([`Cpu`]) and anything that is a [`Bus`]: data memory, I/O registers, the
//! stack's bytes and the program's bytes. An instruction asks its bus for one thing at most ([`Ask`]);
//! the registers, SPL, SPH and SREG are answered from the `Cpu`, also at their data addresses. Where the
//! bus stops, `exec` gives that stop, and nothing was changed.
//!
//! ```rust
//! let pop = Instr::new(Form::Pop(r16)).ok_or("defined")?;
//! exec(&pop, &mut cpu, &mut bus, 1)?; // r16 is the byte at SP + 1, and SP is raised by one
//! ```
//!
//! What a bus stands for is a *space*, plain data with its ten calls as functions (`specs/Spaces`). The
//! definition of execution over any space is two short tables: what each instruction asks, and what the registers
//! become by the answer (`specs/Asks`, over `specs/Effects` and `specs/Arithmetic`); and what the space answers
//! (`specs/Execution`). `proofs/OneAnswer` and `proofs/OtherPlace` have the laws by which two executions are
//! compared: over two spaces, and at two places of the program.
//!
//! Who executes an instruction otherwise finds its parts here: the pointer that it takes an address of ([`target`], [`displaced`],
//! [`low_register`]) and how that moves ([`move_pointer`], [`raise_z`]), and what it does with bits ([`has_bit`], [`with_bit`],
//! [`swapped`]).
#![tactic(auto)]

mod answer;
mod arithmetic;
mod ask;
mod bits;
mod bus;
mod cpu;
mod effect;
mod execution;
mod memory;
mod stop;
mod transfer;

pub use answer::Answer;
pub use arithmetic::swapped;
pub use ask::{Ask, asks, displaced, low_register, target};
pub use bits::{TRANSFER, has_bit, with_bit};
pub use bus::Bus;
pub use cpu::Cpu;
pub use effect::{move_pointer, raise_z};
pub use execution::{exec, exec_at};
pub use stop::BusStop;
