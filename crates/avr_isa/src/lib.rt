//! The instructions of the ATmega128, as types that only hold what an opcode can hold.
//!
//! A [`Form`] is an operation with its operands; each operand has a type of its own, which keeps its
//! range. An [`Instr`] is a form whose effect the manual defines. [`io_row`] says which I/O registers
//! a program may read and write and what each does, [`io_access`] the former alone, [`relative`] where
//! a relative jump leads, and [`is_crossing`] which steps are counted.
//!
//! ```rust
//! use avr_isa::{Form, HighReg, ImmOp, Instr, size};
//!
//! let r24 = HighReg::new(24).ok_or("r16 to r31")?;
//! let load = Instr::new(Form::Imm(ImmOp::Ldi, r24, 200)).ok_or("defined")?;
//! assert_eq!(rt; size(&load), 1);
//! ```
//!
//! The definitions that other crates cite stand in `specs/`: `InstructionTable` (a row a form: the ranges of
//! its operands, and its words), `UndefinedPairs`, `Instruction` (which forms are valid, and the number of words), `Encoding` (what words
//! mean), `IoTable`, `Image` (a program's words and bytes), `Addresses` (sums of addresses) and `Crossing` (transfers between pages of
//! flash). In a clause an operand is its number, and an `Instr` is its `Form`.
#![tactic(auto)]

mod address;
mod crossing;
mod form;
mod instr;
mod io;
mod operand;
mod operation;
mod register;

pub use address::relative;
pub use crossing::is_crossing;
pub use form::Form;
pub use instr::{Instr, size};
pub use io::{EIMSK, IoAccess, IoRegister, RAMPZ, io_access, io_row};
pub use operand::{Bit, IoAddr, LowIo, Rel7, Rel12, Six};
pub use operation::{Base, ImmOp, OneOp, ProductOp, Ptr, TwoOp, WordOp};
pub use register::{EvenReg, HighReg, MidReg, PairReg, Reg};
