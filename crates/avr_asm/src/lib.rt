//! A small assembler: the text of a program for the ATmega128 as the words of its image.
//!
//! ```rust
//! let image = assemble(alloc, b"ldi r16, 0x0F\nout 0x1B, r16\nend: rjmp end\n")?;
//! assert_eq!(rt; image.words(), &[0xE00F, 0xBB0B, 0xCFFF]);
//! ```
//!
//! A line has a label, a statement, both or nothing, and maybe a comment; `docs/ASSEMBLER.md` has the grammar and
//! the table of mnemonics. [`assemble`] gives the image of a text, or the first faulty line and its fault.
//!
//! `specs/` goes from bytes to the image. `Cuts`, `Numbers` and `Operands` read a line's parts; `Mnemonics` finds a name
//! in the table, which is the code's own, and `Statements` says what it means with which operands; `SourceLines` puts a
//! line together. `Addresses` goes over the lines: where statements and labels stand, and what is wrong with a line
//! behind those before it. `Targets` says where a jump leads, and `AsmText` which texts have a fault and which words the
//! others have. [`one_image`] is a law of these definitions, for callers' proofs. `proofs/WorkedRows.antt` holds each
//! row of the table against words that another assembler made.
#![tactic(auto)]

mod assembling;
mod fault;
mod first_pass;
mod instruction;
mod labels;
mod laws;
mod line;
mod mnemonic;
mod name;
mod number;
mod operand;
mod second_pass;
mod statement;
mod table;
mod target;
mod text;

pub use assembling::assemble;
pub use fault::{AsmError, AsmFault};
pub use laws::one_image;
