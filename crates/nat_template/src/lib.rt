//! Templates: what stands in a code page in the place of an instruction of the program.
//!
//! Most instructions stand there as they are. Those that reach data memory, return, or jump to an address
//! that is known only while they run become calls of the kernel; jumps, branches and skips lead to *stubs*,
//! which call the kernel's bridge until they are resolved. PUSH, POP, and LDD and STD with Y have *inline*
//! templates: instructions that reach the stack window's bytes themselves, and call the kernel for every
//! other address. [`shape`] says which of the ten forms an instruction takes, [`template`] its words, and
//! [`closing`] the stub at the end of a page.
//!
//! ```rust
//! let words = template(0x0002, 0xF7F1, 0xFFFF, 1); // BRNE: F409 C016, and a stub of 22 words
//! ```
//!
//! A template is also given in [`pieces`]: a fixed word, or a link to an original address, whose words
//! change when it is resolved. docs/LOADER.md has the table of templates; `specs/Shapes`, `specs/Stubs`,
//! `specs/Inline` and `specs/Templates` define them, and `proofs/Sizes` says how long they are.
#![tactic(auto)]

pub mod entries;
mod inline;
mod piece;
mod shapes;
mod stubs;
mod templates;

pub use piece::{CALL, Piece};
pub use shapes::{TemplateShape, shape};
pub use stubs::{closing, resolved, stub, stub_size};
pub use templates::{pieces, pieces_by, size_by, template};
