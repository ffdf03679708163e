//! Lines of text: a text cut into lines, for the readers of line-based texts, and a printed line built piece by piece.
//!
//! ```rust
//! let (line, rest) = first_line(b"at 5 uart 0x41\r\n# inputs");
//! assert_eq!(rt; line, b"at 5 uart 0x41");
//! assert_eq!(rt; rest, b"# inputs");
//!
//! let mut text = whole(b"fault wild ");
//! push_address(&mut text, 0x1F0A);
//! assert_eq!(rt; text.as_slice(), b"fault wild 0x1F0A".as_slice());
//! ```
//!
//! A line ends with a line feed, and one carriage return before it is dropped too; the text's end ends a
//! last line. [`first_line`] gives a text's first line, so that a reader goes on over the rest while it
//! isn't empty, and knows by the length of the rest where it is; [`split_once`] cuts a line further, and
//! [`value_of`] reads a number's digits.
//!
//! `specs/Pieces.antt` says how a byte, an address and the name of a task are written;
//! `specs/Lines.antt` says which lines a text has, and `specs/Stripping.antt` what stands in a line or a word behind its
//! front, for the readers of words; `specs/Faults.antt` says which line of a text is the first faulty one, where each has a
//! fault of its own or none. Laws for the layers above: what a text's first line leaves (`proofs/CutLaws.antt`), that
//! the lines of a text make up the text (`proofs/TextLaws.antt`), which texts have a front (`proofs/StripLaws.antt`), which
//! have digits only (`proofs/DigitTests.antt`), and the first faulty line, line by line (`proofs/FaultLaws.antt`).
#![tactic(auto)]

mod coded;
mod cut;
mod digits;
mod pieces;

pub use coded::push_coded;
pub use cut::{first_line, split_once};
pub use digits::value_of;
pub use pieces::{Text, push, push_address, push_byte, push_number, whole};
