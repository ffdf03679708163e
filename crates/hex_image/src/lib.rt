//! Program images, and their texts in Intel HEX.
//!
//! ```rust
//! let (image, position) = read(alloc, b":060000000FE00BBBFFCF77\n:00000001FF\nrest")?;
//! assert_eq!(rt; image.words(), &[0xE00F, 0xBB0B, 0xCFFF]);
//! assert_eq!(rt; position, 36);
//! ```
//!
//! [`read`] gives the image of a text and the position behind its end record's line, or the first faulty
//! line and the first of its faults; [`write`] gives the text of an image. Which lines a text has, and which
//! of them is the first that has a fault, is said by `text_lines`; what one line says by
//! `specs/Lines.antt`, where the bytes of lines stand by `specs/Places.antt`, and which faults a line has
//! behind others, and which texts an image, by `specs/HexText.antt`. As the code does, these go line by
//! line, with a running base. [`grammar`] is the law that they say what the format says of all lines at once
//! (`specs/GrammarLaw.antt`); [`one_image`], [`one_fault`] and [`image_or_fault`] are laws of them too, for
//! callers' proofs.
#![tactic(auto)]

mod fault;
mod image;
mod kind;
mod laws;
mod line;
mod places;
mod reading;
mod text;
mod written;

pub use fault::{HexError, HexFault};
pub use image::{Image, MOST_WORDS};
pub use laws::{grammar, image_or_fault, one_fault, one_image};
pub use text::read;
pub use written::write;
