//! What stands in a page of the code pool for one straight run of instructions: its pieces, made from the image.
//!
//! A page holds the rewritten form of a run of instructions of one original page, behind a map from original
//! addresses to places. [`read`] reads one instruction of an image ([`ImageWords`]), with the sizes of what stands
//! in its place. A [`Draft`] gathers what instructions one after another have in the page, and gives its pieces, or its words.
//! [`remade`] makes the pieces of a page from its first address and the number of its instructions, which the page
//! tells.
//!
//! `specs/Runs` says what a run is and what stands in its place, `specs/Standing` where pieces stand in flash,
//! `specs/CodePages` which words the page of a run has, and `specs/Drafts` what a draft holds.
//!
//! Public laws: `PieceLaws` and `RunLaws` (pieces in a row, and the sizes of runs), `StartLaws` and `PageWords` (a
//! draft with one instruction more, and the pieces of a whole one).
#![tactic(auto)]

mod draft;
mod instruction;
mod pieces;
mod remaking;
mod words;

pub use draft::Draft;
pub use instruction::{Instruction, read};
pub use pieces::{CALL_BRIDGE, size, width};
pub use remaking::remade;
pub use words::ImageWords;
