//! What crates at the bottom stand on and std lacks: laws of numbers and lists (lists of n equal numbers, and lists with a part
//! replaced), a sequence of numbers, and [`NoMemory`], the answer where memory was wanted and not found, which crates that move
//! no bytes have from here, and others from `byte_streams`.
//!
//! `specs/Lists` has lists of equal numbers. `proofs/ManyLaws` says what they hold, and `proofs/Pieces` what a list holds after a
//! part of it was replaced. `proofs/Numbers`, `proofs/Ranges` and `proofs/Searches` have laws of numbers, of numbers in a row, and
//! of a search's first test. [`next_number`] goes on in a sequence of numbers (`specs/Sequences`), by which test programs are
//! chosen, and the words of a page where power was lost.
#![tactic(auto)]

mod no_memory;
mod sequences;

pub use no_memory::NoMemory;
pub use sequences::next_number;
