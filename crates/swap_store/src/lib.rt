//! The mote's swap area: up to 251 slots, each for one page of 256 bytes.
//!
//! [`Swap`] holds the pages of the heap that have no place in SRAM. Contracts see it as the list of
//! its pages (`specs/Slots.antt`). A write changes the page that it names and nothing else;
//! `proofs/Laws.antt` has the laws of one write and then one read.
#![tactic(auto)]

mod swap;

pub use swap::Swap;
