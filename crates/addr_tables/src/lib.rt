//! The kernel's two tables of places, and the search that looks in them first.
//!
//! SRAM has a direct-mapped look-aside table of 32 entries and a two-way set-associative table of 64
//! sets. An entry is an original address and its place in the code pool, and is empty where the place
//! is 0. [`find`] looks for the place of an original address in three entries, and searches the pool
//! only where none has it; [`find_with_hints`] does so with hints at the pool's entries, and tells more where there is none.
//! [`note`] puts a place into both tables, and [`forget_page`] takes out all places in one page of flash.
//!
//! ```rust
//! note(&mut sram, t, place);
//! let found = find(&mut sram, &flash, &layout, t); // Some(place), without a search of the pool
//! forget_page(&mut sram, place / 128);
//! ```
//!
//! `specs/Tables.antt` says what the tables may hold: each entry that isn't empty is right, which whoever
//! changes flash must keep so. `specs/Hits.antt` says what they answer, right or not, and
//! `specs/Changes.antt` what the calls leave. Laws for the layers above: the tables at boot are right for
//! every flash, and stay right where no entry of the pool goes (`proofs/TableLaws.antt`); what a place
//! that was noted leaves (`proofs/NoteLaws.antt`); what follows from an answer of `find`
//! (`proofs/FindLaws.antt`); and what forgetting a page leaves (`proofs/ForgetLaws.antt`).
#![tactic(auto)]

mod tables;

pub use tables::{find, find_with_hints, forget_page, note};
