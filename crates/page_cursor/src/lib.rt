//! Which original address a place is of, without a search where control was before.
//!
//! A [`Cursor`] answers as [`page_index::origin`] does. It reads the map of a page once, where control first comes there, and
//! keeps for each place what it has found, for one state of flash. `specs/Cursors` says what it knows.
#![tactic(auto)]

mod cursor;
mod marks;

pub use cursor::Cursor;
pub use marks::Mark;
