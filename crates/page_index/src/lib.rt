//! The maps of code pages, and the search of the code pool.
//!
//! A page of the pool is free, and then all its words are 0xFFFF, or begins with a map: the number of
//! the original page, the number of entries, and one word an entry, which tells where in the original
//! page an address lies and where in this page its code begins, its *place*. [`entry`] finds the place
//! of an original address, [`origin`] the original address of a place, and [`free_page`] the lowest
//! page that is free. Nothing has to be kept beside flash: each search reads the maps themselves, of the pages that
//! flash tells by their first words where these decide.
//! [`known_offsets`] tells of all addresses of one original page at once whether they have entries, and [`unmark_offsets`]
//! takes those of one page out of what it told. [`Places`] keeps
//! hints at entries, for any state of flash, and gives a [`Survey`] where an address has none. Of one page, which is
//! free or has a map whatever the others hold, [`is_free`], [`entries`], [`address_at`], [`place_at`] and [`place_in`]
//! tell what its map says.
//!
//! `specs/Maps.antt` says what a map is, and `specs/Entries.antt` what an entry of the pool is and when
//! a pool is mapped, which every search asks for; `specs/Surveys.antt` says what a survey tells. Laws for the
//! layers above: what a map says of its entries (`proofs/MapLaws.antt`), that an address has one place and a
//! place one address (`proofs/EntryLaws.antt`), and what stays where a free page gets a map
//! (`proofs/ChangeLaws.antt`).
#![tactic(auto)]

mod page;
mod places;
mod pool;
mod survey;

pub use page::{address_at, entries, is_free, place_at, place_in, unmark_offsets};
pub use places::{Listed, Places};
pub use pool::{entry, free_page, is_in_pool, known_offsets, origin};
pub use survey::Survey;
