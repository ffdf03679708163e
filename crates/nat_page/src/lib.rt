//! Pages of the code pool: what makes a pool faithful to the image, the making of one page, and its links.
//!
//! A page holds the rewritten form of one straight run of instructions of one original page, behind a map
//! from original addresses to places. [`naturalise`] makes the page of an address that has no entry yet.
//!
//! ```rust
//! if entry(&flash, &layout, t).is_none() {
//!     let place = naturalise(&mut flash, &layout, page, t)?; // refused where flash refuses the operation
//! }
//! ```
//!
//! [`prepare`] and [`prepare_with`] give the words of that page without making it, and [`draft_page`] those for any page that is free.
//! [`without_links`] gives the words of a page in which the links that a [`LinkTest`] picks call the kernel's bridge again.
//! [`pages_in_use`] counts the pages that are used.
//!
//! What a run is, what stands in its place, and which words its page has, is told by `page_draft`. `specs/Links`
//! says where a page leads to original addresses, `specs/Entered` what stands at an entry, `specs/Faithful` when a
//! pool is faithful to the image, `specs/Making` what making a page changes, `specs/Drafted` what a draft is,
//! `specs/Used` how many pages are used, and `specs/Unlinking` which links call the bridge again.
//!
//! Public laws: `LinkLaws` (links in a row), `HeldLaws`, `StayLaws` and `WalkLaws` (a page's map and run, where its templates stand, and
//! what stays), `PlaceLaws` and `EnteredLaws` (between two entries none begins; what stands at an entry and behind it),
//! `FaithfulLaws` (the pool is mapped; a new flash is faithful), `DecodedLaws` (the image's words are flash's), `DraftedLaws` (a draft,
//! in a page that is free), `MadeLaws` (the page that is made, and what stays), `TwoWords`, `KeptLaws`, `RelinkLaws` and `UnlinkLaws`
//! (a link that is resolved, and links that lead to the kernel's bridge again) and `UsedLaws` (the number of used pages).
#![tactic(auto)]

mod drafting;
mod image;
mod making;
mod unlinking;
mod using;

pub use drafting::{DraftedPage, draft_page};
pub use image::FlashImage;
pub use making::{NatStop, Prepared, naturalise, prepare, prepare_with};
pub use unlinking::{LeadsInto, LinkTest, Unlinked, page_words, without_links};
pub use using::pages_in_use;
