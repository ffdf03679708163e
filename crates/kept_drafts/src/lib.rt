//! Pages of the code pool that were drafted, kept until their addresses want one again.
//!
//! What is drafted for an address goes by the image, and by which addresses have entries. So each draft is kept with the words and
//! the entries that it went by, whatever flash does, and is taken again where they are the same. [`KeptDrafts`] has room for some.
//!
//! ```rust
//! let mut drafts = KeptDrafts::new();
//! drafts.make_room(alloc); // where there is memory
//! let draft = drafts.draft(&mut spare, &flash, &layout, &known, t); // kept, or drafted anew
//! flash.program_known(page, draft.words(), draft.micro_ops())?;
//! ```
//!
//! [`Hints`] is all that is remembered for arrivals: the places of entries, and these drafts. `specs/Keeping` says what a draft goes
//! by, and when it is the page of an address. How a page is drafted is told by `nat_page`.
#![tactic(auto)]

mod hints;
mod keeping;
mod kept_drafts;

pub use hints::Hints;
pub use keeping::KeptDraft;
pub use kept_drafts::KeptDrafts;
