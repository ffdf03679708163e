//! The checker of flash: whether it holds an image and faithful rewritten code of it, whoever wrote it.
//!
//! [`page_form`] looks at one page by itself. A page of the pool isn't parsed: its first words tell from which address
//! it is and how many instructions it has, the rewriter makes that page anew from the image, and the words are
//! compared. [`check`] looks at all pages, and at what each page of the pool owes to the others: that no address has
//! two entries, and that links that are resolved lead to entries.
//!
//! ```rust
//! let layout = Layout::of(image.len() as u16);
//! match check(&flash, image, &layout) {
//!     Verdict::Faithful { pages } => { /* so many pages of the pool are used */ }
//!     Verdict::Form { page } => { /* this page isn't what it must be */ }
//!     Verdict::Links { page } => { /* this page doesn't agree with the others */ }
//! }
//! ```
//!
//! `specs/Forms` says which form a page must have, `specs/Links` what it owes to the others, and `specs/Verdicts`
//! what the checker answers. That all forms and all links together are just what a faithful pool is
//! (`nat_page/specs/Faithful`), is the law `CheckedLaws`. [`read_dump`] and [`write_dump`], from and to a text, are those of
//! crate `flash_dump`.
#![tactic(auto)]

mod checking;
mod form;
mod image;
mod links;
mod standing;

pub use checking::{Verdict, check};
pub use flash_dump::{DumpError, DumpFault, read_dump, write_dump};
pub use form::{is_blank, is_code, page_form};
pub use links::is_alone;
