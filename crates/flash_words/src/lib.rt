//! The words of the mote's program memory: 65,536 of them in 512 pages of 128, and what is known of them without
//! decoding one.
//!
//! A page is erased as a whole, which makes each of its words 0xFFFF, and programming a page can
//! only clear bits: each word becomes the old AND the new. [`Cells`] counts the erases of each page.
//!
//! Each erase and each program is an *operation*, numbered from 1. A flash is made with a list of numbers whose
//! operations are to fail: such a one answers [`FlashStop`], is counted too, and changes no word.
//!
//! Contracts see the record of its words, these counts, the list, the number of operations that were tried, and
//! the page of the last one that was refused (`specs/Memory.antt`). `specs/Pages.antt` has one page of words, and
//! `specs/Operations.antt` says what an operation leaves, and a list of operations up to the first that is
//! refused. `proofs/PageLaws.antt` has the laws of one page set and then one word or page read,
//! `proofs/WordLaws.antt` when all words have 16 bits, and `proofs/ProgramLaws.antt` what a page that is programmed
//! holds.
//!
//! `failing.rt` finds the next number that is listed, so an operation compares its own with one
//! (`specs/Failing.antt`). [`Heads`] finds pages by their first words (`specs/Heads.antt`), by sets of pages
//! ([`PageSet`], `specs/PageSets.antt`). `specs/Jumps.antt` has the jumps among the words of a page.
//!
//! Each call of [`Cells`] ensures that the flash is whole: 65,536 words of 16 bits in 512 pages (`IsWhole`). So a
//! caller has a word's range from any call, as `c.word.ensures.whole.words_fit a`.
//!
//! [`Layout`] says which pages are the code pool's, and `specs/Layouts.antt` when it is right, which one an
//! image has, and what the image is.
#![tactic(auto)]

mod cells;
mod failing;
mod heads;
mod jumps;
mod layout;
mod page_set;
mod paged_words;

pub use cells::Cells;
pub use failing::{FlashStop, RewriteStop};
pub use jumps::JMP;
pub use layout::{
    BLANK, FIRST_ENTRY, KERNEL_FIRST, Layout, MOST_ENTRIES, MOST_IMAGE_PAGES, MOST_IMAGE_WORDS,
    PAGE_WORDS, PAGES, WORDS,
};
pub use paged_words::RET;
