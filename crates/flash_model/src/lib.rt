//! The mote's program memory: 65,536 words of flash in 512 pages of 128 words, and what is decoded of them.
//!
//! A page is erased as a whole, which makes each of its words 0xFFFF, and programming a page can
//! only clear bits: each word becomes the old AND the new. [`Flash`] counts the erases of each
//! page.
//!
//! Each erase and each program is an *operation*, numbered from 1. A flash is made with a list of numbers whose
//! operations are to fail: such a one answers [`FlashStop`], is counted too, and changes no word.
//!
//! ```rust
//! let mut flash = Flash::new(rt.alloc(), image.words(), &[2])?;
//! flash.erase(130)?;
//! flash.program(130, &words) // Err(FlashStop { op: 2, page: 130 })
//! ```
//!
//! The words themselves and the operations on them are those of the crate `flash_words`, whose `specs/` have what
//! contracts see of a flash: the record of its words, the counts, the list, the number of operations that were tried,
//! and the page of the last one that was refused.
//!
//! [`Flash::decoded`] gives what is decoded at a word address (`decoded.rt`, `specs/Code.antt`), and [`Flash::micro_ops`] the
//! micro-operation of it, which a step is made by. A [`Form`](avr_isa::Form) of many operations holds which of them it is, so who
//! executes it chooses twice. A [`MicroOp`] is chosen among once, and its operands are at hand, in four bytes: it has a variant
//! for each instruction that programs meet often, and all others are [`MicroOp::Other`], executed by their form
//! (`specs/MicroOps`). It is made when it is first asked for
//! ([`Flash::predecode`]), so what no step comes to is never decoded, or told with a page's words ([`Flash::program_known`]). Behind each operation on a page `decode_cache.rt`
//! forgets those of the words that changed. [`Flash::rewrite`] erases a page and programs it, and forgets them from the first
//! word that is another up to the last (`changed_words.rt`). Pairs of words that were decoded already are not decoded again
//! (`decoded_pairs.rt`). That all this is what the words mean (`specs/DecodeCache.antt`) is an invariant of [`Flash`], and
//! contracts see the words alone.
//!
//! Each call ensures that the flash is whole: 65,536 words of 16 bits in 512 pages (`IsWhole`). So a
//! caller has a word's range from any call, as `c.word.ensures.whole.words_fit a`.
//!
//! [`Layout`] says which words of flash are the image's. [`word_in_image`] reads these, and `proofs/ImageLaws.antt`
//! has the laws of that.
#![tactic(auto)]

mod changed_words;
mod decode_cache;
mod decoded;
mod decoded_pairs;
mod flash;
mod image;
mod making;
mod micro_ops;

pub use decoded::{Decoded, micro_op};
pub use flash::Flash;
pub use flash_words::{
    BLANK, FIRST_ENTRY, FlashStop, JMP, KERNEL_FIRST, Layout, MOST_ENTRIES, MOST_IMAGE_PAGES,
    MOST_IMAGE_WORDS, PAGE_WORDS, PAGES, RET, RewriteStop,
};
pub use image::word_in_image;
pub use micro_ops::MicroOp;
