//! The form of a page.

ghost use Rattle.std.specs.Prelude.{◌≡◌, ℕ, ◌+◌, ◌*◌, ◌<◌, ◌≤◌, ◌⊎◌, ◌↔◌, length, IsTrue};
ghost use Rattle.avr_isa.specs.Image.{word};
ghost use Rattle.flash_words.specs.Pages.{word_at, blank, page_count};
ghost use Rattle.flash_words.specs.Layouts.{IsRight, most_image_words};
ghost use Rattle.page_draft.specs.CodePages.{IsCodePage};
ghost use Rattle.pool_check.specs.Forms.{HasForm};

use crate::image::GivenImage;
use crate::standing::stands;
use flash_dump::is_erased;
use flash_model::{BLANK, KERNEL_FIRST, Layout, MOST_ENTRIES, MOST_IMAGE_PAGES, PAGE_WORDS, RET};
use page_draft::{ImageWords, remade, size};

/// The first of the kernel's pages.
const KERNEL_PAGE: u16 = KERNEL_FIRST / PAGE_WORDS;

/// Whether a page by itself has the form that it must have in a flash that holds this image: the image's words below
/// the pool, erased words or rewritten code in the pool, and RET in the kernel's pages.
pub fn page_form(image: &[u16], layout: &Layout, page: u16, words: &[u16; 128]) -> bool
    requires right { IsRight layout.now }
    requires length { length image.now ≡ layout.now.image_words }
    requires page { page < page_count }
    ensures value { IsTrue result ↔ HasForm layout.now image.now page words.now }
{
    if page < layout.pool_first {
        return is_of_image(image, page, words);
    }
    if page >= KERNEL_PAGE {
        return are_all(words, RET);
    }
    if page >= layout.pool_first + layout.pool_pages {
        return true;
    }
    is_pool_page(image, words)
}

/// Whether a page of the pool is free or rewritten code.
fn is_pool_page(image: &[u16], words: &[u16; 128]) -> bool
    requires short { length image.now ≤ most_image_words }
    ensures value { IsTrue result ↔ ((words.now ≡ blank) ⊎ IsCodePage image.now words.now 0) }
{
    if is_blank(words) {
        return true;
    }
    is_code(image, words)
}

/// Whether a page is rewritten code: it is made anew from its first address and the number of its instructions.
pub fn is_code(image: &[u16], words: &[u16; 128]) -> bool
    requires short { length image.now ≤ most_image_words }
    ensures value { IsTrue result ↔ IsCodePage image.now words.now 0 }
{
    let count = words[1];
    if words[0] >= MOST_IMAGE_PAGES || count < 1 || count >= MOST_ENTRIES {
        return false;
    }
    let t = PAGE_WORDS * words[0] + words[2] / 256;
    match remade(&GivenImage { words: image }, t, count) {
        None => false,
        Some(pieces) => {
            if !stands(words, &pieces) {
                return false;
            }
            are_blank_from(words, size(&pieces))
        }
    }
}

/// Whether a page is free.
#[tactic(auto, using(flash_dump::proofs::ErasedLaws::all_are_blank))]
pub fn is_blank(words: &[u16; 128]) -> bool
    ensures value { IsTrue result ↔ (words.now ≡ blank) }
{
    is_erased(words)
}

/// Whether the words from a place on are erased.
fn are_blank_from(words: &[u16; 128], from: u16) -> bool
    ensures value { IsTrue result ↔ ((k : ℕ) → from ≤ k → k < 128 → word_at words.now k ≡ 0xFFFF) }
{
    for k in from..PAGE_WORDS {
        if words[k as usize] != BLANK {
            return false;
        }
    }
    true
}

/// Whether all words are this one.
fn are_all(words: &[u16; 128], word: u16) -> bool
    ensures value { IsTrue result ↔ ((k : ℕ) → k < 128 → word_at words.now k ≡ word) }
{
    for k in 0..PAGE_WORDS {
        if words[k as usize] != word {
            return false;
        }
    }
    true
}

/// Whether a page has the image's words, and erased ones behind its end.
fn is_of_image(image: &[u16], page: u16, words: &[u16; 128]) -> bool
    requires page { page < page_count }
    ensures value { IsTrue result ↔ ((k : ℕ) → k < 128 → word_at words.now k ≡ word image.now (128 * page + k)) }
{
    let given = GivenImage { words: image };
    for k in 0..PAGE_WORDS {
        if words[k as usize] != given.word(PAGE_WORDS * page + k) {
            return false;
        }
    }
    true
}
