//! Which words of a page change where it gets others: the first, and the last.

ghost use Rattle.std.specs.Prelude.{◌≡◌, ℕ, ◌+◌, ◌≤◌, ◌<◌, false, length, slice_index};
ghost use Rattle.flash_words.specs.Pages.{page_words};

use crate::decode_cache::PAGE_WORDS;

/// The words of a block, of which a page has eight. Those of one are compared together.
const BLOCK_WORDS: usize = 16;

/// The first word of the page that changes where it gets these; the page's last word where none before it does.
pub(crate) fn first_changed(page: &[u16], words: &[u16; 128]) -> usize
    requires sized { length page.now ≡ page_words }
    ensures size { result < page_words }
    ensures same { (k : ℕ) → k < result → slice_index page.now k ≡ slice_index words.now k }
{
    let mut from = 0;
    'alike: while from < PAGE_WORDS - BLOCK_WORDS && !is_changed(page, words, from) {
        from += BLOCK_WORDS;
    }
    'words: while from < PAGE_WORDS - 1 && page[from] == words[from] {
        from += 1;
    }
    from
}

/// One behind the last word of the page that changes, from this word on; this word where none does.
pub(crate) fn last_changed(page: &[u16], words: &[u16; 128], from: usize) -> usize
    requires sized { length page.now ≡ page_words }
    requires from { from < page_words }
    ensures order { from ≤ result }
    ensures size { result ≤ page_words }
    ensures same { (k : ℕ) → result ≤ k → k < page_words → slice_index page.now k ≡ slice_index words.now k }
{
    let mut to = PAGE_WORDS;
    'alike: while from + BLOCK_WORDS <= to && !is_changed(page, words, to - BLOCK_WORDS) {
        to -= BLOCK_WORDS;
    }
    'words: while from < to && page[to - 1] == words[to - 1] {
        to -= 1;
    }
    to
}

/// Whether a word of a block changes. They are compared without a branch between them.
#[inline(always)]
fn is_changed(page: &[u16], words: &[u16; 128], first: usize) -> bool
    requires sized { length page.now ≡ page_words }
    requires inside { first + 16 ≤ page_words }
    ensures same { result ≡ false → (k : ℕ) → first ≤ k → k < first + 16 → slice_index page.now k ≡ slice_index words.now k }
{
    let mut any = false;
    'words: for i in 0..BLOCK_WORDS {
        any = any | (page[first + i] != words[first + i]);
    }
    any
}
