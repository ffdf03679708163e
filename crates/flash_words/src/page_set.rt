//! A set of pages.

ghost use Rattle.std.specs.Prelude.{◌≡◌, ◌≢◌, ℕ, ◌/◌, ◌%◌, ◌<◌, ◌≤◌, true, false, length, IfOk, IfSome, IfNone};
ghost use Rattle.flash_words.specs.Pages.{page_count};
ghost use Rattle.flash_words.specs.PageSets.{has_page};

use crate::layout::PAGES;
use std::alloc::{AllocError, Global};

/// A set of pages of flash.
#[derive(Clone, Copy)]
pub(crate) struct PageSet {
    /// A bit for each page, from the lowest bit of the first word on.
    bits: [u64; 8],
}

/// The set without a page.
pub(crate) const NO_PAGE: PageSet = PageSet { bits: [0; 8] };

impl PageSet {
    /// Puts the page into the set.
    pub(crate) fn add(&mut self, page: u16)
        ensures added { has_page self.new page ≡ true }
        ensures others { (other : ℕ) → has_page self.old other ≡ true → has_page self.new other ≡ true }
        ensures only { (other : ℕ) → other % 512 ≢ page % 512 → has_page self.new other ≡ has_page self.old other }
    {
        self.bits[word_of(page)] |= 1 << (page % 64);
    }

    /// Takes the page out of the set.
    pub(crate) fn remove(&mut self, page: u16)
        ensures others { (other : ℕ) → other % 512 ≢ page % 512 → has_page self.old other ≡ true → has_page self.new other ≡ true }
    {
        self.bits[word_of(page)] &= !(1 << (page % 64));
    }

    /// Whether no page is in the set.
    pub(crate) fn is_empty(&self) -> bool
        ensures none { result ≡ true → (page : ℕ) → has_page self.now page ≡ false }
    {
        'words: for i in 0..8 {
            if self.bits[i] != 0 {
                return false;
            }
        }
        true
    }

    /// The lowest page of the set from one on and below another; None where none is.
    pub(crate) fn next(&self, from: u16, to: u16) -> Option<u16>
        requires end { to ≤ page_count }
        ensures range { IfSome result (λ page. (from ≤ page) × (page < to)) }
        ensures lowest { IfSome result (λ page. (lower : ℕ) → from ≤ lower → lower < page → has_page self.now lower ≡ false) }
        ensures none { IfNone result ((page : ℕ) → from ≤ page → page < to → has_page self.now page ≡ false) }
    {
        let mut page = from;
        'words: while page < to {
            let bits = self.bits[word_of(page)];
            let rest = bits >> (page % 64);
            if rest != 0 {
                let found = page + rest.trailing_zeros() as u16;
                return if found < to { Some(found) } else { None };
            }
            page = page / 64 * 64 + 64;
        }
        None
    }
}

/// Which of the words has the page's bit.
fn word_of(page: u16) -> usize
    ensures value { result ≡ page / 64 % 8 }
{
    usize::from(page / 64 % 8)
}

/// As many sets as flash has pages, each without a page.
pub(crate) fn empty_sets(alloc: Global) -> Result<Vec<PageSet>, AllocError>
    ensures size { IfOk result (λ sets. length sets.items ≡ page_count) }
{
    let mut sets = Vec::new(alloc);
    sets.resize(PAGES, NO_PAGE)?;
    Ok(sets)
}
