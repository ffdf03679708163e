//! Which pages begin with which word.

ghost use Rattle.std.specs.Prelude.{◌≡◌, ◌≢◌, ℕ, ◌%◌, ◌<◌, ◌≤◌, length, List, IfOk, IfSome, IfNone};
ghost use Rattle.flash_words.specs.Pages.{word_count, page_count};
ghost use Rattle.flash_words.specs.Heads.{head, HasHead, AreHeads, AreHeadsBeside};

use crate::layout::PAGES;
use crate::page_set::{self, PageSet};
use crate::paged_words::PAGE_WORDS;
use std::alloc::{AllocError, Global};

/// The pages by their first words.
#[derive(Drop)]
pub(crate) struct Heads {
    /// Which pages begin with a word of each remainder by 512, and perhaps others.
    pages: Vec<PageSet>,
}

impl Heads {
    /// Those of these words.
    pub(crate) fn new(alloc: Global, words: &[u16]) -> Result<Heads, AllocError>
        requires { length words.now ≡ word_count }
        ensures heads { IfOk result (λ heads. AreHeads words.now heads) }
    {
        let mut heads = Heads {
            pages: page_set::empty_sets(alloc)?,
        };
        'pages: for page in 0..PAGES {
            heads.put(page as u16, words[PAGE_WORDS * page]);
        }
        Ok(heads)
    }

    /// The lowest page from one on and below another that may begin with this word; None where none does.
    pub(crate) fn next(&self, from: u16, to: u16, first: u16) -> Option<u16>
        requires end { to ≤ page_count }
        requires sized { length self.now.pages.items ≡ page_count }
        ensures range { IfSome result (λ page. (from ≤ page) × (page < to)) }
        ensures lowest { (words : List ℕ) → AreHeads words self.now → IfSome result (λ page. (lower : ℕ) → from ≤ lower → lower < page → head words lower ≢ first) }
        ensures none { (words : List ℕ) → AreHeads words self.now → IfNone result ((page : ℕ) → from ≤ page → page < to → head words page ≢ first) }
    {
        self.pages[usize::from(first) % PAGES].next(from, to)
    }

    /// Makes anew what is kept of a page, whose first word was the one and is the other.
    pub(crate) fn renew(&mut self, page: u16, old: u16, new: u16)
        requires page { page < page_count }
        requires sized { length self.old.pages.items ≡ page_count }
        ensures heads { (words : List ℕ) → AreHeadsBeside words self.old page → head words page ≡ new → AreHeads words self.new }
    {
        self.take(page, old);
        self.put(page, new);
    }

    /// Takes the page from those that begin with this word.
    fn take(&mut self, page: u16, first: u16)
        requires sized { length self.old.pages.items ≡ page_count }
        ensures size { length self.new.pages.items ≡ page_count }
        ensures others { (words : List ℕ) (other : ℕ) → other % page_count ≢ page % page_count → HasHead words self.old other → HasHead words self.new other }
    {
        self.pages[usize::from(first) % PAGES].remove(page);
    }

    /// Puts the page to those that begin with this word.
    fn put(&mut self, page: u16, first: u16)
        requires sized { length self.old.pages.items ≡ page_count }
        ensures size { length self.new.pages.items ≡ page_count }
        ensures here { (words : List ℕ) → head words page ≡ first → HasHead words self.new page }
        ensures others { (words : List ℕ) (other : ℕ) → HasHead words self.old other → HasHead words self.new other }
    {
        self.pages[usize::from(first) % PAGES].add(page);
    }
}
