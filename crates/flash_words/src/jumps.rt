//! Into which pages the jumps of each page lead, and from which pages jumps lead into each.

ghost use Rattle.std.specs.Prelude.{◌≡◌, ◌≢◌, ℕ, ◌+◌, ◌%◌, ◌≤◌, ◌<◌, true, false, length, List, IfOk, IfSome, IfNone, slice_index, slice_index_or};
ghost use Rattle.flash_words.specs.Pages.{word_count, page_count, page_words, page_of};
ghost use Rattle.flash_words.specs.Jumps.{jump_word, HasNoJumpInto};
ghost use Rattle.flash_words.specs.JumpSets.{IsBlankFrom, HasJumps, HasJumpsBetween, IsSource, AreJumps, AreJumpsBeside, AreJumpsOutside};
ghost use Rattle.flash_words.specs.PageSets.{has_page};
ghost use Rattle.flash_words.specs.declared.page_set.PageSet.{PageSet as PageSetOf};

use crate::layout::PAGES;
use crate::page_set::{self, NO_PAGE, PageSet};
use crate::paged_words::{BLOCK_WORDS, PAGE_WORDS, words_of};
use std::alloc::{AllocError, Global};

/// JMP, the first of its two words.
pub const JMP: u16 = 0x940C;

/// For each page a set of pages, those that its jumps lead into among them, and its sources: all pages whose set it is in.
#[derive(Drop)]
pub(crate) struct Jumps {
    sets: Vec<PageSet>,
    sources: Vec<PageSet>,
}

impl Jumps {
    /// Those of these words.
    pub(crate) fn new(alloc: Global, words: &[u16]) -> Result<Jumps, AllocError>
        requires { length words.now ≡ word_count }
        ensures jumps { IfOk result (λ jumps. AreJumps words.now jumps) }
    {
        let mut jumps = Jumps {
            sets: page_set::empty_sets(alloc)?,
            sources: page_set::empty_sets(alloc)?,
        };
        'pages: for page in 0..PAGES {
            let set = jumps_of(words_of(words, page as u16), PAGE_WORDS);
            add_source_of_each(&mut jumps.sources, page as u16, &set);
            jumps.sets[page] = set;
        }
        Ok(jumps)
    }

    /// The lowest page from one on and below another that may have a jump into the target; None where none does.
    pub(crate) fn page_jumping_into(&self, from: u16, to: u16, target: u16) -> Option<u16>
        requires end { to ≤ page_count }
        requires sized { length self.now.sources.items ≡ page_count }
        ensures range { IfSome result (λ page. (from ≤ page) × (page < to)) }
        ensures lowest { (words : List ℕ) → AreJumps words self.now → IfSome result (λ page. (lower : ℕ) → from ≤ lower → lower < page → HasNoJumpInto words lower target) }
        ensures none { (words : List ℕ) → AreJumps words self.now → IfNone result ((page : ℕ) → from ≤ page → page < to → HasNoJumpInto words page target) }
    {
        self.sources[target as usize % PAGES].next(from, to)
    }

    /// Makes anew what is kept of a page, which has these words now, 0xFFFF behind this many.
    pub(crate) fn renew(&mut self, page: u16, words: &[u16], count: usize)
        requires page { page < page_count }
        requires sized { length self.old.sets.items ≡ page_count }
        requires sources { length self.old.sources.items ≡ page_count }
        requires size { length words.now ≡ page_words }
        requires count { count ≤ page_words }
        requires rest { IsBlankFrom words.now count }
        ensures jumps { (all : List ℕ) → AreJumpsBeside all self.old page → page_of all page ≡ words.now → AreJumps all self.new }
    {
        let set = jumps_of(words, count);
        let before = self.sets[page as usize];
        remove_source_of_each(&mut self.sources, page, &before);
        add_source_of_each(&mut self.sources, page, &set);
        self.sets[page as usize] = set;
    }

    /// Adds what is kept of a page, which has these words now, and had others from one on up to another alone.
    pub(crate) fn extend(&mut self, page: u16, words: &[u16; 128], from: usize, to: usize)
        requires page { page < page_count }
        requires from { from ≤ to }
        requires to { to ≤ page_words }
        requires sized { length self.old.sets.items ≡ page_count }
        requires sources { length self.old.sources.items ≡ page_count }
        ensures jumps { (all : List ℕ) → AreJumpsOutside all self.old page from to → page_of all page ≡ words.now → AreJumps all self.new }
    {
        'words: for k in from.max(1)..PAGE_WORDS.min(to + 1) {
            self.look_at(page, words, k);
        }
    }

    /// Notes the jump of a page, which has these words, whose second word is this one, if it is one's.
    fn look_at(&mut self, page: u16, words: &[u16; 128], k: usize)
        requires page { page < page_count }
        requires second { 1 ≤ k }
        requires inside { k < page_words }
        requires sized { length self.old.sets.items ≡ page_count }
        requires sources { length self.old.sources.items ≡ page_count }
        ensures size { length self.new.sets.items ≡ page_count }
        ensures sources { length self.new.sources.items ≡ page_count }
        ensures outside { (all : List ℕ) (to : ℕ) → page_of all page ≡ words.now → AreJumpsOutside all self.old page k to → AreJumpsOutside all self.new page (k + 1) to }
    {
        if words[k - 1] != JMP {
            return;
        }
        self.note(page, words[k] / PAGE_WORDS as u16);
    }

    /// Notes that a page has a jump into the target.
    fn note(&mut self, page: u16, target: u16)
        requires page { page < page_count }
        requires target { target < page_count }
        requires sized { length self.old.sets.items ≡ page_count }
        requires sources { length self.old.sources.items ≡ page_count }
        ensures size { length self.new.sets.items ≡ page_count }
        ensures sources { length self.new.sources.items ≡ page_count }
        ensures here { (s : PageSetOf) → has_page (slice_index_or self.new.sets.items page s) target ≡ true }
        ensures kept { (all : List ℕ) (from to : ℕ) → AreJumpsOutside all self.old page from to → AreJumpsOutside all self.new page from to }
    {
        self.sets[page as usize].add(target);
        add_source(&mut self.sources, target, page);
    }
}

/// Takes a page out of the sources of each page of the set.
fn remove_source_of_each(sources: &mut Vec<PageSet>, page: u16, set: &PageSet)
    requires sized { length sources.old.items ≡ page_count }
    ensures size { length sources.new.items ≡ page_count }
    ensures others { (target other : ℕ) → other % page_count ≢ page % page_count → IsSource sources.old.items target other → IsSource sources.new.items target other }
{
    if set.is_empty() {
        return;
    }
    let mut from = 0;
    'targets: while let Some(target) = set.next(from, PAGES as u16) {
        remove_source(sources, target, page);
        from = target + 1;
    }
}

/// Puts a page into the sources of each page of the set.
fn add_source_of_each(sources: &mut Vec<PageSet>, page: u16, set: &PageSet)
    requires sized { length sources.old.items ≡ page_count }
    ensures size { length sources.new.items ≡ page_count }
    ensures here { (target : ℕ) → target < page_count → has_page set.now target ≡ true → IsSource sources.new.items target page }
    ensures others { (target other : ℕ) → IsSource sources.old.items target other → IsSource sources.new.items target other }
{
    if set.is_empty() {
        return;
    }
    let mut from = 0;
    'targets: while let Some(target) = set.next(from, PAGES as u16) {
        add_source(sources, target, page);
        from = target + 1;
    }
}

/// Takes a page out of the sources of another.
fn remove_source(sources: &mut Vec<PageSet>, target: u16, page: u16)
    requires target { target < page_count }
    requires sized { length sources.old.items ≡ page_count }
    ensures size { length sources.new.items ≡ page_count }
    ensures others { (any other : ℕ) → other % page_count ≢ page % page_count → IsSource sources.old.items any other → IsSource sources.new.items any other }
{
    sources[target as usize].remove(page);
}

/// Puts a page into the sources of another.
fn add_source(sources: &mut Vec<PageSet>, target: u16, page: u16)
    requires target { target < page_count }
    requires sized { length sources.old.items ≡ page_count }
    ensures size { length sources.new.items ≡ page_count }
    ensures here { IsSource sources.new.items target page }
    ensures others { (any other : ℕ) → IsSource sources.old.items any other → IsSource sources.new.items any other }
{
    sources[target as usize].add(page);
}

/// The pages that the jumps of a page lead into, which has 0xFFFF behind this many words.
fn jumps_of(words: &[u16], count: usize) -> PageSet
    requires size { length words.now ≡ page_words }
    requires count { count ≤ page_words }
    requires rest { IsBlankFrom words.now count }
    ensures jumps { HasJumps words.now result }
{
    let mut pages = NO_PAGE;
    let mut first = 0;
    'ahead: while first < count {
        add_jumps(&mut pages, words, first);
        first += BLOCK_WORDS;
    }
    pages
}

/// Whether one of the words of a block is JMP's. They are compared without a branch between them.
fn has_jump(words: &[u16], first: usize) -> bool
    requires size { length words.now ≡ page_words }
    requires inside { first + 16 ≤ page_words }
    ensures none { result ≡ false → (k : ℕ) → first ≤ k → k < first + 16 → slice_index words.now k ≢ jump_word }
{
    let mut any = false;
    'words: for i in 0..BLOCK_WORDS {
        any = any | (words[first + i] == JMP);
    }
    any
}

/// Adds the pages that the jumps of a block lead into. Most blocks have none.
fn add_jumps(pages: &mut PageSet, words: &[u16], first: usize)
    requires size { length words.now ≡ page_words }
    requires inside { first + 16 ≤ page_words }
    ensures jumps { HasJumpsBetween first (first + 16) words.now pages.new }
    ensures others { (page : ℕ) → has_page pages.old page ≡ true → has_page pages.new page ≡ true }
{
    if !has_jump(words, first) {
        return;
    }
    'words: for k in first + 1..PAGE_WORDS.min(first + BLOCK_WORDS + 1) {
        if words[k - 1] == JMP {
            pages.add(words[k] / PAGE_WORDS as u16);
        }
    }
}
