//! The words of flash, in pages, and what is kept of them: by which word a page begins, and where its jumps lead.

ghost use Rattle.std.specs.Prelude.{◌≡◌, ◌≢◌, ℕ, ◌-◌, ◌≤◌, ◌<◌, ◌++◌, length, IfOk, IfSome, IfNone, OnOk};
ghost use Rattle.flash_words.specs.Pages.{word_count, page_count, page_words, many, word_at, page_of, set_page};
ghost use Rattle.flash_words.specs.Memory.{AreWords, loaded};
ghost use Rattle.flash_words.specs.Layouts.{most_image_words};
ghost use Rattle.flash_words.specs.Jumps.{HasNoJumpInto};
ghost use Rattle.flash_words.specs.JumpSets.{IsBlankFrom};
ghost use Rattle.flash_words.specs.Heads.{head};
ghost use Rattle.flash_words.specs.Rewriting.{ChangeBetween};

use crate::heads::Heads;
use crate::jumps::Jumps;
use crate::layout::{self, BLANK, KERNEL_FIRST, WORDS};
use std::alloc::{AllocError, Global};
use std::marker::Model;

/// The words of a page.
pub(crate) const PAGE_WORDS: usize = layout::PAGE_WORDS as usize;

/// The words of a block, of which a page has eight. The words of one are compared together.
pub(crate) const BLOCK_WORDS: usize = 16;

/// RET, the word in each place of the kernel's pages.
pub const RET: u16 = 0x9508;

/// The words by their addresses.
#[derive(Drop)]
pub(crate) struct PagedWords {
    words: Vec<u16>,
    heads: Heads,
    jumps: Jumps,
}

impl Model for PagedWords {
    ghost use Rattle.std.specs.Prelude.{ℕ, List, ◌≡◌, length};
    ghost use Rattle.flash_words.specs.Pages.{word_count};
    ghost use Rattle.flash_words.specs.Heads.{AreHeads};
    ghost use Rattle.flash_words.specs.JumpSets.{AreJumps};

    ghost Value = { List ℕ };

    ghost view = { λ w. w.words.items };

    ghost invariant = { λ w. (length w.words.items ≡ word_count) × AreHeads w.words.items w.heads × AreJumps w.words.items w.jumps };
}

impl PagedWords {
    /// The image from word 0 on, and the kernel.
    pub(crate) fn new(alloc: Global, image: &[u16]) -> Result<PagedWords, AllocError>
        requires { length image.now ≤ most_image_words }
        ensures value { IfOk result (λ words. words ≡ loaded image.now) }
        ensures size { IfOk result (λ words. length words ≡ word_count) }
        ensures fit { IfOk result AreWords }
    {
        PagedWords::of(alloc, loaded_words(alloc, image)?)
    }

    /// Erased words.
    pub(crate) fn erased(alloc: Global) -> Result<PagedWords, AllocError>
        ensures value { IfOk result (λ words. words ≡ many word_count 0xFFFF) }
        ensures size { IfOk result (λ words. length words ≡ word_count) }
        ensures fit { IfOk result AreWords }
    {
        PagedWords::of(alloc, erased_words(alloc)?)
    }

    /// These words.
    fn of(alloc: Global, words: Vec<u16>) -> Result<PagedWords, AllocError>
        requires { length words.items ≡ word_count }
        ensures value { IfOk result (λ paged. paged ≡ words.items) }
        ensures size { IfOk result (λ paged. length paged ≡ word_count) }
        ensures fit { IfOk result AreWords }
    {
        let heads = Heads::new(alloc, &words)?;
        let jumps = Jumps::new(alloc, &words)?;
        Ok(PagedWords {
            words,
            heads,
            jumps,
        })
    }

    /// The word at a word address.
    pub(crate) fn word(&self, a: u16) -> u16
        ensures value { result ≡ word_at self.now a }
    {
        self.words[a as usize]
    }

    /// The words of a page.
    pub(crate) fn page(&self, page: u16) -> &[u16]
        requires { page < page_count }
        ensures value { result.now ≡ page_of self.now page }
        ensures size { length result.now ≡ page_words }
    {
        words_of(&self.words, page)
    }

    /// The page's words become these, of which those behind this many are 0xFFFF.
    pub(crate) fn set(&mut self, page: u16, new: &[u16; 128], count: usize)
        requires page { page < page_count }
        requires count { count ≤ page_words }
        requires rest { IsBlankFrom new.now count }
        ensures value { self.new ≡ set_page self.old page new.now }
        ensures size { length self.new ≡ word_count }
        ensures fit { AreWords self.new }
    {
        let first = self.words[PAGE_WORDS * page as usize];
        put_words(&mut self.words, page, new);
        self.heads.renew(page, first, new[0]);
        self.jumps.renew(page, new, count);
    }

    /// The page's words become these, which are others from one on up to another alone.
    pub(crate) fn change(&mut self, page: u16, new: &[u16; 128], from: usize, to: usize)
        requires page { page < page_count }
        requires from { from ≤ to }
        requires to { to ≤ page_words }
        requires changed { ChangeBetween from to (page_of self.old page) new.now }
        ensures value { self.new ≡ set_page self.old page new.now }
        ensures size { length self.new ≡ word_count }
        ensures fit { AreWords self.new }
    {
        let first = self.words[PAGE_WORDS * page as usize];
        put_words(&mut self.words, page, new);
        self.heads.renew(page, first, new[0]);
        self.jumps.extend(page, new, from, to);
    }

    /// The lowest page from one on and below another that may have a jump into the target; None where none does.
    pub(crate) fn page_jumping_into(&self, from: u16, to: u16, target: u16) -> Option<u16>
        requires end { to ≤ page_count }
        ensures range { IfSome result (λ page. (from ≤ page) × (page < to)) }
        ensures lowest { IfSome result (λ page. (lower : ℕ) → from ≤ lower → lower < page → HasNoJumpInto self.now lower target) }
        ensures none { IfNone result ((page : ℕ) → from ≤ page → page < to → HasNoJumpInto self.now page target) }
    {
        self.jumps.page_jumping_into(from, to, target)
    }

    /// The lowest page from one on and below another that may begin with this word; None where none does.
    pub(crate) fn page_beginning(&self, from: u16, to: u16, first: u16) -> Option<u16>
        requires end { to ≤ page_count }
        ensures range { IfSome result (λ page. (from ≤ page) × (page < to)) }
        ensures lowest { IfSome result (λ page. (lower : ℕ) → from ≤ lower → lower < page → head self.now lower ≢ first) }
        ensures none { IfNone result ((page : ℕ) → from ≤ page → page < to → head self.now page ≢ first) }
    {
        self.heads.next(from, to, first)
    }
}

/// The words of a page, among those of flash.
#[tactic(auto, unfolding(crate::specs::Pages::page_of))]
pub(crate) fn words_of(words: &[u16], page: u16) -> &[u16]
    requires inside { page < page_count }
    requires sized { length words.now ≡ word_count }
    ensures value { result.now ≡ page_of words.now page }
    ensures size { length result.now ≡ page_words }
{
    let first = PAGE_WORDS * page as usize;
    &words[first..first + PAGE_WORDS]
}

/// Puts a page's words among those of flash.
#[tactic(auto, unfolding(crate::specs::Pages::set_page))]
fn put_words(words: &mut Vec<u16>, page: u16, new: &[u16; 128])
    requires inside { page < page_count }
    requires sized { length words.old.items ≡ word_count }
    ensures value { words.new.items ≡ set_page words.old.items page new.now }
    ensures fit { AreWords words.new.items }
{
    let first = PAGE_WORDS * page as usize;
    words[first..first + PAGE_WORDS].copy_from_slice(new);
}

/// The words of a flash that holds the image and the kernel.
#[tactic(auto, unfolding(crate::specs::Memory::loaded))]
fn loaded_words(alloc: Global, image: &[u16]) -> Result<Vec<u16>, AllocError>
    requires { length image.now ≤ most_image_words }
    ensures value { IfOk result (λ words. words.items ≡ loaded image.now) }
    ensures size { IfOk result (λ words. length words.items ≡ word_count) }
{
    let mut words = Vec::with_capacity(alloc, WORDS)?;
    words.extend_from_slice(image)?;
    fill_up(&mut words, KERNEL_FIRST as usize, BLANK)?;
    fill_up(&mut words, WORDS, RET)?;
    Ok(words)
}

/// The words of a flash that is erased.
fn erased_words(alloc: Global) -> Result<Vec<u16>, AllocError>
    ensures value { IfOk result (λ words. words.items ≡ many word_count 0xFFFF) }
    ensures size { IfOk result (λ words. length words.items ≡ word_count) }
{
    let mut words = Vec::with_capacity(alloc, WORDS)?;
    fill_up(&mut words, WORDS, BLANK)?;
    Ok(words)
}

/// Adds copies of a word until there are `n` words.
#[tactic(auto, unfolding(crate::specs::Pages::many))]
fn fill_up(words: &mut Vec<u16>, n: usize, word: u16) -> Result<(), AllocError>
    requires { length words.old.items ≤ n }
    ensures value { OnOk result (words.new.items ≡ words.old.items ++ many (n - length words.old.items) word) }
    ensures size { OnOk result (length words.new.items ≡ n) }
{
    words.resize(n, word)
}
