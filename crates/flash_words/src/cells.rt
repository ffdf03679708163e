//! The words of flash, and the operations on its pages.

ghost use Rattle.std.specs.Prelude.{◌≡◌, ◌≢◌, ℕ, ◌+◌, ◌*◌, ◌≤◌, ◌<◌, ◌^◌, ◌⊎◌, true, false, length, OnOk, OnErr, IfOk, IfErr, IfSome, IfNone, None, if◌then◌else◌, slice_index, slice_set};
ghost use Rattle.flash_words.specs.Operations.{next_op, fails, left_by_refusal, erased_page, programmed_page, renewed, perform};
ghost use Rattle.flash_words.specs.Pages.{word_count, page_count, page_words, many, word_at, page_of, set_page, blank, programmed, raised};
ghost use Rattle.flash_words.specs.Layouts.{most_image_words};
ghost use Rattle.flash_words.specs.Memory.{AreWords, IsWhole, erased_flash, new_flash};
ghost use Rattle.flash_words.specs.Jumps.{HasNoJumpInto};
ghost use Rattle.flash_words.specs.JumpSets.{IsBlankFrom};
ghost use Rattle.flash_words.specs.Heads.{head};
ghost use Rattle.flash_words.specs.Rewriting.{ChangeBetween, rewriting, refusal_in_rewriting};

use crate::failing::{FlashStop, RewriteStop, next_listed};
use crate::layout::{BLANK, PAGES};
use crate::paged_words::{BLOCK_WORDS, PAGE_WORDS, PagedWords};
use std::alloc::{AllocError, Global};
use std::marker::Model;

/// The words by their addresses, with what operations leave beside them.
#[derive(Drop)]
pub struct Cells {
    words: PagedWords,
    /// How often each page was erased.
    erases: Vec<u32>,
    /// The numbers of the operations that are to fail.
    failing: Vec<u32>,
    /// The least of them that is still ahead.
    next_failing: u64,
    /// How many operations were tried.
    ops: u64,
    /// The page of the last one that was refused.
    refused: Option<u16>,
}

impl Model for Cells {
    ghost use Rattle.flash_words.specs.Memory.{Memory, IsWhole};
    ghost use Rattle.flash_words.specs.Failing.{IsNextListed};

    ghost Value = { Memory };

    ghost view = { λ f. record { words = f.words; erases = f.erases.items; failing = f.failing.items; ops = f.ops; refused = f.refused } };

    ghost invariant = { λ f. IsWhole (record { words = f.words; erases = f.erases.items; failing = f.failing.items; ops = f.ops; refused = f.refused }) × IsNextListed f.failing.items f.ops f.next_failing };
}

impl Cells {
    /// A flash that holds the image from word 0 on, and the kernel; no page was erased yet.
    pub fn new(alloc: Global, image: &[u16], failing: &[u32]) -> Result<Cells, AllocError>
        requires { length image.now ≤ most_image_words }
        ensures new { IfOk result (λ cells. cells ≡ new_flash image.now failing.now) }
        ensures whole { IfOk result IsWhole }
    {
        let words = PagedWords::new(alloc, image)?;
        Cells::of(alloc, words, failing.to_vec(alloc)?)
    }

    /// A flash whose words are all erased, before any operation.
    pub fn erased(alloc: Global) -> Result<Cells, AllocError>
        ensures new { IfOk result (λ cells. cells ≡ erased_flash) }
        ensures whole { IfOk result IsWhole }
    {
        Cells::of(alloc, PagedWords::erased(alloc)?, Vec::new(alloc))
    }

    /// A flash of these words, before any operation. The operations of these numbers are to fail.
    fn of(alloc: Global, words: PagedWords, failing: Vec<u32>) -> Result<Cells, AllocError>
        requires size { length words ≡ word_count }
        requires fit { AreWords words }
        ensures new { IfOk result (λ cells. cells ≡ record { words = words; erases = many page_count 0; failing = failing.items; ops = 0; refused = None }) }
        ensures whole { IfOk result IsWhole }
    {
        let erases = no_erases(alloc)?;
        let next_failing = next_listed(&failing, 0);
        Ok(Cells {
            words,
            erases,
            failing,
            next_failing,
            ops: 0,
            refused: None,
        })
    }

    /// The word at a word address.
    pub fn word(&self, a: u16) -> u16
        ensures value { result ≡ word_at self.now.words a }
        ensures whole { IsWhole self.now }
    {
        self.words.word(a)
    }

    /// The 128 words of a page.
    pub fn page(&self, page: u16) -> &[u16]
        requires { page < page_count }
        ensures value { result.now ≡ page_of self.now.words page }
        ensures whole { IsWhole self.now }
    {
        self.words.page(page)
    }

    /// The lowest page from one on and below another that may have a jump, a JMP, into the target; None where none does.
    pub fn page_jumping_into(&self, from: u16, to: u16, target: u16) -> Option<u16>
        requires end { to ≤ page_count }
        ensures range { IfSome result (λ page. (from ≤ page) × (page < to)) }
        // Those before it have none.
        ensures lowest { IfSome result (λ page. (lower : ℕ) → from ≤ lower → lower < page → HasNoJumpInto self.now.words lower target) }
        ensures none { IfNone result ((page : ℕ) → from ≤ page → page < to → HasNoJumpInto self.now.words page target) }
    {
        self.words.page_jumping_into(from, to, target)
    }

    /// The lowest page from one on and below another that may begin with this word; None where none does.
    pub fn page_beginning(&self, from: u16, to: u16, first: u16) -> Option<u16>
        requires end { to ≤ page_count }
        ensures range { IfSome result (λ page. (from ≤ page) × (page < to)) }
        // Those before it begin otherwise.
        ensures lowest { IfSome result (λ page. (lower : ℕ) → from ≤ lower → lower < page → head self.now.words lower ≢ first) }
        ensures none { IfNone result ((page : ℕ) → from ≤ page → page < to → head self.now.words page ≢ first) }
    {
        self.words.page_beginning(from, to, first)
    }

    /// How often the page was erased, 4,294,967,295 for this many times or more.
    pub fn erases(&self, page: u16) -> u32
        requires { page < page_count }
        ensures value { result ≡ slice_index self.now.erases page }
        ensures whole { IsWhole self.now }
    {
        self.erases[page as usize]
    }

    /// How many operations were tried.
    pub fn ops(&self) -> u64
        ensures value { result ≡ self.now.ops }
        ensures whole { IsWhole self.now }
    {
        self.ops
    }

    /// The page of the last operation that was refused.
    pub fn refused(&self) -> Option<u16>
        ensures value { result ≡ self.now.refused }
        ensures whole { IsWhole self.now }
    {
        self.refused
    }

    /// Counts operations from 1 again, none of which is to fail.
    pub fn renew(&mut self)
        ensures renewed { self.new ≡ renewed self.old }
        ensures whole { IsWhole self.old × IsWhole self.new }
    {
        self.failing.clear();
        self.next_failing = next_listed(&self.failing, 0);
        self.ops = 0;
        self.refused = None;
    }

    /// Makes each word of the page 0xFFFF.
    pub fn erase(&mut self, page: u16) -> Result<(), FlashStop>
        requires page { page < page_count }
        requires room { self.old.ops < 2 ^ 63 }
        ensures done { OnOk result (self.new ≡ erased_page self.old page) }
        ensures free { OnOk result (fails self.old ≡ false) }
        ensures refused { OnErr result (self.new ≡ left_by_refusal self.old page) }
        ensures listed { OnErr result (fails self.old ≡ true) }
        ensures stop { IfErr result (λ stop. stop ≡ record { op = next_op self.old; page = page }) }
        ensures whole { IsWhole self.old × IsWhole self.new }
    {
        self.begin(page)?;
        self.words.set(page, &erased(), 0);
        count_erase(&mut self.erases, page);
        Ok(())
    }

    /// Clears in each word of the page the bits that the word to be programmed has clear. Tells how many of its words
    /// may have changed, from the first on.
    pub fn program(&mut self, page: u16, words: &[u16; 128]) -> Result<usize, FlashStop>
        requires page { page < page_count }
        requires room { self.old.ops < 2 ^ 63 }
        ensures done { OnOk result (self.new ≡ programmed_page self.old page (programmed (page_of self.old.words page) words.now)) }
        // A page that is erased then holds the words.
        ensures fresh { page_of self.old.words page ≡ blank → OnOk result (self.new ≡ programmed_page self.old page words.now) }
        ensures count { IfOk result (λ count. count ≤ page_words) }
        ensures others { IfOk result (λ count. (a : ℕ) → (a < page_words * page) ⊎ (page_words * page + count ≤ a) → word_at self.new.words a ≡ word_at self.old.words a) }
        ensures free { OnOk result (fails self.old ≡ false) }
        ensures refused { OnErr result (self.new ≡ left_by_refusal self.old page) }
        ensures listed { OnErr result (fails self.old ≡ true) }
        ensures stop { IfErr result (λ stop. stop ≡ record { op = next_op self.old; page = page }) }
        ensures whole { IsWhole self.old × IsWhole self.new }
    {
        self.begin(page)?;
        let cleared = cleared(self.words.page(page), words);
        let count = used_words(&cleared);
        self.words.set(page, &cleared, count);
        Ok(count)
    }

    /// Erases the page and programs it with these words, as [`Cells::erase`] and then [`Cells::program`] do: two operations, of
    /// which the second isn't tried where the first is refused. The words are others from one on up to another alone.
    pub fn rewrite(
        &mut self,
        page: u16,
        words: &[u16; 128],
        from: usize,
        to: usize,
    ) -> Result<(), RewriteStop>
        requires page { page < page_count }
        requires room { self.old.ops + 1 < 2 ^ 63 }
        requires from { from ≤ to }
        requires to { to ≤ page_words }
        requires changed { ChangeBetween from to (page_of self.old.words page) words.now }
        ensures performed { perform self.old (rewriting page words.now) ≡ record { memory = self.new; refusal = refusal_in_rewriting page words.now result } }
        ensures words { OnOk result (self.new.words ≡ set_page self.old.words page words.now) }
        ensures torn { IfErr result (λ stop. self.new.words ≡ (if stop.erased then set_page self.old.words page blank else self.old.words)) }
        ensures whole { IsWhole self.old × IsWhole self.new }
    {
        if let Err(stop) = self.begin(page) {
            return Err(RewriteStop {
                op: stop.op,
                erased: false,
            });
        }
        count_erase(&mut self.erases, page);
        match self.begin(page) {
            Ok(()) => {
                self.words.change(page, words, from, to);
                Ok(())
            }
            Err(stop) => {
                self.words.set(page, &erased(), 0);
                Err(RewriteStop {
                    op: stop.op,
                    erased: true,
                })
            }
        }
    }

    /// Numbers the next operation, on this page. It is refused where its number is listed.
    fn begin(&mut self, page: u16) -> Result<(), FlashStop>
        requires room { self.old.ops < 2 ^ 63 }
        ensures going { OnOk result (self.new ≡ record self.old { ops = next_op self.old }) }
        ensures free { OnOk result (fails self.old ≡ false) }
        ensures refused { OnErr result (self.new ≡ left_by_refusal self.old page) }
        ensures listed { OnErr result (fails self.old ≡ true) }
        ensures stop { IfErr result (λ stop. stop ≡ record { op = next_op self.old; page = page }) }
        ensures whole { IsWhole self.old × IsWhole self.new }
    {
        self.ops += 1;
        if self.ops == self.next_failing {
            self.next_failing = next_listed(&self.failing, self.ops);
            self.refused = Some(page);
            return Err(FlashStop { op: self.ops, page });
        }
        Ok(())
    }
}

/// The counts of erases of a flash that is new.
#[tactic(auto, unfolding(crate::specs::Pages::many))]
fn no_erases(alloc: Global) -> Result<Vec<u32>, AllocError>
    ensures value { IfOk result (λ erases. erases.items ≡ many page_count 0) }
    ensures size { IfOk result (λ erases. length erases.items ≡ page_count) }
{
    let mut erases = Vec::new(alloc);
    erases.resize(PAGES, 0)?;
    Ok(erases)
}

/// Counts one more erase of the page.
fn count_erase(erases: &mut Vec<u32>, page: u16)
    requires inside { page < length erases.old.items }
    ensures value { erases.new.items ≡ slice_set erases.old.items page (raised (slice_index erases.old.items page)) }
{
    let count = erases[page as usize];
    erases[page as usize] = count.saturating_add(1);
}

/// The words of an erased page.
#[tactic(auto, unfolding(crate::specs::Pages::blank, crate::specs::Pages::many))]
fn erased() -> [u16; 128]
    ensures value { result ≡ blank }
{
    [BLANK; 128]
}

/// The words of a page that is programmed: each is the old AND the new.
fn cleared(page: &[u16], words: &[u16; 128]) -> [u16; 128]
    requires { length page.now ≡ page_words }
    ensures value { result ≡ programmed page.now words.now }
    ensures fresh { page.now ≡ blank → result ≡ words.now }
{
    let mut cleared = [BLANK; 128];
    cleared.copy_from_slice(page);
    clear_bits(&mut cleared, words);
    cleared
}

/// Clears in each word of a page the bits that these words have clear.
fn clear_bits(page: &mut [u16], words: &[u16; 128])
    requires { length page.old ≡ page_words }
    ensures value { page.new ≡ programmed page.old words.now }
    ensures fresh { page.old ≡ blank → page.new ≡ words.now }
{
    for (i, word) in page.iter_mut().enumerate() {
        *word &= words[i];
    }
}

/// How many words of a page there are up to the end of the last block that has one that isn't 0xFFFF.
fn used_words(words: &[u16; 128]) -> usize
    ensures size { result ≤ page_words }
    ensures rest { IsBlankFrom words.now result }
{
    let mut count = PAGE_WORDS;
    'behind: while count > 0 {
        if is_used(words, count - BLOCK_WORDS) {
            return count;
        }
        count -= BLOCK_WORDS;
    }
    0
}

/// Whether one of the words of a block isn't 0xFFFF. They are compared without a branch between them.
fn is_used(words: &[u16; 128], first: usize) -> bool
    requires inside { first + 16 ≤ page_words }
    ensures blank { result ≡ false → (k : ℕ) → first ≤ k → k < first + 16 → slice_index words.now k ≡ 0xFFFF }
{
    let mut any = false;
    'words: for i in 0..BLOCK_WORDS {
        any = any | (words[first + i] != BLANK);
    }
    any
}
