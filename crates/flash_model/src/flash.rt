//! Flash: its words, and what is decoded of them.

ghost use Rattle.std.specs.Prelude.{◌≡◌, ◌≢◌, ℕ, ◌+◌, ◌≤◌, ◌<◌, ◌^◌, true, false, [], ◌∷◌, length, OnOk, OnErr, IfOk, IfErr, IfSome, IfNone, slice_index};
ghost use Rattle.flash_words.specs.Pages.{word_count, page_count, word_at, page_of, blank, programmed};
ghost use Rattle.flash_words.specs.Memory.{IsWhole, erased_flash, new_flash};
ghost use Rattle.flash_words.specs.Layouts.{most_image_words};
ghost use Rattle.flash_words.specs.Operations.{next_op, fails, left_by_refusal, erased_page, programmed_page, renewed, Erase, Program, perform, refusal_of};
ghost use Rattle.flash_model.specs.Code.{decoded_at};
ghost use Rattle.flash_model.specs.DecodeCache.{AreMicroOps, StandForPage};
ghost use Rattle.flash_words.specs.Rewriting.{rewriting, refusal_in_rewriting};
ghost use Rattle.flash_words.specs.Jumps.{HasNoJumpInto};
ghost use Rattle.flash_words.specs.Heads.{head};

use crate::MicroOp;
use crate::changed_words::{first_changed, last_changed};
use crate::decode_cache::{DecodeCache, PAGE_WORDS};
use crate::decoded::Decoded;
use base::NoMemory;
use flash_words::{Cells, FlashStop, RewriteStop};
use std::alloc::Global;
use std::marker::Model;

/// The program memory, by word addresses.
#[derive(Drop)]
pub struct Flash {
    cells: Cells,
    cache: DecodeCache,
}

impl Model for Flash {
    ghost use Rattle.flash_words.specs.Memory.{Memory, IsWhole};
    ghost use Rattle.flash_model.specs.DecodeCache.{IsCache};

    ghost Value = { Memory };

    ghost view = { λ f. f.cells };

    ghost invariant = { λ f. IsWhole f.cells × IsCache f.cells.words f.cache };
}

impl Flash {
    /// A flash that holds the image from word 0 on, and the kernel; no page was erased yet. The operations of
    /// these numbers, which may have any order, are to fail.
    pub fn new(alloc: Global, image: &[u16], failing: &[u32]) -> Result<Flash, NoMemory>
        requires { length image.now ≤ most_image_words }
        ensures new { IfOk result (λ flash. flash ≡ new_flash image.now failing.now) }
        ensures whole { IfOk result IsWhole }
    {
        Flash::of(alloc, Cells::new(alloc, image, failing)?, image.len())
    }

    /// A flash whose words are all erased, the kernel's too, before any operation; none is to fail.
    pub fn erased(alloc: Global) -> Result<Flash, NoMemory>
        ensures new { IfOk result (λ flash. flash ≡ erased_flash) }
        ensures whole { IfOk result IsWhole }
    {
        Flash::of(alloc, Cells::erased(alloc)?, 0)
    }

    /// A flash of these words, of which the first so many are an image's.
    fn of(alloc: Global, cells: Cells, image_words: usize) -> Result<Flash, NoMemory>
        requires whole { IsWhole cells }
        requires image { image_words < word_count }
        ensures new { IfOk result (λ flash. flash ≡ cells) }
        ensures whole { IfOk result IsWhole }
    {
        let cache = DecodeCache::new(alloc, &cells, image_words)?;
        Ok(Flash { cells, cache })
    }

    /// The word at a word address.
    pub fn word(&self, a: u16) -> u16
        ensures value { result ≡ word_at self.now.words a }
        ensures whole { IsWhole self.now }
    {
        self.cells.word(a)
    }

    /// The 128 words of a page.
    pub fn page(&self, page: u16) -> &[u16]
        requires { page < page_count }
        ensures value { result.now ≡ page_of self.now.words page }
        ensures whole { IsWhole self.now }
    {
        self.cells.page(page)
    }

    /// What is decoded at a word address, where that is kept: at each of the image's.
    #[inline(always)]
    pub fn decoded(&self, a: u16) -> Option<&Decoded>
        ensures value { IfSome result (λ decoded. decoded.now ≡ decoded_at self.now.words a) }
        ensures range { IfSome result (λ decoded. (1 ≤ decoded.now.next_size) × (decoded.now.next_size ≤ 2)) }
        ensures whole { IsWhole self.now }
    {
        // By cases, since the size's range is proved of what is there.
        match self.cache.decoded(a) {
            Some(decoded) => Some(decoded),
            None => None,
        }
    }

    /// For each word address the micro-operation there, for the step that executes it: `Undecoded` until [`Flash::predecode`] was
    /// called there, or [`Flash::program_known`] told it, and again once its words have changed.
    #[inline(always)]
    pub fn micro_ops(&self) -> &[MicroOp]
        ensures all { AreMicroOps self.now.words result.now }
    {
        self.cache.micro_ops()
    }

    /// Decodes at a word address: the instruction that its word begins, with the word behind it (behind the last word comes the
    /// first), NOP also where they begin none. The next steps there are made by its micro-operation.
    pub fn predecode(&mut self, a: u16) -> Decoded
        ensures value { result ≡ decoded_at self.old.words a }
        ensures range { (1 ≤ result.next_size) × (result.next_size ≤ 2) }
        ensures same { self.new ≡ self.old }
        ensures whole { IsWhole self.new }
    {
        self.cache.predecode(&self.cells, a)
    }

    /// The lowest page from one on and below another that may have a jump, a JMP, into the target; None where none does.
    pub fn page_jumping_into(&self, from: u16, to: u16, target: u16) -> Option<u16>
        requires end { to ≤ page_count }
        ensures range { IfSome result (λ page. (from ≤ page) × (page < to)) }
        // Those before it have none.
        ensures lowest { IfSome result (λ page. (lower : ℕ) → from ≤ lower → lower < page → HasNoJumpInto self.now.words lower target) }
        ensures none { IfNone result ((page : ℕ) → from ≤ page → page < to → HasNoJumpInto self.now.words page target) }
    {
        self.cells.page_jumping_into(from, to, target)
    }

    /// The lowest page from one on and below another that may begin with this word; None where none does.
    pub fn page_beginning(&self, from: u16, to: u16, first: u16) -> Option<u16>
        requires end { to ≤ page_count }
        ensures range { IfSome result (λ page. (from ≤ page) × (page < to)) }
        // Those before it begin otherwise.
        ensures lowest { IfSome result (λ page. (lower : ℕ) → from ≤ lower → lower < page → head self.now.words lower ≢ first) }
        ensures none { IfNone result ((page : ℕ) → from ≤ page → page < to → head self.now.words page ≢ first) }
    {
        self.cells.page_beginning(from, to, first)
    }

    /// How often the page was erased, 4,294,967,295 for this many times or more.
    pub fn erases(&self, page: u16) -> u32
        requires { page < page_count }
        ensures value { result ≡ slice_index self.now.erases page }
        ensures whole { IsWhole self.now }
    {
        self.cells.erases(page)
    }

    /// How many operations were tried: erases and programs, refused ones too.
    pub fn ops(&self) -> u64
        ensures value { result ≡ self.now.ops }
        ensures whole { IsWhole self.now }
    {
        self.cells.ops()
    }

    /// The page of the last operation that was refused; None where none was.
    pub fn refused(&self) -> Option<u16>
        ensures value { result ≡ self.now.refused }
        ensures whole { IsWhole self.now }
    {
        self.cells.refused()
    }

    /// Counts operations from 1 again, none of which is to fail. No word changes.
    pub fn renew(&mut self)
        ensures renewed { self.new ≡ renewed self.old }
        ensures whole { IsWhole self.old × IsWhole self.new }
    {
        self.cells.renew();
    }

    /// Makes each word of the page 0xFFFF. An operation: refused where its number is listed.
    pub fn erase(&mut self, page: u16) -> Result<(), FlashStop>
        requires page { page < page_count }
        requires room { self.old.ops < 2 ^ 63 }
        ensures done { OnOk result (self.new ≡ erased_page self.old page) }
        ensures free { OnOk result (fails self.old ≡ false) }

        // No word changes then, nor a count of erases.
        ensures refused { OnErr result (self.new ≡ left_by_refusal self.old page) }
        ensures listed { OnErr result (fails self.old ≡ true) }
        ensures stop { IfErr result (λ stop. stop ≡ record { op = next_op self.old; page = page }) }

        // All of that in one equation.
        ensures performed { perform self.old (Erase page ∷ []) ≡ record { memory = self.new; refusal = refusal_of (Erase page) result } }
        ensures whole { IsWhole self.old × IsWhole self.new }
    {
        self.cells.erase(page)?;
        let first = PAGE_WORDS * page as usize;
        self.cache.renew(&self.cells, first, first + PAGE_WORDS);
        Ok(())
    }

    /// Clears in each word of the page the bits that the word to be programmed has clear. An operation: refused
    /// where its number is listed.
    pub fn program(&mut self, page: u16, words: &[u16; 128]) -> Result<(), FlashStop>
        requires page { page < page_count }
        requires room { self.old.ops < 2 ^ 63 }
        ensures done { OnOk result (self.new ≡ programmed_page self.old page (programmed (page_of self.old.words page) words.now)) }
        // A page that is erased then holds the words.
        ensures fresh { page_of self.old.words page ≡ blank → OnOk result (self.new ≡ programmed_page self.old page words.now) }
        ensures free { OnOk result (fails self.old ≡ false) }

        // No word changes then.
        ensures refused { OnErr result (self.new ≡ left_by_refusal self.old page) }
        ensures listed { OnErr result (fails self.old ≡ true) }
        ensures stop { IfErr result (λ stop. stop ≡ record { op = next_op self.old; page = page }) }

        // All of that in one equation, for a page that is erased.
        ensures performed { page_of self.old.words page ≡ blank → perform self.old (Program page words.now ∷ []) ≡ record { memory = self.new; refusal = refusal_of (Program page words.now) result } }
        ensures whole { IsWhole self.old × IsWhole self.new }
    {
        let count = self.cells.program(page, words)?;
        let first = PAGE_WORDS * page as usize;
        self.cache.renew(&self.cells, first, first + count);
        Ok(())
    }

    /// Programs a page that is erased, as [`Flash::program`] does. The micro-operations of its words but the last are told with
    /// them, so that no step has to make these.
    pub fn program_known(
        &mut self,
        page: u16,
        words: &[u16; 128],
        micro_ops: &[MicroOp; 128],
    ) -> Result<(), FlashStop>
        requires page { page < page_count }
        requires room { self.old.ops < 2 ^ 63 }
        requires erased { page_of self.old.words page ≡ blank }
        requires micro_ops { StandForPage words.now micro_ops.now }
        ensures done { OnOk result (self.new ≡ programmed_page self.old page words.now) }
        ensures free { OnOk result (fails self.old ≡ false) }
        ensures refused { OnErr result (self.new ≡ left_by_refusal self.old page) }
        ensures listed { OnErr result (fails self.old ≡ true) }
        ensures stop { IfErr result (λ stop. stop ≡ record { op = next_op self.old; page = page }) }
        ensures whole { IsWhole self.old × IsWhole self.new }
    {
        self.program(page, words)?;
        self.cache
            .learn(&self.cells, PAGE_WORDS * page as usize, micro_ops);
        Ok(())
    }

    /// Erases the page and programs it with these words, as [`Flash::erase`] and then [`Flash::program`] do: two operations, of
    /// which the second isn't tried where the first is refused. What is decoded in front of the first word that changes is kept,
    /// and behind the last. Not inlined, so that a caller that makes its own answer of this one is.
    #[inline(never)]
    pub fn rewrite(&mut self, page: u16, words: &[u16; 128]) -> Result<(), RewriteStop>
        requires page { page < page_count }
        requires room { self.old.ops + 1 < 2 ^ 63 }
        ensures performed { perform self.old (rewriting page words.now) ≡ record { memory = self.new; refusal = refusal_in_rewriting page words.now result } }
        ensures whole { IsWhole self.old × IsWhole self.new }
    {
        let first = PAGE_WORDS * page as usize;
        let before = self.cells.page(page);
        let from = first_changed(before, words);
        let to = last_changed(before, words, from);
        match self.cells.rewrite(page, words, from, to) {
            Ok(()) => {
                self.cache.renew(&self.cells, first + from, first + to);
                Ok(())
            }
            Err(stop) => {
                if stop.erased {
                    self.cache.renew(&self.cells, first, first + PAGE_WORDS);
                }
                Err(stop)
            }
        }
    }
}
