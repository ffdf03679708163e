//! What is decoded of the words of flash, and what of it is made anew when words change.

ghost use Rattle.std.specs.Prelude.{◌≡◌, ◌≤◌, ◌<◌, ◌+◌, ◌-◌, ◌++◌, List, ℕ, length, take, drop, replicate, IfOk, IfSome, slice_set, slice_index_or};
ghost use Rattle.flash_model.specs.declared.micro_ops.MicroOp.{MicroOp};
ghost use Rattle.flash_model.specs.declared.micro_ops.MicroOp.TheVariants.{Undecoded};
ghost use Rattle.flash_words.specs.Pages.{word_count, page_words};
ghost use Rattle.flash_model.specs.Code.{decoded_at};
ghost use Rattle.flash_model.specs.DecodeCache.{StandsAt, IsCache, IsCacheBeside, AreDecoded, AreDecodedOutside, AreDecodedBeside};

use crate::MicroOp;
use crate::decoded::Decoded;
use crate::decoded_pairs::DecodedPairs;
use base::NoMemory;
use flash_words::{self, Cells, WORDS};
use std::alloc::{AllocError, Global};

/// The words of a page.
pub(crate) const PAGE_WORDS: usize = flash_words::PAGE_WORDS as usize;

/// What is decoded is kept, since what stands in flash is executed more often than it changes.
#[derive(Drop)]
pub(crate) struct DecodeCache {
    /// What is decoded at each of the first word addresses, which the image has.
    decoded: Vec<Decoded>,
    /// For each word address the micro-operation of what is decoded there, once it was asked for.
    micro_ops: Vec<MicroOp>,
    /// Words that were decoded already.
    pairs: DecodedPairs,
}

impl DecodeCache {
    /// What is decoded at the first so many word addresses, and no micro-operation yet.
    pub(crate) fn new(alloc: Global, cells: &Cells, count: usize) -> Result<DecodeCache, NoMemory>
        requires count { count < word_count }
        ensures cache { IfOk result (λ cache. IsCache cells.now.words cache) }
    {
        let mut cache = DecodeCache {
            decoded: zeros_decoded(alloc, count)?,
            micro_ops: nothing_decoded(alloc)?,
            pairs: DecodedPairs::new(alloc)?,
        };
        cache.renew_range(cells, 0, count);
        Ok(cache)
    }

    /// What is decoded at a word address, if it is one of the first.
    #[inline(always)]
    pub(crate) fn decoded(&self, a: u16) -> Option<&Decoded>
        ensures value { (words : List ℕ) → AreDecoded words self.now.decoded.items → IfSome result (λ decoded. decoded.now ≡ decoded_at words a) }
    {
        self.decoded.get(a as usize)
    }

    /// For each word address the micro-operation of what is decoded there, if that was asked for.
    #[inline(always)]
    pub(crate) fn micro_ops(&self) -> &[MicroOp]
        ensures micro_ops { result.now ≡ self.now.micro_ops.items }
    {
        &self.micro_ops
    }

    /// What is decoded at a word address, whose micro-operation is kept from now on.
    pub(crate) fn predecode(&mut self, cells: &Cells, a: u16) -> Decoded
        requires cache { IsCache cells.now.words self.old }
        ensures value { result ≡ decoded_at cells.now.words a }
        ensures cache { IsCache cells.now.words self.new }
    {
        let decoded = decoded_by(&mut self.pairs, cells, a);
        if let MicroOp::Undecoded = self.micro_ops[a as usize] {
            self.micro_ops[a as usize] = decoded.micro_op();
        }
        decoded
    }

    /// Follows the words of a range, which have changed. What is decoded at an address goes by its word and the one behind
    /// it, so the address before the range changes too.
    pub(crate) fn renew(&mut self, cells: &Cells, from: usize, to: usize)
        requires from { from < word_count }
        requires order { from ≤ to }
        requires end { to ≤ word_count }
        requires few { to ≤ from + page_words }
        requires beside { IsCacheBeside cells.now.words self.old from to }
        ensures cache { IsCache cells.now.words self.new }
    {
        forget(&mut self.micro_ops, (from as u16).wrapping_sub(1));
        forget_range(&mut self.micro_ops, from, to);
        self.renew_decoded(cells, from, to);
    }

    /// Keeps these micro-operations for the words but the last of the page that begins with this word.
    pub(crate) fn learn(&mut self, cells: &Cells, first: usize, micro_ops: &[MicroOp; PAGE_WORDS])
        requires first { first + page_words ≤ word_count }
        requires stand { (i : ℕ) (op : MicroOp) → i + 1 < page_words → StandsAt cells.now.words (first + i) (slice_index_or micro_ops.now i op) }
        requires cache { IsCache cells.now.words self.old }
        ensures cache { IsCache cells.now.words self.new }
    {
        put_micro_ops(&mut self.micro_ops, first, &micro_ops[..PAGE_WORDS - 1]);
    }

    /// Decodes at the first word addresses again, where they read a word of this range.
    fn renew_decoded(&mut self, cells: &Cells, from: usize, to: usize)
        requires order { from ≤ to }
        requires beside { AreDecodedBeside cells.now.words self.old.decoded.items from to }
        ensures decoded { AreDecoded cells.now.words self.new.decoded.items }
        ensures micro_ops { self.new.micro_ops ≡ self.old.micro_ops }
    {
        let count = self.decoded.len();
        if from > count {
            return;
        }
        self.renew_range(cells, from.max(1) - 1, to.min(count));
    }

    /// Decodes at the word addresses from one on up to another, which are some of the first.
    fn renew_range(&mut self, cells: &Cells, from: usize, to: usize)
        requires end { to ≤ length self.old.decoded.items }
        requires outside { AreDecodedOutside cells.now.words self.old.decoded.items from to }
        ensures decoded { AreDecoded cells.now.words self.new.decoded.items }
        ensures micro_ops { self.new.micro_ops ≡ self.old.micro_ops }
    {
        'renew: for a in from..to {
            self.renew_at(cells, a as u16);
        }
    }

    /// Decodes at one of the first word addresses.
    #[inline(always)]
    fn renew_at(&mut self, cells: &Cells, a: u16)
        requires inside { a < length self.old.decoded.items }
        ensures decoded { self.new.decoded.items ≡ slice_set self.old.decoded.items a (decoded_at cells.now.words a) }
        ensures micro_ops { self.new.micro_ops ≡ self.old.micro_ops }
    {
        self.decoded[a as usize] = decoded_by(&mut self.pairs, cells, a);
    }
}

/// What is decoded at a word address; behind the last word comes the first. Words that were decoded already aren't again.
#[inline(always)]
fn decoded_by(pairs: &mut DecodedPairs, cells: &Cells, a: u16) -> Decoded
    ensures value { result ≡ decoded_at cells.now.words a }
{
    pairs.decoded(cells.word(a), cells.word(a.wrapping_add(1)))
}

/// Forgets the micro-operation at a word address.
fn forget(micro_ops: &mut Vec<MicroOp>, a: u16)
    requires sized { length micro_ops.old.items ≡ word_count }
    ensures micro_ops { micro_ops.new.items ≡ slice_set micro_ops.old.items a Undecoded }
{
    micro_ops[a as usize] = MicroOp::Undecoded;
}

/// Forgets the micro-operations at the word addresses from one on up to another, by one copy.
fn forget_range(micro_ops: &mut Vec<MicroOp>, from: usize, to: usize)
    requires order { from ≤ to }
    requires end { to ≤ word_count }
    requires few { to ≤ from + page_words }
    requires sized { length micro_ops.old.items ≡ word_count }
    ensures micro_ops { micro_ops.new.items ≡ take from micro_ops.old.items ++ replicate (to - from) Undecoded ++ drop to micro_ops.old.items }
{
    let none = [MicroOp::Undecoded; PAGE_WORDS];
    put_micro_ops(micro_ops, from, &none[..to - from]);
}

/// Puts these micro-operations at the word addresses from one on.
fn put_micro_ops(micro_ops: &mut Vec<MicroOp>, from: usize, new: &[MicroOp])
    requires inside { from + length new.now ≤ length micro_ops.old.items }
    ensures put { micro_ops.new.items ≡ take from micro_ops.old.items ++ new.now ++ drop (from + length new.now) micro_ops.old.items }
{
    micro_ops[from..from + new.len()].copy_from_slice(new);
}

/// What two words of 0 are decoded to, so many times.
fn zeros_decoded(alloc: Global, count: usize) -> Result<Vec<Decoded>, NoMemory>
    requires count { count < word_count }
    ensures size { IfOk result (λ decoded. length decoded.items ≡ count) }
{
    let mut decoded = Vec::new(alloc);
    decoded.resize(count, Decoded::new(0, 0))?;
    Ok(decoded)
}

/// No micro-operation at any word address.
fn nothing_decoded(alloc: Global) -> Result<Vec<MicroOp>, AllocError>
    ensures size { IfOk result (λ micro_ops. length micro_ops.items ≡ word_count) }
    ensures none { IfOk result (λ micro_ops. (a : ℕ) (op : MicroOp) → a < word_count → slice_index_or micro_ops.items a op ≡ Undecoded) }
{
    let mut micro_ops = Vec::new(alloc);
    micro_ops.resize(WORDS, MicroOp::Undecoded)?;
    Ok(micro_ops)
}
