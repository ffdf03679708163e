//! A page that was drafted, until its address wants one again.

ghost use Rattle.std.specs.Prelude.{◌≡◌, ℕ, ◌+◌, ◌*◌, ◌/◌, ◌%◌, ◌<◌, ◌≤◌, true, false, length, slice_index_or};
ghost use Rattle.avr_isa.specs.Image.{word};
ghost use Rattle.flash_words.specs.Pages.{word_at};
ghost use Rattle.flash_words.specs.Layouts.{IsRight, image_of};
ghost use Rattle.page_index.specs.Entries.{AreKnown};
ghost use Rattle.flash_model.specs.DecodeCache.{StandForPage};
ghost use Rattle.nat_page.specs.Making.{HasNoEntry};
ghost use Rattle.kept_drafts.specs.Keeping.{Serves};

use flash_model::{Flash, Layout, MicroOp, PAGE_WORDS, micro_op, word_in_image};
use nat_page::{draft_page, page_words};
use std::marker::Model;

/// A page that was drafted, with what its words go by: those of its original page, the one behind these, and which
/// addresses have entries. So it may be kept whatever flash does.
#[derive(Drop)]
pub struct KeptDraft {
    /// Whether it was drafted.
    made: bool,
    /// Whether the micro-operations of its code are known.
    learnt: bool,
    /// The address that its run begins with.
    first: u16,
    /// The address of its run's last instruction.
    last: u16,
    /// The address behind its run.
    next: u16,
    /// Whether that has an entry, which stops the run.
    stops_at_entry: bool,
    /// Its words.
    words: [u16; 128],
    /// How many of them stand in front of its code: two, and the map.
    front: u16,
    /// How many stand in front of the erased ones.
    size: u16,
    /// The micro-operation of each word but the last.
    micro_ops: [MicroOp; 128],
    /// How many words the image has.
    image_words: u16,
    /// The words of its run's original page.
    original: [u16; 128],
    /// The image's word behind these.
    behind: u16,
}

impl Model for KeptDraft {
    ghost use Rattle.kept_drafts.specs.Keeping.{Kept, IsKept};

    ghost Value = { Kept };

    ghost view = { λ d. record { made = d.made; first = d.first; last = d.last; next = d.next; stops_at_entry = d.stops_at_entry; words = d.words; front = d.front; micro_ops = d.micro_ops; image_words = d.image_words; original = d.original; behind = d.behind } };

    ghost invariant = { λ d. IsKept (record { made = d.made; first = d.first; last = d.last; next = d.next; stops_at_entry = d.stops_at_entry; words = d.words; front = d.front; micro_ops = d.micro_ops; image_words = d.image_words; original = d.original; behind = d.behind }) };
}

impl KeptDraft {
    /// None was made yet.
    pub fn none() -> KeptDraft {
        KeptDraft {
            made: false,
            learnt: false,
            first: 0,
            last: 0,
            next: 0,
            stops_at_entry: false,
            words: [0; 128],
            front: 0,
            size: 0,
            micro_ops: [MicroOp::Undecoded; 128],
            image_words: 0,
            original: [0; 128],
            behind: 0,
        }
    }

    /// The address that its run begins with.
    pub(crate) fn first(&self) -> u16
        ensures first { result ≡ self.now.first }
    {
        self.first
    }

    /// The words of the page.
    pub fn words(&self) -> &[u16; 128]
        ensures words { result.now ≡ self.now.words }
    {
        &self.words
    }

    /// The micro-operation of each word but the last, or none.
    pub fn micro_ops(&self) -> &[MicroOp; 128]
        ensures stand { StandForPage self.now.words result.now }
    {
        &self.micro_ops
    }

    /// How many words stand in front of the code of its first address.
    pub fn front(&self) -> u16
        ensures front { result ≡ self.now.front }
        ensures few { result ≤ 128 }
    {
        self.front
    }

    /// Drafts the page of `t`.
    pub(crate) fn make(&mut self, flash: &Flash, layout: &Layout, known: &[bool; 128], t: u16)
        requires right { IsRight layout.now }
        requires known { AreKnown layout.now flash.now.words (t / 128) known.now }
        requires image { length (image_of layout.now flash.now.words) ≡ layout.now.image_words }
        requires inside { t < layout.now.image_words }
        requires unknown { HasNoEntry layout.now flash.now.words t }
        ensures serves { Serves layout.now (image_of layout.now flash.now.words) flash.now.words t self.new }
    {
        let page = draft_page(flash, layout, known, t);
        let words = page.words;
        *self = KeptDraft {
            made: true,
            learnt: false,
            first: t,
            last: page.last,
            next: page.next,
            stops_at_entry: is_entry_behind(layout, known, t, page.next),
            words,
            front: page.front,
            size: page.size,
            micro_ops: [MicroOp::Undecoded; 128],
            image_words: layout.image_words,
            original: page_words(flash, t / PAGE_WORDS),
            behind: word_behind(flash, layout, t),
        };
    }

    /// Whether it is the page of `t`, as it would be drafted.
    pub(crate) fn serves(&self, flash: &Flash, layout: &Layout, known: &[bool; 128], t: u16) -> bool
        requires right { IsRight layout.now }
        requires known { AreKnown layout.now flash.now.words (t / 128) known.now }
        requires image { length (image_of layout.now flash.now.words) ≡ layout.now.image_words }
        requires inside { t < layout.now.image_words }
        requires unknown { HasNoEntry layout.now flash.now.words t }
        ensures serves { result ≡ true → Serves layout.now (image_of layout.now flash.now.words) flash.now.words t self.now }
    {
        if !self.made || self.first != t || self.image_words != layout.image_words {
            return false;
        }
        if !self.stops_still(known) {
            return false;
        }
        let from = (t % PAGE_WORDS) as usize;
        let end = (self.last % PAGE_WORDS) as usize + 1;
        if !none_is_known(known, from, end) {
            return false;
        }
        if self.behind != word_behind(flash, layout, t) {
            return false;
        }
        are_same(flash.page(t / PAGE_WORDS), &self.original)
    }

    /// Whether the entry that stopped its run is still there, if one did.
    fn stops_still(&self, known: &[bool; 128]) -> bool
        ensures still { result ≡ true → self.now.stops_at_entry ≡ true → slice_index_or known.now (self.now.next % 128) false ≡ true }
    {
        if self.stops_at_entry {
            known[(self.next % PAGE_WORDS) as usize]
        } else {
            true
        }
    }

    /// Makes the micro-operations of its code, if that isn't done.
    pub(crate) fn learn(&mut self)
        ensures words { self.new.words ≡ self.old.words }
        ensures front { self.new.front ≡ self.old.front }
    {
        if self.learnt {
            return;
        }
        self.learnt = true;
        let from = usize::from(self.front);
        let end = usize::from(self.size).min(127);
        learn_words(&self.words, &mut self.micro_ops, from, end);
    }
}

/// Makes the micro-operations of words from one on up to another.
fn learn_words(words: &[u16; 128], micro_ops: &mut [MicroOp; 128], from: usize, end: usize)
    requires end { end < 128 }
    requires stand { StandForPage words.now micro_ops.old }
    ensures stand { StandForPage words.now micro_ops.new }
{
    'words: for i in from..end {
        micro_ops[i] = micro_op(words[i], words[i + 1]);
    }
}

/// Whether the address behind a run of `t` has an entry that stops the run.
fn is_entry_behind(layout: &Layout, known: &[bool; 128], t: u16, next: u16) -> bool
    ensures paged { result ≡ true → next / 128 ≡ t / 128 }
    ensures none { result ≡ false → next / 128 ≡ t / 128 → next < layout.now.image_words → slice_index_or known.now (next % 128) false ≡ false }
{
    if next / PAGE_WORDS != t / PAGE_WORDS {
        return false;
    }
    if next >= layout.image_words {
        return false;
    }
    known[(next % PAGE_WORDS) as usize]
}

/// The image's word behind the original page of an address.
fn word_behind(flash: &Flash, layout: &Layout, t: u16) -> u16
    ensures word { result ≡ word (image_of layout.now flash.now.words) (128 * (t / 128 + 1)) }
{
    word_in_image(
        flash,
        layout,
        u32::from(PAGE_WORDS) * (u32::from(t / PAGE_WORDS) + 1),
    )
}

/// Whether these are the same words. All are looked at, since that takes less time than to stop at the first that isn't.
fn are_same(words: &[u16], others: &[u16; 128]) -> bool
    requires size { length words.now ≡ 128 }
    ensures same { result ≡ true → (k : ℕ) → k < 128 → word_at words.now k ≡ word_at others.now k }
{
    let mut same = true;
    'words: for i in 0..128 {
        same = same & (words[i] == others[i]);
    }
    same
}

/// Whether none of the addresses from one on up to another has an entry, by their offsets.
fn none_is_known(known: &[bool; 128], from: usize, end: usize) -> bool
    requires end { end ≤ 128 }
    ensures none { result ≡ true → (k : ℕ) → from ≤ k → k < end → slice_index_or known.now k false ≡ false }
{
    let mut none = true;
    'offsets: for k in from..end {
        none = none & !known[k];
    }
    none
}
