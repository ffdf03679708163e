//! Making a page.

ghost use Rattle.std.specs.Prelude.{◌≡◌, ℕ, List, ◌+◌, ◌/◌, ◌<◌, ◌^◌, true, false, IfOk, IfErr, OnOk, OnErr};
ghost use Rattle.flash_words.specs.Layouts.{IsRight, image_of};
ghost use Rattle.flash_words.specs.Operations.{next_op, fails, left_by_refusal};
ghost use Rattle.page_index.specs.Maps.{IsPool, IsFree};
ghost use Rattle.nat_page.specs.declared.making.NatStop.TheVariants as stops;
ghost use Rattle.page_index.specs.Entries.{IsEntry, AreKnown};
ghost use Rattle.nat_page.specs.Faithful.{IsFaithful};
ghost use Rattle.nat_page.specs.Links.{IsUnresolved};
ghost use Rattle.nat_page.specs.Used.{used_pages};
ghost use Rattle.nat_page.specs.Making.{HasNoEntry, IsPrepared, NaturalisesIn};

use crate::drafting::draft_page;
use flash_model::{Flash, Layout, PAGE_WORDS};
use page_index::known_offsets;

/// Why no page was made.
#[derive(Clone, Copy, PartialEq, Eq)]
pub enum NatStop {
    /// The operation on flash that makes it was refused.
    Flash {
        /// Its number.
        op: u64,
    },
}

/// A page that is to be made.
#[derive(Clone, Copy)]
pub struct Prepared {
    /// Its words.
    pub words: [u16; 128],
    /// The place of its first address, a word address of flash.
    pub place: u16,
}

/// Makes the page of the original address `t` in this page of the pool, which is free, and gives the place of
/// `t`, a word address of flash. The run begins at `t` and goes on as far as it may; its links are calls of
/// the kernel's bridge.
///
/// This is the plain form: the program takes what `KeptDrafts::draft` of `kept_drafts` gives, and programs the page itself.
pub fn naturalise(flash: &mut Flash, layout: &Layout, page: u16, t: u16) -> Result<u16, NatStop>
    requires right { IsRight layout.now }
    requires code { IsFaithful layout.now (image_of layout.now flash.old.words) flash.old.words }
    requires pool { IsPool layout.now page }
    requires free { IsFree flash.old.words page }
    requires inside { t < layout.now.image_words }
    requires unknown { HasNoEntry layout.now flash.old.words t }
    requires room { flash.old.ops < 2 ^ 62 }
    ensures done { OnOk result (fails flash.old ≡ false) }
    ensures after { IfOk result (λ place. NaturalisesIn layout.now flash.old flash.new page t place) }
    ensures refused { OnErr result ((fails flash.old ≡ true) × (flash.new ≡ left_by_refusal flash.old page)) }
    // The pool stays faithful to the same image, with its entries and its stubs.
    ensures faithful { IsFaithful layout.now (image_of layout.now flash.old.words) flash.new.words }
    ensures image { image_of layout.now flash.new.words ≡ image_of layout.now flash.old.words }
    ensures entered { IfOk result (λ place. IsEntry layout.now flash.new.words t place) }
    ensures entries { (a v : ℕ) → IsEntry layout.now flash.old.words a v → IsEntry layout.now flash.new.words a v }
    ensures stubs { (s to : ℕ) → IsUnresolved layout.now (image_of layout.now flash.old.words) flash.old.words s to
        → IsUnresolved layout.now (image_of layout.now flash.old.words) flash.new.words s to }
    ensures used { OnOk result (used_pages layout.now flash.new.words ≡ used_pages layout.now flash.old.words + 1) }
    ensures stop { IfErr result (λ stop. stop ≡ stops.Flash (next_op flash.old)) }
{
    let prepared = prepare(flash, layout, page, t);
    match flash.program(page, &prepared.words) {
        Ok(()) => Ok(prepared.place),
        Err(stop) => Err(NatStop::Flash { op: stop.op }),
    }
}

/// The page of `t`, as it would stand in this page of the pool. This is the plain form: the program takes what
/// `KeptDrafts::draft` of `kept_drafts` gives.
pub fn prepare(flash: &Flash, layout: &Layout, page: u16, t: u16) -> Prepared
    requires right { IsRight layout.now }
    requires code { IsFaithful layout.now (image_of layout.now flash.now.words) flash.now.words }
    requires pool { IsPool layout.now page }
    requires free { IsFree flash.now.words page }
    requires inside { t < layout.now.image_words }
    requires unknown { HasNoEntry layout.now flash.now.words t }
    ensures prepared { IsPrepared layout.now (image_of layout.now flash.now.words) flash.now.words page t result.words result.place }
    // No other page would do.
    ensures only { (words : List ℕ) → (place : ℕ) → IsPrepared layout.now (image_of layout.now flash.now.words) flash.now.words page t words place
        → (words ≡ result.words) × (place ≡ result.place) }
{
    let known = known_offsets(flash, layout, t / PAGE_WORDS);
    prepare_with(flash, layout, &known, page, t)
}

/// Prepares the page as [`prepare`] does, for one who knows already which addresses of the original page have entries, by their
/// offsets there.
pub fn prepare_with(
    flash: &Flash,
    layout: &Layout,
    known: &[bool; 128],
    page: u16,
    t: u16,
) -> Prepared
    requires right { IsRight layout.now }
    requires code { IsFaithful layout.now (image_of layout.now flash.now.words) flash.now.words }
    requires known { AreKnown layout.now flash.now.words (t / 128) known.now }
    requires pool { IsPool layout.now page }
    requires free { IsFree flash.now.words page }
    requires inside { t < layout.now.image_words }
    requires unknown { HasNoEntry layout.now flash.now.words t }
    ensures prepared { IsPrepared layout.now (image_of layout.now flash.now.words) flash.now.words page t result.words result.place }
    ensures only { (words : List ℕ) → (place : ℕ) → IsPrepared layout.now (image_of layout.now flash.now.words) flash.now.words page t words place
        → (words ≡ result.words) × (place ≡ result.place) }
{
    let draft = draft_page(flash, layout, known, t);
    let words = draft.words;
    Prepared {
        words,
        place: PAGE_WORDS * page + draft.front,
    }
}
