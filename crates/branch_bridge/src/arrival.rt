//! One arrival.

ghost use Rattle.std.specs.Prelude.{◌≡◌, ◌+◌, ◌/◌, ◌<◌, ◌≤◌, ◌^◌, ◌↔◌, ◌||◌, min, IfOk, IsErrOf, length, None as Nothing};
ghost use Rattle.sram_layout.specs.Bytes.{byte_count};
ghost use Rattle.flash_words.specs.Layouts.{IsRight, image_of};
ghost use Rattle.page_index.specs.Maps.{IsPool, IsFree};
ghost use Rattle.page_index.specs.Entries.{AreKnown};
ghost use Rattle.nat_page.specs.Faithful.{IsFaithful};
ghost use Rattle.nat_page.specs.Making.{HasNoEntry, HasNoFree};
ghost use Rattle.branch_bridge.specs.Operating.{with_torn};
ghost use Rattle.branch_bridge.specs.Tried.{Tried};
ghost use Rattle.branch_bridge.specs.Arrivals.{KeepsOtherBytes, Makes, Recycles, Arrives, refusal_in, refused_by, stopped_by, torn_in, ring_of, turned, recycled_page, Kept, KeepsEntries, made_in, one_if};
ghost use Rattle.nat_page.specs.Used.{used_pages};
ghost use Rattle.branch_bridge.specs.declared.arrival.ArriveStop.TheVariants as stops;

use crate::rewriting::{ResolveStop, Torn, lacking};
use crate::unresolving::unresolve;
use addr_tables::{find_with_hints, forget_page, note};
use flash_model::{Flash, Layout, PAGE_WORDS};
use flash_words::FlashStop;
use kept_drafts::{Hints, KeptDraft, KeptDrafts};
use page_index::unmark_offsets;
use sram_layout::Sram;

/// Why control can't go on at an original address.
#[derive(Clone, Copy)]
pub enum ArriveStop {
    /// The address is outside the image.
    Wild {
        /// The original address.
        address: u16,
    },
    /// An operation on flash was refused.
    Flash {
        /// Its number.
        op: u64,
    },
}

/// An arrival that was refused.
#[derive(Clone, Copy)]
pub struct Refused {
    /// Why.
    pub why: ArriveStop,
    /// The page that lacks its words, where one was erased for it.
    pub torn: Option<Torn>,
}

impl From<ResolveStop> for Refused {
    ghost from_gives = { λ stop refused. refused ≡ refused_by stop };

    fn from(stop: ResolveStop) -> Refused {
        Refused {
            why: ArriveStop::Flash { op: stop.op },
            torn: stop.torn,
        }
    }
}

impl From<FlashStop> for Refused {
    ghost from_gives = { λ stop refused. refused ≡ refused_by (record { op = stop.op; torn = Nothing }) };

    fn from(stop: FlashStop) -> Refused {
        Refused::from(ResolveStop {
            op: stop.op,
            torn: None,
        })
    }
}

/// Where control goes on.
#[derive(Clone, Copy)]
pub struct Moved {
    /// The place of the original address, a word address of flash.
    pub place: u16,
    /// Whether a page was made for it.
    pub made: bool,
    /// The page that was erased for it, if one was.
    pub recycled: Option<u16>,
}

/// Gives the place, a word address of flash, where the rewritten code of the original address `t` begins, and makes
/// the page of `t` where none has it: in the lowest free page, or else in the one that RING names, which is recycled.
/// A place that the kernel's tables have for `t` is taken without a search of the pool, right or not.
///
/// This is the plain form: the program calls [`arrive_through`](crate::arrive_through), which goes by [`arrive_with_hints`].
pub fn arrive(sram: &mut Sram, flash: &mut Flash, layout: &Layout, t: u16) -> Result<Moved, Refused>
    requires right { IsRight layout.now }
    requires code { IsFaithful layout.now (image_of layout.now flash.old.words) flash.old.words }
    requires ring { ring_of sram.old < layout.now.pool_pages }
    requires room { flash.old.ops < 2 ^ 61 }
    // The whole answer, the whole flash and the whole SRAM are told, whatever the tables hold.
    ensures arrives { Arrives layout.now (record { flash = flash.old; sram = sram.old }) (record { flash = flash.new; sram = sram.new }) t result }
    // With the words put in that a torn page lacks, the pool is faithful to the same image, and right tables are right.
    ensures kept { Kept layout.now (record { flash = flash.old; sram = sram.old }) (record { flash = flash.new; sram = sram.new }) t result }
    // One page more is used where one was made, as far as the pool goes.
    ensures used { used_pages layout.now (with_torn flash.new.words (torn_in result)) ≡ min (used_pages layout.now flash.old.words + one_if (made_in result)) layout.now.pool_pages }
    // A refusal comes where flash refuses an operation, and is of that one.
    ensures tried { Tried layout.now flash.old flash.new (stopped_by (refusal_in result)) }
    // The entries of other pages stay, and no other page gets one.
    ensures entries { IfOk result (λ moved. KeepsEntries layout.now flash.old.words flash.new.words moved.made moved.place) }
    ensures rest { KeepsOtherBytes sram.old sram.new }
    ensures wild { IsErrOf result (record { why = stops.Wild t; torn = Nothing }) ↔ (layout.now.image_words ≤ t) }
{
    arrive_with_hints(sram, flash, layout, &mut Hints::new(), t)
}

/// Arrives as [`arrive`] does, with hints: the pool is searched only where neither the tables nor a hint have the place, and a page
/// is drafted only where no draft of it is kept.
pub fn arrive_with_hints(
    sram: &mut Sram,
    flash: &mut Flash,
    layout: &Layout,
    hints: &mut Hints,
    t: u16,
) -> Result<Moved, Refused>
    requires right { IsRight layout.now }
    requires code { IsFaithful layout.now (image_of layout.now flash.old.words) flash.old.words }
    requires ring { ring_of sram.old < layout.now.pool_pages }
    requires room { flash.old.ops < 2 ^ 61 }
    ensures arrives { Arrives layout.now (record { flash = flash.old; sram = sram.old }) (record { flash = flash.new; sram = sram.new }) t result }
    ensures kept { Kept layout.now (record { flash = flash.old; sram = sram.old }) (record { flash = flash.new; sram = sram.new }) t result }
    ensures used { used_pages layout.now (with_torn flash.new.words (torn_in result)) ≡ min (used_pages layout.now flash.old.words + one_if (made_in result)) layout.now.pool_pages }
    ensures tried { Tried layout.now flash.old flash.new (stopped_by (refusal_in result)) }
    ensures entries { IfOk result (λ moved. KeepsEntries layout.now flash.old.words flash.new.words moved.made moved.place) }
    ensures rest { KeepsOtherBytes sram.old sram.new }
    ensures wild { IsErrOf result (record { why = stops.Wild t; torn = Nothing }) ↔ (layout.now.image_words ≤ t) }
{
    if t >= layout.image_words {
        return Err(Refused {
            why: ArriveStop::Wild { address: t },
            torn: None,
        });
    }
    let mut survey = match find_with_hints(sram, flash, layout, &mut hints.places, t) {
        Ok(place) => {
            return Ok(Moved {
                place,
                made: false,
                recycled: None,
            });
        }
        Err(survey) => survey,
    };
    match survey.free {
        Some(page) => make_page(
            sram,
            flash,
            layout,
            &mut hints.drafts,
            &survey.known,
            page,
            t,
            false,
        ),
        None => recycle(sram, flash, layout, &mut hints.drafts, &mut survey.known, t),
    }
}

/// Recycles the page that RING names for the page of `t`. `known` tells which addresses of `t`'s original page have entries; it
/// forgets those of the recycled page.
fn recycle(
    sram: &mut Sram,
    flash: &mut Flash,
    layout: &Layout,
    drafts: &mut KeptDrafts,
    known: &mut [bool; 128],
    t: u16,
) -> Result<Moved, Refused>
    requires right { IsRight layout.now }
    requires code { IsFaithful layout.now (image_of layout.now flash.old.words) flash.old.words }
    requires known { AreKnown layout.now flash.old.words (t / 128) known.old }
    requires inside { t < layout.now.image_words }
    requires unknown { HasNoEntry layout.now flash.old.words t }
    requires full { HasNoFree layout.now flash.old.words }
    requires ring { ring_of sram.old < layout.now.pool_pages }
    requires room { flash.old.ops < 2 ^ 61 }
    ensures recycles { Recycles layout.now (record { flash = flash.old; sram = sram.old }) (record { flash = flash.new; sram = sram.new }) (layout.now.pool_first + ring_of sram.old) t result }
    ensures used { used_pages layout.now (with_torn flash.new.words (torn_in result)) ≡ layout.now.pool_pages }
    ensures entries { IfOk result (λ moved. KeepsEntries layout.now flash.old.words flash.new.words moved.made moved.place) }
    ensures rest { KeepsOtherBytes sram.old sram.new }
    ensures kept { Kept layout.now (record { flash = flash.old; sram = sram.old }) (record { flash = flash.new; sram = sram.new }) t result }
{
    let victim = layout.pool_first + sram.ring();
    match unresolve(flash, layout, victim) {
        Ok(()) => {}
        Err(stop) => return Err(Refused::from(stop)),
    }
    forget_page(sram, victim);
    unmark_offsets(flash, victim, t / PAGE_WORDS, known);
    match flash.erase(victim) {
        Ok(()) => {}
        Err(stop) => return Err(Refused::from(stop)),
    }
    turn(sram, layout);
    make_page(sram, flash, layout, drafts, known, victim, t, true)
}

/// Makes the page of `t` in this page, which is free, and notes its place. `known` tells which addresses of `t`'s
/// original page have entries, `again` that the page was erased for this.
fn make_page(
    sram: &mut Sram,
    flash: &mut Flash,
    layout: &Layout,
    drafts: &mut KeptDrafts,
    known: &[bool; 128],
    page: u16,
    t: u16,
    again: bool,
) -> Result<Moved, Refused>
    requires right { IsRight layout.now }
    requires code { IsFaithful layout.now (image_of layout.now flash.old.words) flash.old.words }
    requires known { AreKnown layout.now flash.old.words (t / 128) known.now }
    requires pool { IsPool layout.now page }
    requires free { IsFree flash.old.words page }
    requires inside { t < layout.now.image_words }
    requires unknown { HasNoEntry layout.now flash.old.words t }
    requires room { flash.old.ops < 2 ^ 62 }
    requires size { length sram.old ≡ byte_count }
    ensures kept { Kept layout.now (record { flash = flash.old; sram = sram.old }) (record { flash = flash.new; sram = sram.new }) t result }
    ensures makes { Makes layout.now (record { flash = flash.old; sram = sram.old }) (record { flash = flash.new; sram = sram.new }) page t again result }
    ensures used { used_pages layout.now (with_torn flash.new.words (torn_in result)) ≡ used_pages layout.now flash.old.words + one_if (again || made_in result) }
    ensures rest { KeepsOtherBytes sram.old sram.new }
{
    let mut spare = KeptDraft::none();
    let draft = drafts.draft(&mut spare, flash, layout, known, t);
    let words = draft.words();
    let place = PAGE_WORDS * page + draft.front();
    match flash.program_known(page, words, draft.micro_ops()) {
        Ok(()) => {
            note(sram, t, place);
            Ok(Moved {
                place,
                made: true,
                recycled: recycled(again, page),
            })
        }
        Err(stop) => Err(Refused::from(ResolveStop {
            op: stop.op,
            torn: lacking(again, page, words),
        })),
    }
}

/// The page that was erased for an arrival, if it was.
fn recycled(again: bool, page: u16) -> Option<u16>
    ensures value { result ≡ recycled_page again page }
{
    if again { Some(page) } else { None }
}

/// Makes RING name the next page.
fn turn(sram: &mut Sram, layout: &Layout)
    requires right { IsRight layout.now }
    requires ring { ring_of sram.old < layout.now.pool_pages }
    ensures after { sram.new ≡ turned layout.now sram.old }
    ensures size { (length sram.old ≡ byte_count) × (length sram.new ≡ byte_count) }
{
    sram.set_ring((sram.ring() + 1) % layout.pool_pages);
}
