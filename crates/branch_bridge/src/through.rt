//! An arrival through a stub.

ghost use Rattle.std.specs.Prelude.{◌≡◌, ◌<◌, ◌^◌, IfSome, None as Nothing};
ghost use Rattle.std.specs.Option.{option_map};
ghost use Rattle.flash_words.specs.Layouts.{IsRight, image_of};
ghost use Rattle.flash_words.specs.Memory.{Memory};
ghost use Rattle.flash_words.specs.declared.layout.Layout.{Layout as LayoutOf};
ghost use Rattle.nat_page.specs.Faithful.{IsFaithful};
ghost use Rattle.addr_tables.specs.Tables.{IsTables};
ghost use Rattle.branch_bridge.specs.Arrivals.{ArrivesFrom, CameThrough, KeptThrough, KeepsParts, KeepsEntries, went_on, ring_of, to_resolve as to_resolve_of, refused_by};
ghost use Rattle.branch_bridge.specs.KnownPlaces.{IsKnownAt};
ghost use Rattle.branch_bridge.specs.Operating.{stop_of};

use crate::arrival::{Moved, Refused, arrive_with_hints};
use crate::resolving::resolve;
use crate::rewriting::ResolveStop;
use addr_tables::note;
use flash_model::{Flash, Layout, PAGE_WORDS};
use kept_drafts::Hints;
use sram_layout::Sram;

/// How an arrival went.
#[derive(Clone, Copy)]
pub struct Arrival {
    /// Where control goes on, a word address of flash, once that is known.
    pub place: Option<u16>,
    /// Whether a page was made, also where the arrival was refused then.
    pub made: bool,
    /// Why it was refused, if it was.
    pub refused: Option<Refused>,
}

/// An arrival where the tables are right, with hints (see [`arrive_with_hints`]). `stub` is the word address of the call of
/// the kernel's bridge through which control came, if it came so: that stub is resolved, unless its page was recycled
/// for the arrival.
pub fn arrive_through(
    sram: &mut Sram,
    flash: &mut Flash,
    layout: &Layout,
    hints: &mut Hints,
    t: u16,
    stub: Option<u16>,
) -> Arrival
    requires right { IsRight layout.now }
    requires code { IsFaithful layout.now (image_of layout.now flash.old.words) flash.old.words }
    requires tables { IsTables layout.now sram.old flash.old.words }
    requires stub { CameThrough layout.now flash.old.words stub t }
    requires ring { ring_of sram.old < layout.now.pool_pages }
    requires room { flash.old.ops < 2 ^ 61 }
    ensures arrives { ArrivesFrom layout.now (record { flash = flash.old; sram = sram.old }) (record { flash = flash.new; sram = sram.new }) t stub result }
    ensures kept { KeptThrough layout.now (record { flash = flash.old; sram = sram.old }) (record { flash = flash.new; sram = sram.new }) t result }
    ensures parts { KeepsParts layout.now (record { flash = flash.old; sram = sram.old }) (record { flash = flash.new; sram = sram.new }) t stub result }
    ensures entries { result.refused ≡ Nothing → IfSome result.place (λ place. KeepsEntries layout.now flash.old.words flash.new.words result.made place) }
{
    let moved = match arrive_with_hints(sram, flash, layout, hints, t) {
        Ok(moved) => moved,
        Err(refused) => {
            return Arrival {
                place: None,
                made: false,
                refused: Some(refused),
            };
        }
    };
    if moved.made || stub.is_none() {
        hints.places.note_page(flash, moved.place / PAGE_WORDS);
    }
    let refused = match to_resolve(moved.recycled, stub) {
        Some(stub) => refusal(resolve(flash, layout, stub, moved.place)),
        None => None,
    };
    Arrival {
        place: Some(moved.place),
        made: moved.made,
        refused,
    }
}

/// An arrival through no stub at an address whose place is known. Flash stays; the place is noted in the kernel's tables.
/// Most arrivals are of this kind, and here they want no room for the words of a page.
pub fn arrive_at_known_place(sram: &mut Sram, t: u16, place: u16)
    ensures arrives { (layout : LayoutOf) (flash : Memory) → IsKnownAt layout flash sram.old t place
        → ArrivesFrom layout (record { flash = flash; sram = sram.old }) (record { flash = flash; sram = sram.new }) t Nothing (went_on place) }
    ensures kept { (layout : LayoutOf) (flash : Memory) → IsKnownAt layout flash sram.old t place
        → KeptThrough layout (record { flash = flash; sram = sram.old }) (record { flash = flash; sram = sram.new }) t (went_on place) }
{
    note(sram, t, place);
}

/// The stub that is to be resolved, if any.
fn to_resolve(recycled: Option<u16>, stub: Option<u16>) -> Option<u16>
    ensures value { result ≡ to_resolve_of recycled stub }
{
    match (recycled, stub) {
        (_, None) => None,
        (None, Some(stub)) => Some(stub),
        (Some(page), Some(stub)) => {
            if page == stub / PAGE_WORDS {
                None
            } else {
                Some(stub)
            }
        }
    }
}

/// A refusal to resolve, as one of the arrival.
fn refusal(resolved: Result<(), ResolveStop>) -> Option<Refused>
    ensures value { result ≡ option_map refused_by (stop_of resolved) }
{
    match resolved {
        Ok(()) => None,
        Err(stop) => Some(Refused::from(stop)),
    }
}
