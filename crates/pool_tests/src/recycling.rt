//! Pages that are used again, in small pools, and what a refused operation on flash leaves.

ghost use Rattle.std.specs.Prelude.{◌≡◌, ◌+◌, ◌<◌, ◌≤◌, ◌^◌, [], ◌∷◌, IfSome, OnOk};
ghost use Rattle.flash_words.specs.Layouts.{IsRight, image_of};
ghost use Rattle.nat_page.specs.Faithful.{IsFaithful};
ghost use Rattle.nat_page.specs.Links.{IsUnresolved};
ghost use Rattle.branch_bridge.specs.Arrivals.{ring_of};

use crate::support::{arrived, loaded, loaded_to_fail, moved, sram_at_boot};
use branch_bridge::{ArriveStop, Moved, Refused, ResolveStop, arrive, resolve};
use flash_model::{Flash, Layout};
use page_index::entry;
use sram_layout::Sram;
use std::process::Abort;
use std::test::Fail;

/// RJMP 2; NOP; RJMP 0; RJMP to itself.
pub(crate) const ROUND: [u16; 4] = [0xC001, 0x0000, 0xCFFD, 0xCFFF];

/// Where the jump back to 0 calls the bridge, if it does.
fn jump_back(flash: &Flash, layout: &Layout) -> Option<u16>
    requires right { IsRight layout.now }
    requires faithful { IsFaithful layout.now (image_of layout.now flash.now.words) flash.now.words }
    requires image { image_of layout.now flash.now.words ≡ 0xC001 ∷ 0x0000 ∷ 0xCFFD ∷ 0xCFFF ∷ [] }
    ensures stub { IfSome result (λ s. IsUnresolved layout.now (image_of layout.now flash.now.words) flash.now.words s 0) }
{
    let Some(0x4083) = entry(flash, layout, 2) else {
        return None;
    };
    if flash.word(0x4093) != 0x940E {
        return None;
    }
    if flash.word(0x4094) != 0xF000 {
        return None;
    }
    Some(0x4093)
}

/// The jump back is resolved, where it may be.
#[tactic(auto, using(nat_page::proofs::FaithfulLaws::faithful_mapped))]
fn resolve_back(flash: &mut Flash, layout: &Layout) -> Result<(), ResolveStop>
    requires right { IsRight layout.now }
    requires faithful { IsFaithful layout.now (image_of layout.now flash.old.words) flash.old.words }
    requires image { image_of layout.now flash.old.words ≡ 0xC001 ∷ 0x0000 ∷ 0xCFFD ∷ 0xCFFF ∷ [] }
    requires room { flash.old.ops < 2 ^ 60 }
    ensures faithful { OnOk result (IsFaithful layout.now (image_of layout.now flash.new.words) flash.new.words) }
    ensures room { flash.new.ops ≤ flash.old.ops + 1000 }
{
    let Some(place) = entry(flash, layout, 0) else {
        return Ok(());
    };
    let Some(stub) = jump_back(flash, layout) else {
        return Ok(());
    };
    resolve(flash, layout, stub, place)
}

/// Arrivals at 0 and at 2, the jump back to 0 resolved, and an arrival at 3, up to the first that is refused.
pub(crate) fn go_round(
    sram: &mut Sram,
    flash: &mut Flash,
    layout: &Layout,
) -> Result<Moved, Refused>
    requires right { IsRight layout.now }
    requires faithful { IsFaithful layout.now (image_of layout.now flash.old.words) flash.old.words }
    requires image { image_of layout.now flash.old.words ≡ 0xC001 ∷ 0x0000 ∷ 0xCFFD ∷ 0xCFFF ∷ [] }
    requires ring { ring_of sram.old < layout.now.pool_pages }
    requires room { flash.old.ops ≡ 0 }
{
    arrived(sram, flash, layout, 0)?;
    arrived(sram, flash, layout, 2)?;
    if let Err(stop) = resolve_back(flash, layout) {
        return Err(Refused {
            why: ArriveStop::Flash { op: stop.op },
            torn: stop.torn,
        });
    }
    arrive(sram, flash, layout, 3)
}

/// A pool of so many pages.
pub(crate) fn small(image_words: u16, pool_pages: u16) -> Layout
    requires image { image_words ≤ 16384 }
    requires some { 1 ≤ pool_pages }
    requires fits { pool_pages ≤ 352 }
    ensures right { IsRight result }
    ensures image { result.image_words ≡ image_words }
    ensures first { result.pool_first ≡ 128 }
    ensures pool { result.pool_pages ≡ pool_pages }
{
    Layout {
        image_words,
        pool_first: 128,
        pool_pages,
    }
}

#[test]
fn a_page_is_recycled(rt: HostRuntime) -> Result<(), Fail> {
    let layout = small(4, 2);
    let mut flash = loaded(&rt, &layout, &ROUND)?;
    let mut sram = sram_at_boot(&layout);
    let first = moved(&rt, &mut sram, &mut flash, &layout, 0);
    let second = moved(&rt, &mut sram, &mut flash, &layout, 2);
    assert!(rt; first.place == 0x4003);
    assert!(rt; second.place == 0x4083);
    let Ok(()) = resolve_back(&mut flash, &layout) else {
        return Err("the jump is refused".into());
    };
    assert!(rt; flash.word(0x4093) == 0x940C);
    assert!(rt; flash.word(0x4094) == 0x4003);
    let third = moved(&rt, &mut sram, &mut flash, &layout, 3);
    assert!(rt; third.place == 0x4003);
    assert!(rt; third.made);
    assert!(rt; third.recycled == Some(128));
    assert!(rt; flash.word(0x4093) == 0x940E);
    assert!(rt; flash.word(0x4094) == 0xF000);
    assert!(rt; place_of(&flash, &layout, 0).is_none());
    assert!(rt; flash.ops() == 8);
    Ok(())
}

/// The page that each refused operation leaves torn, and RING.
const LEFT: [(Option<u16>, u8); 8] = [
    (None, 0),
    (None, 0),
    (None, 0),
    (Some(129), 0),
    (None, 0),
    (Some(129), 0),
    (None, 0),
    (Some(128), 1),
];

/// The operation of this number was refused, and has left a page torn, if it leaves one, and RING so.
fn is_refused_at(
    rt: &impl Abort,
    flash: &Flash,
    sram: &Sram,
    refused: &Refused,
    op: u32,
    left: (Option<u16>, u8),
) {
    let (torn, ring) = left;
    assert!(rt; tried_in(refused) == Some(u64::from(op)));
    assert!(rt; torn_page(refused) == torn);
    assert!(rt; sram.byte(0x0142) == ring);
    assert!(rt; flash.ops() == u64::from(op));
    assert!(rt; flash.refused().is_some());
    if let Some(page) = torn {
        assert!(rt; flash.word(page.wrapping_mul(128)) == 0xFFFF);
    }
}

#[test]
fn each_operation_may_be_refused(rt: HostRuntime) -> Result<(), Fail> {
    let layout = small(4, 2);
    for op in 1..9u32 {
        let mut flash = loaded_to_fail(&rt, &layout, &ROUND, &[op])?;
        let mut sram = sram_at_boot(&layout);
        match go_round(&mut sram, &mut flash, &layout) {
            Ok(_) => return Err("no operation is refused".into()),
            Err(refused) => {
                is_refused_at(&rt, &flash, &sram, &refused, op, LEFT[op as usize - 1]);
            }
        }
    }
    Ok(())
}

/// The number of the operation that was refused, if that is why.
fn tried_in(refused: &Refused) -> Option<u64> {
    match refused.why {
        ArriveStop::Flash { op } => Some(op),
        ArriveStop::Wild { .. } => None,
    }
}

/// The page of a torn page's words, if there is one.
fn torn_page(refused: &Refused) -> Option<u16> {
    match refused.torn {
        Some(torn) => Some(torn.page),
        None => None,
    }
}

/// Jumps to the next address have a page each: the pages are used in turn.
#[test]
pub(crate) fn small_pools_go_round(rt: HostRuntime) -> Result<(), Fail> {
    for pages in 1..6u16 {
        let layout = small(12, pages);
        let mut flash = loaded(&rt, &layout, &[0xC000; 12])?;
        let mut sram = sram_at_boot(&layout);
        for t in 0..12u16 {
            let arrival = moved(&rt, &mut sram, &mut flash, &layout, t);
            let page = 128 + t % pages;
            let recycled = if t < pages { None } else { Some(page) };
            assert!(rt; arrival.place == 128 * page + 3);
            assert!(rt; arrival.recycled == recycled);
        }
        assert!(rt; flash.ops() == u64::from(24 - pages));
    }
    Ok(())
}

/// The place of an address in the pool, if it has one.
#[tactic(auto, using(nat_page::proofs::FaithfulLaws::faithful_mapped))]
fn place_of(flash: &Flash, layout: &Layout, t: u16) -> Option<u16>
    requires right { IsRight layout.now }
    requires faithful { IsFaithful layout.now (image_of layout.now flash.now.words) flash.now.words }
{
    entry(flash, layout, t)
}
