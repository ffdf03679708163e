//! Pages made of small programs.

ghost use Rattle.std.specs.Prelude.{◌+◌, ◌<◌, ◌≤◌, ◌^◌};
ghost use Rattle.flash_words.specs.Layouts.{IsRight, image_of};
ghost use Rattle.nat_page.specs.Faithful.{IsFaithful};
ghost use Rattle.nat_page.specs.Making.{HasNoEntry};

use crate::support::{LOOP, crossing_stub, has, loaded, loaded_to_fail, loop_page};
use flash_model::{Flash, Layout};
use nat_page::{NatStop, naturalise};
use nat_template::template;
use page_index::{entry, free_page};
use std::process::Abort;
use std::test::Fail;

/// What `naturalise` answers in the lowest free page, where it may be called.
#[tactic(auto, using(nat_page::proofs::FaithfulLaws::faithful_mapped))]
fn made(flash: &mut Flash, layout: &Layout, t: u16) -> Option<Result<u16, NatStop>>
    requires right { IsRight layout.now }
    requires faithful { IsFaithful layout.now (image_of layout.now flash.old.words) flash.old.words }
    requires room { flash.old.ops < 2 ^ 61 }
    ensures faithful { IsFaithful layout.now (image_of layout.now flash.new.words) flash.new.words }
    ensures ops { flash.new.ops ≤ flash.old.ops + 1 }
{
    if t >= layout.image_words {
        return None;
    }
    match entry(flash, layout, t) {
        Some(_) => None,
        None => made_anew(flash, layout, t),
    }
}

/// What `naturalise` answers for an address without an entry.
#[tactic(auto, using(nat_page::proofs::FaithfulLaws::faithful_mapped))]
fn made_anew(flash: &mut Flash, layout: &Layout, t: u16) -> Option<Result<u16, NatStop>>
    requires right { IsRight layout.now }
    requires faithful { IsFaithful layout.now (image_of layout.now flash.old.words) flash.old.words }
    requires inside { t < layout.now.image_words }
    requires unknown { HasNoEntry layout.now flash.old.words t }
    requires room { flash.old.ops < 2 ^ 61 }
    ensures faithful { IsFaithful layout.now (image_of layout.now flash.new.words) flash.new.words }
    ensures ops { flash.new.ops ≤ flash.old.ops + 1 }
{
    match free_page(flash, layout) {
        Some(page) => Some(naturalise(flash, layout, page, t)),
        None => None,
    }
}

/// A page is made, and the address has this place in it.
fn is_made(rt: &impl Abort, flash: &mut Flash, layout: &Layout, t: u16, place: u16)
    requires right { IsRight layout.now }
    requires faithful { IsFaithful layout.now (image_of layout.now flash.old.words) flash.old.words }
    requires room { flash.old.ops < 2 ^ 61 }
    ensures faithful { IsFaithful layout.now (image_of layout.now flash.new.words) flash.new.words }
    ensures ops { flash.new.ops ≤ flash.old.ops + 1 }
{
    assert!(rt; made(flash, layout, t) == Some(Ok(place)));
}

/// A loop: the branch back passes over a crossing stub, and the jump to itself ends the run.
#[test]
fn the_worked_page(rt: HostRuntime) -> Result<(), Fail> {
    let layout = Layout::of(4);
    let mut flash = loaded(&rt, &layout, &LOOP)?;
    is_made(&rt, &mut flash, &layout, 0, 0x4006);
    has(&rt, &flash, &[&loop_page([0x940E, 0xF000])]);
    Ok(())
}

/// PUSH r16 has the 39 words of its template, behind which its run goes on.
#[test]
fn a_push_stands_inline(rt: HostRuntime) -> Result<(), Fail> {
    let layout = Layout::of(2);
    let mut flash = loaded(&rt, &layout, &[0x930F, 0xCFFF])?;
    is_made(&rt, &mut flash, &layout, 0, 0x4004);
    has(
        &rt,
        &flash,
        &[
            &[0x0000, 0x0002, 0x0004, 0x012B],
            template(0, 0x930F, 0xCFFF, 1).as_slice(),
            &[0x940E, 0xF00C, 0x0001],
        ],
    );
    Ok(())
}

/// Behind the first of two instructions the second has its page.
#[test]
fn a_run_ends_before_an_entry(rt: HostRuntime) -> Result<(), Fail> {
    let layout = Layout::of(2);
    let mut flash = loaded(&rt, &layout, &[0xE003, 0x950A])?;
    is_made(&rt, &mut flash, &layout, 1, 0x4003);
    // The image ends behind it.
    has(
        &rt,
        &flash,
        &[&[0x0000, 0x0001, 0x0103, 0x950A, 0x940E, 0xF000, 0x0002]],
    );
    is_made(&rt, &mut flash, &layout, 0, 0x4083);
    assert!(rt; flash.word(0x4081) == 0x0001);
    assert!(rt; flash.word(0x4082) == 0x0003);
    assert!(rt; flash.word(0x4083) == 0xE003);
    assert!(rt; flash.word(0x4086) == 0x0001);
    Ok(())
}

/// A page is made whose first address has this place, with these words: its number of entries, and its last three.
fn is_filled(rt: &impl Abort, flash: &mut Flash, layout: &Layout, place: u16, words: [u16; 4])
    requires right { IsRight layout.now }
    requires faithful { IsFaithful layout.now (image_of layout.now flash.old.words) flash.old.words }
    requires room { flash.old.ops < 2 ^ 61 }
{
    is_made(rt, flash, layout, 0, place);
    assert!(rt; flash.word(0x4001) == words[0]);
    assert!(rt; flash.word(0x407D) == words[1]);
    assert!(rt; flash.word(0x407E) == words[2]);
    assert!(rt; flash.word(0x407F) == words[3]);
}

/// 61 instructions and a return fill the page to its last word; with one more in front the return doesn't fit.
#[test]
fn a_page_may_be_full(rt: HostRuntime) -> Result<(), Fail> {
    let layout = Layout::of(64);
    let mut image = [0x0000; 64];
    image[61] = 0x9508;
    let mut flash = loaded(&rt, &layout, &image)?;
    is_filled(&rt, &mut flash, &layout, 0x4040, [62, 0x940E, 0xF008, 61]);
    image[61] = 0x0000;
    image[62] = 0x9508;
    let mut flash = loaded(&rt, &layout, &image)?;
    is_filled(&rt, &mut flash, &layout, 0x403F, [61, 0xF000, 61, 0xFFFF]);
    Ok(())
}

/// An instruction whose second word is in the next page; the step behind it is a crossing. A call, and a
/// call through Z, are no ends.
#[test]
fn a_run_ends_at_its_page(rt: HostRuntime) -> Result<(), Fail> {
    let mut image = [0x0000; 130];
    image[124] = 0x940E; // CALL 0x0005
    image[125] = 0x0005;
    image[126] = 0x9509; // ICALL
    image[127] = 0x9180; // LDS r24, 0x0500
    image[128] = 0x0500;
    let layout = Layout::of(130);
    let mut flash = loaded(&rt, &layout, &image)?;
    is_made(&rt, &mut flash, &layout, 124, 0x4005);
    has(
        &rt,
        &flash,
        &[
            &[0x0000, 0x0003, 0x7C05, 0x7E1E, 0x7F21],
            &[0x940E, 0xF006, 0x007C],
            &crossing_stub([0x940E, 0xF000], 0x0005),
            &[0x940E, 0xF00A, 0x007E],
            &[0x940E, 0xF004, 0x007F],
            &crossing_stub([0x940E, 0xF000], 0x0081),
        ],
    );
    Ok(())
}

/// Each jump has a page of its own, until no page is free.
#[test]
fn the_pool_may_be_full(rt: HostRuntime) -> Result<(), Fail> {
    let layout = Layout::of(400);
    let mut flash = loaded(&rt, &layout, &[0xC000; 400])?;
    for t in 0..352u16 {
        is_made(&rt, &mut flash, &layout, t, 0x4003 + 128 * t);
    }
    assert!(rt; made(&mut flash, &layout, 352).is_none());
    Ok(())
}

/// The page stays free, and the operation is told.
#[test]
fn a_page_may_be_refused(rt: HostRuntime) -> Result<(), Fail> {
    let layout = Layout::of(4);
    let mut flash = loaded_to_fail(&rt, &layout, &LOOP, &[1])?;
    assert!(rt;
        matches!(
            made(&mut flash, &layout, 0),
            Some(Err(NatStop::Flash { op: 1 }))
        )
    );
    assert!(rt; flash.word(0x4000) == 0xFFFF);
    assert!(rt; flash.ops() == 1);
    assert!(rt; flash.refused() == Some(128));
    is_made(&rt, &mut flash, &layout, 0, 0x4006);
    Ok(())
}
