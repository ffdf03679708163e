//! What the tests share: flashes with and without pages in the pool, and a program that loops.

ghost use Rattle.std.specs.Prelude.{◌≡◌, ◌+◌, ◌<◌, ◌≤◌, ◌^◌, length, IfOk, OnOk};
ghost use Rattle.flash_words.specs.Layouts.{IsRight};
ghost use Rattle.page_index.specs.Entries.{IsMapped};
ghost use Rattle.nat_page.specs.Faithful.{IsFaithful};
ghost use Rattle.flash_words.specs.Layouts.{image_of};
ghost use Rattle.sram_layout.specs.Boot.{at_boot};
ghost use Rattle.branch_bridge.specs.Arrivals.{ring_of};

use branch_bridge::{Moved, Refused, arrive};
use flash_model::{Flash, Layout};
use sram_layout::Sram;
use std::process::Abort;

/// LDI r16, 3; DEC r16; BRNE 1; RJMP to itself.
pub(crate) const LOOP: [u16; 4] = [0xE003, 0x950A, 0xF7F1, 0xCFFF];

/// The crossing stub to an address, which leads through these two words.
pub(crate) fn crossing_stub(way: [u16; 2], t: u16) -> [u16; 22] {
    [
        0x9380, 0x0101, 0xB78F, 0x9380, 0x0102, 0x9180, 0x0100, 0x958A, 0x9380, 0x0100, 0xF041,
        0x9180, 0x0102, 0xBF8F, 0x9180, 0x0101, way[0], way[1], t, 0x940E, 0xF002, t,
    ]
}

/// The page of the loop. Its branch back leads through these two words.
pub(crate) fn loop_page(way: [u16; 2]) -> [u16; 35] {
    let mut page = [0x0000; 35];
    page[..10].copy_from_slice(&[
        0x0000, 0x0004, 0x0006, 0x0107, 0x0208, 0x0320, 0xE003, 0x950A, 0xF409, 0xC016,
    ]);
    page[10..32].copy_from_slice(&crossing_stub(way, 0x0001));
    page[32..].copy_from_slice(&[0x940E, 0xF00C, 0x0003]);
    page
}

/// The first page of the pool has these words, part behind part, and erased words behind them.
pub(crate) fn has(rt: &impl Abort, flash: &Flash, parts: &[&[u16]]) {
    let mut place = 0x4000u16;
    for part in parts {
        for word in *part {
            assert!(rt; flash.word(place) == *word, "place {place}");
            place = place.wrapping_add(1);
        }
    }
    for erased in place..0x4080 {
        assert!(rt; flash.word(erased) == 0xFFFF, "place {erased}");
    }
}

/// SRAM at boot: RING names the first page of the pool.
pub(crate) fn sram_at_boot(layout: &Layout) -> Sram
    requires right { IsRight layout.now }
    ensures boot { result ≡ at_boot }
    ensures ring { ring_of result < layout.now.pool_pages }
{
    Sram::new()
}

/// An arrival, behind which another may come where it isn't refused.
pub(crate) fn arrived(
    sram: &mut Sram,
    flash: &mut Flash,
    layout: &Layout,
    t: u16,
) -> Result<Moved, Refused>
    requires right { IsRight layout.now }
    requires faithful { IsFaithful layout.now (image_of layout.now flash.old.words) flash.old.words }
    requires ring { ring_of sram.old < layout.now.pool_pages }
    requires room { flash.old.ops < 2 ^ 60 }
    ensures faithful { OnOk result (IsFaithful layout.now (image_of layout.now flash.new.words) flash.new.words) }
    ensures image { OnOk result (image_of layout.now flash.new.words ≡ image_of layout.now flash.old.words) }
    ensures ring { OnOk result (ring_of sram.new < layout.now.pool_pages) }
    ensures room { flash.new.ops ≤ flash.old.ops + 1000 }
{
    arrive(sram, flash, layout, t)
}

/// An arrival that is not refused.
pub(crate) fn moved(
    rt: &impl Abort,
    sram: &mut Sram,
    flash: &mut Flash,
    layout: &Layout,
    t: u16,
) -> Moved
    requires right { IsRight layout.now }
    requires faithful { IsFaithful layout.now (image_of layout.now flash.old.words) flash.old.words }
    requires ring { ring_of sram.old < layout.now.pool_pages }
    requires room { flash.old.ops < 2 ^ 60 }
    ensures faithful { IsFaithful layout.now (image_of layout.now flash.new.words) flash.new.words }
    ensures image { image_of layout.now flash.new.words ≡ image_of layout.now flash.old.words }
    ensures ring { ring_of sram.new < layout.now.pool_pages }
    ensures room { flash.new.ops ≤ flash.old.ops + 1000 }
{
    match arrived(sram, flash, layout, t) {
        Ok(arrival) => arrival,
        Err(_) => panic!(rt; "an arrival is refused"),
    }
}

/// A flash that holds the image, and an empty pool. It is in a box: where a flash itself is let go, the proof goes through all
/// its parts.
pub(crate) fn loaded(
    rt: &HostRuntime,
    layout: &Layout,
    image: &[u16],
) -> Result<Box<Flash>, &'static str>
    requires right { IsRight layout.now }
    requires short { length image.now ≤ 24576 }
    requires long { length image.now ≡ layout.now.image_words }
    ensures faithful { IfOk result (λ flash. IsFaithful layout.now (image_of layout.now flash.value.words) flash.value.words) }
    ensures image { IfOk result (λ flash. image_of layout.now flash.value.words ≡ image.now) }
    ensures fresh { IfOk result (λ flash. flash.value.ops ≡ 0) }
{
    loaded_to_fail(rt, layout, image, &[])
}

/// A flash that holds the image and an empty pool, whose operations of these numbers are to fail.
pub(crate) fn loaded_to_fail(
    rt: &HostRuntime,
    layout: &Layout,
    image: &[u16],
    failing: &[u32],
) -> Result<Box<Flash>, &'static str>
    requires right { IsRight layout.now }
    requires short { length image.now ≤ 24576 }
    requires long { length image.now ≡ layout.now.image_words }
    ensures faithful { IfOk result (λ flash. IsFaithful layout.now (image_of layout.now flash.value.words) flash.value.words) }
    ensures image { IfOk result (λ flash. image_of layout.now flash.value.words ≡ image.now) }
    ensures fresh { IfOk result (λ flash. flash.value.ops ≡ 0) }
{
    let flash = unboxed(rt, layout, image, failing)?;
    match Box::new(rt.alloc(), flash) {
        Ok(flash) => Ok(flash),
        Err(_) => Err("memory is ample"),
    }
}

/// Such a flash before it is put in its box.
fn unboxed(
    rt: &HostRuntime,
    layout: &Layout,
    image: &[u16],
    failing: &[u32],
) -> Result<Flash, &'static str>
    requires right { IsRight layout.now }
    requires short { length image.now ≤ 24576 }
    requires long { length image.now ≡ layout.now.image_words }
    ensures faithful { IfOk result (λ flash. IsFaithful layout.now (image_of layout.now flash.words) flash.words) }
    ensures image { IfOk result (λ flash. image_of layout.now flash.words ≡ image.now) }
    ensures fresh { IfOk result (λ flash. flash.ops ≡ 0) }
{
    match Flash::new(rt.alloc(), image, failing) {
        Ok(flash) => Ok(flash),
        Err(_) => Err("memory is ample"),
    }
}

/// A flash that holds the loop, with its page in the pool.
#[tactic(auto, using(nat_page::proofs::FaithfulLaws::faithful_mapped))]
pub(crate) fn with_loop(rt: &HostRuntime, layout: &Layout) -> Result<Box<Flash>, &'static str>
    requires right { IsRight layout.now }
    requires long { layout.now.image_words ≡ 4 }
    ensures mapped { IfOk result (λ flash. IsMapped layout.now flash.value.words) }
{
    let mut flash = loaded(rt, layout, &LOOP)?;
    let mut sram = sram_at_boot(layout);
    match arrived(&mut sram, &mut flash, layout, 0) {
        Ok(_) => Ok(flash),
        Err(_) => Err("an arrival is refused"),
    }
}
