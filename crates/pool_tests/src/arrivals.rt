//! Arrivals at addresses with and without a place.
use crate::support::{LOOP, loaded, moved, sram_at_boot};
use addr_tables::{find, note};
use flash_model::Layout;
use page_index::entry;
use std::test::Fail;

/// A jump into the second word of a JMP: the two addresses have a page each.
#[test]
fn two_arrivals_make_two_pages(rt: HostRuntime) -> Result<(), Fail> {
    let layout = Layout::of(5);
    let mut flash = loaded(&rt, &layout, &[0xC001, 0x940C, 0xE00F, 0xBB0B, 0xCFFF])?;
    let mut sram = sram_at_boot(&layout);
    assert!(rt; moved(&rt, &mut sram, &mut flash, &layout, 0).place == 0x4003);
    assert!(rt; moved(&rt, &mut sram, &mut flash, &layout, 2).place == 0x4085);
    assert!(rt; flash.word(0x4080) == 0x0000);
    assert!(rt; flash.word(0x4100) == 0xFFFF);
    Ok(())
}

/// A place that is noted is taken, right or not: the pool isn't searched.
#[test]
#[tactic(auto, using(nat_page::proofs::FaithfulLaws::faithful_mapped))]
fn a_wrong_place_is_taken(rt: HostRuntime) -> Result<(), Fail> {
    let layout = Layout::of(4);
    let mut flash = loaded(&rt, &layout, &LOOP)?;
    let mut sram = sram_at_boot(&layout);
    moved(&rt, &mut sram, &mut flash, &layout, 0);
    note(&mut sram, 2, 0x4007);
    assert!(rt; entry(&flash, &layout, 2) == Some(0x4008));
    assert!(rt; find(&mut sram, &flash, &layout, 2) == Some(0x4007));
    assert!(rt; sram.ring() < layout.pool_pages);
    assert!(rt; moved(&rt, &mut sram, &mut flash, &layout, 2).place == 0x4007);
    Ok(())
}
