//! Places that are noted, found and forgotten.

use crate::support::with_loop;
use addr_tables::{find, forget_page, note};
use flash_model::Layout;
use sram_layout::Sram;
use std::test::Fail;

#[test]
fn places_are_forgotten_with_their_page(rt: HostRuntime) -> Result<(), Fail> {
    let layout = Layout::of(4);
    let flash = with_loop(&rt, &layout)?;
    let mut sram = Sram::new();
    note(&mut sram, 1, 0x4007);
    assert!(rt; find(&mut sram, &flash, &layout, 1) == Some(0x4007));
    assert!(rt; find(&mut sram, &flash, &layout, 33).is_none());
    forget_page(&mut sram, 128);
    for i in 0..32u8 {
        assert!(rt; sram.aside(i) == (0, 0));
    }
    for set in 0..64u8 {
        assert!(rt; sram.way(set, 0) == (0, 0));
        assert!(rt; sram.way(set, 1) == (0, 0));
    }
    assert!(rt; find(&mut sram, &flash, &layout, 1) == Some(0x4007));
    Ok(())
}

#[test]
fn the_place_used_last_is_first_of_its_set(rt: HostRuntime) {
    let mut sram = Sram::new();
    note(&mut sram, 1, 0x4007);
    note(&mut sram, 65, 0x4107);
    note(&mut sram, 1, 0x4007);
    assert!(rt; sram.way(1, 0) == (65, 0x4107));
    assert!(rt; sram.way(1, 1) == (1, 0x4007));
    note(&mut sram, 129, 0x4008);
    assert!(rt; sram.way(1, 0) == (129, 0x4008));
    assert!(rt; sram.way(1, 1) == (65, 0x4107));
    forget_page(&mut sram, 130);
    assert!(rt; sram.way(1, 0) == (129, 0x4008));
    assert!(rt; sram.way(1, 1) == (0, 0));
}
