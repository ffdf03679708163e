//! Cells, and what they leave alone.

use sram_layout::Sram;

/// All bytes are 0 but those of the swap map.
#[test]
fn boot_values(rt: HostRuntime) {
    let sram = Sram::new();
    for address in 0x0100..=0x10FFu16 {
        let value = if address / 256 == 4 { 0xFF } else { 0 };
        assert!(rt; sram.byte(address) == value, "{address}");
    }
    assert!(rt; [sram.slot(0), sram.slot(255)] == [0xFF; 2]);
}

#[test]
fn words_have_their_low_byte_first(rt: HostRuntime) {
    let mut sram = Sram::new();
    sram.set_vsp(0x10FF);
    assert!(rt; [sram.byte(0x0103), sram.byte(0x0104)] == [0xFF, 0x10]);
    sram.set_way(1, 1, 0x1234, 0x4007);
    assert!(rt; [sram.byte(0x020C), sram.byte(0x020D)] == [0x34, 0x12]);
    assert!(rt; [sram.byte(0x020E), sram.byte(0x020F)] == [0x07, 0x40]);
}

#[test]
fn a_frame_entry_is_two_of_four_bytes(rt: HostRuntime) {
    let mut sram = Sram::new();
    sram.set_frame(1, 0x22, 2);
    let mut block = [9; 256];
    sram.block(0x0120, &mut block);
    assert!(rt; [block[3], block[4], block[5], block[6], block[7]] == [0, 0x22, 2, 0, 0]);
}
