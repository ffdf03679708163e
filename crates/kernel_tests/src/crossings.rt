//! Crossings, counted.

use preempt_count::cross;
use sram_layout::Sram;

/// COUNT before, quantum, the step, and the answer and COUNT after it.
type Row = (u8, u8, u16, u16, bool, u8);

#[test]
fn crossings_are_counted(rt: HostRuntime) {
    let rows: [Row; 8] = [
        (1, 3, 5, 5, true, 3),
        (1, 3, 5, 6, false, 1),
        (3, 3, 5, 4, false, 2),
        (2, 3, 127, 128, false, 1),
        (1, 255, 127, 128, true, 255),
        (7, 255, 128, 255, false, 7),
        (1, 1, 0xFFFF, 0, true, 1),
        (255, 255, 0, 0xFFFF, false, 254),
    ];
    let mut sram = Sram::new();
    for (count, quantum, from, to, checkpoint, after) in rows {
        sram.set_count(count);
        assert!(rt; 1 <= quantum && 1 <= sram.count() && sram.count() <= quantum);
        assert!(rt;
            cross(&mut sram, quantum, from, to) == checkpoint,
            "{from} to {to}"
        );
        assert!(rt; sram.count() == after, "{from} to {to}");
    }
}
