//! A heap of nine pages, in eight frames and a slot.

ghost use Rattle.std.specs.Prelude.{◌≡◌, ◌≤◌, IfOk, true};
ghost use Rattle.swap_store.specs.Slots.{most_slots};
ghost use Rattle.flat_machine.specs.Addresses.{is_heap};
ghost use Rattle.heap_frames.specs.Paged.{IsPaged};

use heap_frames::{SwapFull, load, store};
use sram_layout::Sram;
use std::alloc::Global;
use std::process::Abort;
use std::test::Fail;
use swap_store::Swap;

/// A mote's heap at boot.
fn at_boot(alloc: Global, slots: u8) -> Result<(Sram, Swap), &'static str>
    requires { slots ≤ most_slots }
    ensures paged { IfOk result (λ heap. IsPaged heap.0 heap.1) }
{
    match Swap::new(alloc, slots) {
        Ok(swap) => Ok((Sram::new(), swap)),
        Err(_) => Err("memory is ample"),
    }
}

/// The byte is stored.
fn is_stored(rt: &impl Abort, sram: &mut Sram, swap: &mut Swap, a: u16, value: u8)
    requires heap { is_heap a ≡ true }
    requires paged { IsPaged sram.old swap.old }
    ensures paged { IsPaged sram.new swap.new }
{
    assert!(rt; store(sram, swap, a, value) == Ok(()));
}

/// This byte is loaded.
fn is_loaded(rt: &impl Abort, sram: &mut Sram, swap: &mut Swap, a: u16, value: u8)
    requires heap { is_heap a ≡ true }
    requires paged { IsPaged sram.old swap.old }
    ensures paged { IsPaged sram.new swap.new }
{
    assert!(rt; load(sram, swap, a) == value);
}

#[test]
fn ten_pages_pass_through_eight_frames(rt: HostRuntime) -> Result<(), Fail> {
    let (mut sram, mut swap) = at_boot(rt.alloc(), 10)?;
    for page in 0x20..0x2Au8 {
        let a = 256 * u16::from(page) + 5;
        is_stored(&rt, &mut sram, &mut swap, a, page);
    }
    for page in 0x20..0x2Au8 {
        let a = 256 * u16::from(page) + 5;
        is_loaded(&rt, &mut sram, &mut swap, a, page);
        is_loaded(&rt, &mut sram, &mut swap, a + 1, 0);
    }
    Ok(())
}

#[test]
fn a_first_store_without_a_slot_left_is_refused(rt: HostRuntime) -> Result<(), Fail> {
    let (mut sram, mut swap) = at_boot(rt.alloc(), 1)?;
    is_stored(&rt, &mut sram, &mut swap, 0x2000, 7);
    assert!(rt; store(&mut sram, &mut swap, 0x3004, 8) == Err(SwapFull { address: 0x3004 }));
    is_loaded(&rt, &mut sram, &mut swap, 0x3004, 0);
    is_stored(&rt, &mut sram, &mut swap, 0x20FF, 9);
    is_loaded(&rt, &mut sram, &mut swap, 0x2000, 7);
    Ok(())
}

#[test]
fn the_heap_reaches_both_ends_of_the_stack_window(rt: HostRuntime) -> Result<(), Fail> {
    let (mut sram, mut swap) = at_boot(rt.alloc(), 251)?;
    is_stored(&rt, &mut sram, &mut swap, 0x0CFF, 1);
    is_stored(&rt, &mut sram, &mut swap, 0x1100, 2);
    is_stored(&rt, &mut sram, &mut swap, 0x0100, 3);
    is_stored(&rt, &mut sram, &mut swap, 0xFFFF, 4);
    is_loaded(&rt, &mut sram, &mut swap, 0x0CFF, 1);
    is_loaded(&rt, &mut sram, &mut swap, 0x1100, 2);
    is_loaded(&rt, &mut sram, &mut swap, 0x0100, 3);
    is_loaded(&rt, &mut sram, &mut swap, 0xFFFF, 4);
    Ok(())
}
