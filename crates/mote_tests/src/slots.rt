//! Slots that are written and read.

use swap_store::Swap;

#[test]
fn a_new_slot_is_all_zeros(rt: HostRuntime) {
    let Ok(swap) = Swap::new(rt.alloc(), 1) else {
        panic!(rt; "memory is ample")
    };
    assert!(rt; swap.slots() == 1);
    let mut page = [9; 256];
    swap.read(0, &mut page);
    assert!(rt; page == [0; 256]);
}

#[test]
fn a_page_stays_in_its_own_slot(rt: HostRuntime) {
    let Ok(mut swap) = Swap::new(rt.alloc(), 251) else {
        panic!(rt; "memory is ample")
    };
    assert!(rt; swap.slots() == 251);
    swap.write(250, &[7; 256]);
    swap.write(0, &[1; 256]);
    let mut page = [0; 256];
    swap.read(250, &mut page);
    assert!(rt; page == [7; 256]);
    swap.read(249, &mut page);
    assert!(rt; page == [0; 256]);
}
