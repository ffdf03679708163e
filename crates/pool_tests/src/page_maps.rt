//! The maps of a pool with one page.

use crate::support::with_loop;
use flash_model::Layout;
use page_index::{entry, free_page, origin};
use std::test::Fail;

#[test]
fn the_entries_of_a_page_are_found(rt: HostRuntime) -> Result<(), Fail> {
    let layout = Layout::of(4);
    let flash = with_loop(&rt, &layout)?;
    assert!(rt; entry(&flash, &layout, 2) == Some(0x4008));
    assert!(rt; entry(&flash, &layout, 4).is_none());
    assert!(rt; origin(&flash, &layout, 0x4007) == Some(1));
    assert!(rt; origin(&flash, &layout, 0x4009).is_none());
    assert!(rt; free_page(&flash, &layout) == Some(129));
    Ok(())
}
