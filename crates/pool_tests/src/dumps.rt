//! The dump of a flash: written, read back and checked.
use crate::support::{LOOP, with_loop};
use flash_dump::{read_dump, write_dump};
use flash_model::{Flash, Layout};
use nat_page::page_words;
use pool_check::{Verdict, check, page_form};
use std::alloc::Global;
use std::test::Fail;

/// The flash that the dump of this one gives.
fn read_back(alloc: Global, flash: &Flash) -> Result<Flash, Fail> {
    let Ok(text) = write_dump(alloc, flash) else {
        return Err("memory is ample".into());
    };
    // A line for the image, one for the page of code, and 32 for the kernel's.
    if text.len() != 34 * 522 {
        return Err("another length".into());
    }
    match read_dump(alloc, &text) {
        Ok(read) => Ok(read),
        Err(_) => Err("a dump is refused".into()),
    }
}

/// Each word comes back, and the pool is faithful, with its one page.
#[test]
fn a_dump_is_read_back(rt: HostRuntime) -> Result<(), Fail> {
    let layout = Layout::of(4);
    let flash = with_loop(&rt, &layout)?;
    let read = read_back(rt.alloc(), &flash)?;
    for address in 0..=0xFFFF {
        assert!(rt; read.word(address) == flash.word(address), "{address}");
    }
    assert!(rt; matches!(check(&read, &LOOP, &layout), Verdict::Faithful { pages: 1 }));
    assert!(rt; page_form(&LOOP, &layout, 128, &page_words(&read, 128)));
    Ok(())
}
