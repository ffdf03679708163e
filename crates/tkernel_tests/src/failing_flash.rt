//! A loop of three instructions, on a flash of which one operation fails: an erase or a program.
use crate::support::{ROOM, answer_of};
use std::test::Fail;
use tk_run::End;

/// LDI r16, 3; DEC r16; BRNE 1; RJMP to itself. Its page is made by operation 1; the stub of the branch back gets
/// its jump by operations 2, an erase, and 3.
const LOOP: [u16; 4] = [0xE003, 0x950A, 0xF7F1, 0xCFFF];

/// No page is torn where the erase fails, and its code stays; the page is torn, and blank, where the program behind it fails.
#[test]
fn the_torn_page_is_kept(rt: HostRuntime) -> Result<(), Fail> {
    let rows: [(&[u8], u32, Option<u16>, bool); 2] = [
        (b"fail flash 2\n", 2, None, false),
        (b"fail flash 3\n", 3, Some(128), true),
    ];
    for (script, operation, torn, is_blank) in rows {
        let ended = answer_of(rt.alloc(), &["run"], &LOOP, script, ROOM)?;
        let machine = ended.machine()?;
        assert!(rt;
            matches!(machine.end, Some(End::Flash(number)) if u64::from(number) == u64::from(operation))
        );
        assert!(rt; machine.torn == torn);
        assert!(rt; machine.pool_front_is_blank == is_blank);
    }
    Ok(())
}
