//! When lines go out.

ghost use Rattle.std.specs.Prelude.{◌≤◌, length};

use hex_image::Image;
use input_script::read;
use std::test::Fail;
use tk_io::FlakySink;
use tk_run::{End, Machine, Options};

/// LDI r24, 0xFE; LDI r25, 0x7F; SBIW r24, 1; BRNE 2; OUT PORTA, r16 twice; RJMP to itself: the lines are those of
/// steps 65,535 and 65,536.
const IN_TURN: [u16; 7] = [0xEF8E, 0xE79F, 0x9701, 0xF7F1, 0xBB0B, 0xBB0B, 0xCFFF];

/// A NOP before those words: the lines are those of steps 65,536 and 65,537.
const ACROSS: [u16; 8] = [
    0x0000, 0xEF8E, 0xE79F, 0x9701, 0xF7F1, 0xBB0B, 0xBB0B, 0xCFFF,
];

/// Runs a program into a sink whose second write fails, so that it keeps what the first one gave it. Says whether there
/// was no second.
fn first_write(rt: &HostRuntime, words: &[u16]) -> Result<(FlakySink, bool), Fail>
    requires few { length words.now ≤ 24576 }
{
    let alloc = rt.alloc();
    let image = Image::from_words(alloc, words)?;
    let options = Options {
        quantum: 255,
        swap: 0,
    };
    let machine = Machine::boot(alloc, &image, read(alloc, b"")?, options)?;
    let mut machine = Box::new(alloc, machine)?;
    let mut out = FlakySink::new(alloc, 100, vec![in alloc; 2]?)?;
    let whole = machine.advance(100_000, &mut out).is_ok();
    Ok((out, whole))
}

#[test]
fn lines_up_to_step_65536_go_out_by_one_write(rt: HostRuntime) -> Result<(), Fail> {
    let (out, whole) = first_write(&rt, &IN_TURN)?;
    assert!(rt; whole);
    assert!(rt; out.taken() == b"PORTA 0x00\nPORTA 0x00\n".as_slice());
    Ok(())
}

#[test]
fn lines_of_step_65536_do_not_wait_for_the_next(rt: HostRuntime) -> Result<(), Fail> {
    let (out, whole) = first_write(&rt, &ACROSS)?;
    assert!(rt; !whole);
    assert!(rt; out.taken() == b"PORTA 0x00\n".as_slice());
    Ok(())
}
