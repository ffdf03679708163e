//! Runs of small programs.

ghost use Rattle.std.specs.Prelude.{◌≤◌, length};

use crate::support::{LOOP, has, loop_page};
use hex_image::Image;
use input_script::read;
use kernel_entry::Stop;
use std::process::Abort;
use std::test::Fail;
use tk_io::MemSink;
use tk_run::{End, Machine, Options};

/// Writes 0 to PORTA, and jumps to itself.
const PORT: [u16; 2] = [0xBB0B, 0xCFFF];

/// A machine that has done nothing, in a box: where a machine itself is let go, the proof goes through all its parts.
pub(crate) fn boot(rt: &HostRuntime, words: &[u16], quantum: u8) -> Result<Box<Machine>, Fail>
    requires quantum { 1 ≤ quantum }
    requires few { length words.now ≤ 24576 }
{
    let image = Image::from_words(rt.alloc(), words)?;
    let script = read(rt.alloc(), b"")?;
    let options = Options { quantum, swap: 128 };
    let machine = Machine::boot(rt.alloc(), &image, script, options)?;
    Ok(Box::new(rt.alloc(), machine)?)
}

/// Runs a machine that can run on.
pub(crate) fn run(m: &mut Machine, n: u64, out: &mut MemSink) -> Result<End, &'static str> {
    if m.broken || m.steps > 1000 || n > 1000 {
        return Err("the machine can't run on");
    }
    match m.advance(n, out) {
        Ok(end) => Ok(end),
        Err(_) => Err("the line could not be put"),
    }
}

/// The address of a jump to itself, where the run has ended with one.
pub(crate) fn halted_at(end: End) -> Option<u16> {
    match end {
        End::Stopped(Stop::Halted(at)) => Some(at),
        _ => None,
    }
}

/// The run ends at this address with a jump to itself.
fn is_halted(
    rt: &impl Abort,
    m: &mut Machine,
    out: &mut MemSink,
    at: u16,
) -> Result<(), &'static str> {
    assert!(rt; halted_at(run(m, 1000, out)?) == Some(at));
    Ok(())
}

/// Steps, crossings, plain steps, services, pages.
pub(crate) fn counts(m: &Machine) -> [u64; 5] {
    [m.steps, m.crossings, m.natural, m.entries, m.pages]
}

#[test]
fn a_loop_is_counted(rt: HostRuntime) -> Result<(), Fail> {
    let mut out = MemSink::new(rt.alloc(), 100)?;
    let mut m = boot(&rt, &LOOP, 255)?;
    is_halted(&rt, &mut m, &mut out, 3)?;
    assert!(rt; m.at == 3);
    assert!(rt; counts(&m) == [7, 2, 31, 2, 1]);
    Ok(())
}

/// The branch back was taken twice, and leads to the entry of address 1.
#[test]
fn a_stub_is_patched_where_it_was_run(rt: HostRuntime) -> Result<(), Fail> {
    let mut out = MemSink::new(rt.alloc(), 100)?;
    let mut m = boot(&rt, &LOOP, 255)?;
    is_halted(&rt, &mut m, &mut out, 3)?;
    let mote = &m.kernel.mote;
    has(&rt, &mote.flash, &[&loop_page([0x940C, 0x4007])]);
    assert!(rt; mote.flash.erases(128) == 1);
    assert!(rt; mote.sram.aside(1) == (1, 0x4007));
    Ok(())
}

#[test]
fn a_run_goes_on_and_its_end_is_kept(rt: HostRuntime) -> Result<(), Fail> {
    let mut out = MemSink::new(rt.alloc(), 100)?;
    let mut m = boot(&rt, &LOOP, 2)?;
    assert!(rt; matches!(run(&mut m, 4, &mut out)?, End::Spent));
    assert!(rt; m.steps == 4);
    is_halted(&rt, &mut m, &mut out, 3)?;
    let before = counts(&m);
    is_halted(&rt, &mut m, &mut out, 3)?;
    assert!(rt; counts(&m) == before);
    assert!(rt; m.natural == 28);
    Ok(())
}

#[test]
fn a_line_is_put_or_breaks_the_machine(rt: HostRuntime) -> Result<(), Fail> {
    let mut out = MemSink::new(rt.alloc(), 11)?;
    let mut m = boot(&rt, &PORT, 255)?;
    is_halted(&rt, &mut m, &mut out, 1)?;
    assert!(rt; out.taken() == b"PORTA 0x00\n".as_slice());
    let mut m = boot(&rt, &PORT, 255)?;
    assert!(rt; run(&mut m, 10, &mut out).is_err());
    assert!(rt; m.broken);
    Ok(())
}
