//! The first program: `LDI r16, 0x0F`, `OUT PORTA, r16`, and an RJMP to its own address.
use crate::support::{Ended, ROOM, answer, answer_of};
use kernel_entry::Stop;
use std::alloc::Global;
use std::test::Fail;
use tk_io::{FlakySink, FlakySource, MemSink, MemSource, Sink};
use tk_run::End;
use tkernel_cli::Status;

const HEX: &[u8] = b":060000000FE00BBBFFCF77\n:00000001FF\n";

pub(crate) const LINES: &[u8] =
    b"PORTA 0x0F\nhalted 0x0002 steps 2 checkpoints 0\nnatural 3 entries 1 pages 1\n";

const READ_FAULT: &[u8] = b"read fault\n";

/// The bytes of the lines.
const LENGTH: usize = 75;

/// The program's text.
fn hex(alloc: Global) -> Result<Vec<u8>, Fail> {
    Ok(HEX.to_vec(alloc)?)
}

/// Whether a text is this many bytes of the lines.
fn is_start(text: &[u8], count: usize) -> bool {
    LINES.get(..count) == Some(text)
}

/// The text, as a source of which this call fails.
fn failing_source(alloc: Global, call: u64) -> Result<FlakySource, Fail> {
    let failing = [call].to_vec(alloc)?;
    Ok(FlakySource::new(hex(alloc)?, failing))
}

/// A sink of which this call fails.
fn failing_sink(alloc: Global, call: u64) -> Result<FlakySink, Fail> {
    let failing = [call].to_vec(alloc)?;
    Ok(FlakySink::new(alloc, ROOM, failing)?)
}

/// Runs the program into a sink.
fn run_to<K: Sink>(alloc: Global, out: &mut K) -> Result<Ended, Fail> {
    let mut input = MemSource::new(hex(alloc)?);
    answer(alloc, &["run"], &mut input, out)
}

#[test]
fn the_machine_is_kept(rt: HostRuntime) -> Result<(), Fail> {
    let ended = answer_of(rt.alloc(), &["run"], &[0xE00F, 0xBB0B, 0xCFFF], b"", ROOM)?;
    assert!(rt; ended.status == Status::Done);
    let machine = ended.machine()?;
    assert!(rt; matches!(machine.end, Some(End::Stopped(Stop::Halted(2)))));
    assert!(rt; machine.r[16] == 0x0F);
    assert!(rt; machine.sp == 0x011F);
    Ok(())
}

#[test]
fn a_failed_read_is_told(rt: HostRuntime) -> Result<(), Fail> {
    let mut input = failing_source(rt.alloc(), 2)?;
    let mut out = MemSink::new(rt.alloc(), ROOM)?;
    let ended = answer(rt.alloc(), &["run"], &mut input, &mut out)?;
    assert!(rt; ended.status == Status::ReadFault);
    assert!(rt; out.taken() == READ_FAULT);
    assert!(rt; ended.kept.is_none());
    Ok(())
}

/// The sink fails at its first call, its second and so on: what went out is a part of the lines.
#[test]
fn a_failed_write_leaves_a_part_of_the_lines(rt: HostRuntime) -> Result<(), Fail> {
    for (call, went_out) in [(1, 0), (2, 11), (3, 47)] {
        let mut out = failing_sink(rt.alloc(), call)?;
        let ended = run_to(rt.alloc(), &mut out)?;
        assert!(rt; ended.status == Status::WriteFault);
        assert!(rt; is_start(out.taken(), went_out), "call {call}");
        assert!(rt; ended.kept.is_some(), "call {call}");
    }
    Ok(())
}

/// A sink with room for a part of the lines takes just that part. The machine is broken where the line of
/// its output, the first, didn't fit.
#[test]
fn a_sink_with_too_little_room_takes_what_fits(rt: HostRuntime) -> Result<(), Fail> {
    for room in 0..=LENGTH {
        let mut out = MemSink::new(rt.alloc(), room)?;
        let ended = run_to(rt.alloc(), &mut out)?;
        assert!(rt; is_start(out.taken(), room), "room {room}");
        let status = if room < LENGTH {
            Status::WriteFault
        } else {
            Status::Done
        };
        assert!(rt; ended.status == status, "room {room}");
        assert!(rt; ended.machine()?.broken == (room < 11), "room {room}");
    }
    Ok(())
}
