//! Streams that move 1, 7 or 4,096 bytes at each call make no difference.
use crate::support::{ROOM, answer, input_of};
use std::alloc::Global;
use std::test::Fail;
use tk_io::{Sink, SlowSink, SlowSource};
use tkernel_cli::Status;

/// The end of a program that avr-gcc made, from the word 0x0046 on: it sends two letters from its data.
const REST: [u16; 45] = [
    0x2411, 0xBE1F, 0xEFCF, 0xE1D0, 0xBFDE, 0xBFCD, 0xE011, 0xE0A0, 0xE0B1, 0xEEE4, 0xE0F0, 0xE000,
    0xBF0B, 0xC002, 0x9007, 0x920D, 0x30A2, 0x07B1, 0xF7D9, 0xE021, 0xE0A2, 0xE0B1, 0xC001, 0x921D,
    0x30A3, 0x07B2, 0xF7E1, 0x940E, 0x0067, 0x940C, 0x0070, 0x940C, 0x0000, 0x9180, 0x0100, 0xB98C,
    0x9180, 0x0101, 0xB98C, 0xE080, 0xE090, 0x9508, 0x94F8, 0xCFFF, 0x6948,
];

const LINES: &[u8] =
    b"UART0 0x48\nUART0 0x69\nhalted 0x0071 steps 49 checkpoints 0\nnatural 89 entries 21 pages 8\n";

/// The program's text. Before the rest stand 35 JMPs, to the rest and 34 times to 0x0065.
fn text(alloc: Global) -> Result<Vec<u8>, Fail> {
    let mut image = Vec::new(alloc);
    image.extend_from_slice(&[0x940C, 0x0046])?;
    for _ in 0..34u8 {
        image.extend_from_slice(&[0x940C, 0x0065])?;
    }
    image.extend_from_slice(&REST)?;
    input_of(alloc, &image, b"")
}

/// A source of the text that gives a few bytes at a time.
fn slow_source(alloc: Global, most: usize) -> Result<SlowSource, Fail> {
    if most == 0 {
        return Err("no byte at a time".into());
    }
    Ok(SlowSource::new(text(alloc)?, most))
}

/// A sink that takes a few bytes at a time.
fn slow_sink(alloc: Global, most: usize) -> Result<SlowSink, Fail> {
    if most == 0 {
        return Err("no byte at a time".into());
    }
    Ok(SlowSink::new(alloc, ROOM, most)?)
}

#[test]
fn slow_streams_make_no_difference(rt: HostRuntime) -> Result<(), Fail> {
    for most in [1, 7, 4096] {
        let mut input = slow_source(rt.alloc(), most)?;
        let mut out = slow_sink(rt.alloc(), most)?;
        let ended = answer(rt.alloc(), &["run"], &mut input, &mut out)?;
        assert!(rt; out.taken() == LINES, "{most} bytes");
        assert!(rt; ended.status == Status::Done, "{most} bytes");
        assert!(rt; input.left().is_empty(), "{most} bytes");
    }
    Ok(())
}
