//! What the tests share: calls of the program, whose answers are plain values. So the contract of the top call
//! and the laws that a machine keeps are met in this file alone, and no test's own proof carries them.
use flash_model::Flash;
use hex_image::{Image, write};
use std::alloc::Global;
use std::test::Fail;
use tk_io::{MemSink, MemSource, Sink, Source};
use tk_run::{End, Machine};
use tkernel_cli::{Status, tkernel};

/// More room than any text of these tests needs.
pub(crate) const ROOM: usize = 1000;

/// What tests look at of the machine that a call kept.
#[derive(Clone, Copy)]
pub(crate) struct Kept {
    pub end: Option<End>,
    pub broken: bool,
    pub r: [u8; 32],
    pub sreg: u8,
    /// The mote's own stack pointer.
    pub sp: u16,
    /// The stack pointer that the program sees.
    pub program_sp: u16,
    /// The byte of SRAM at 0x0100, the kernel's count of crossings.
    pub count: u8,
    /// The byte of SRAM at 0x0D00, the first of the stack window.
    pub window_front: u8,
    /// The bytes of SRAM from 0x0E00 on.
    pub stack: [u8; 256],
    pub natural: u64,
    pub entries: u64,
    /// The page that a refused operation on flash left torn.
    pub torn: Option<u16>,
    /// Whether page 128 of flash, the first of the code pool, is blank.
    pub pool_front_is_blank: bool,
}

/// How a call ended.
#[derive(Drop)]
pub(crate) struct Ended {
    pub status: Status,
    pub kept: Option<Kept>,
}

impl Ended {
    /// The machine of a call that kept one.
    pub(crate) fn machine(&self) -> Result<&Kept, Fail> {
        match &self.kept {
            Some(kept) => Ok(kept),
            None => Err("no machine".into()),
        }
    }
}

fn looked_at(machine: &Machine) -> Kept {
    let mote = &machine.kernel.mote;
    let mut stack = [0; 256];
    mote.sram.block(0x0E00, &mut stack);
    Kept {
        end: machine.end,
        broken: machine.broken,
        r: mote.cpu.r,
        sreg: mote.cpu.sreg,
        sp: mote.cpu.sp,
        program_sp: mote.sram.vsp(),
        count: mote.sram.byte(0x0100),
        window_front: mote.sram.byte(0x0D00),
        stack,
        natural: machine.natural,
        entries: machine.entries,
        torn: match &machine.torn {
            Some(torn) => Some(torn.page),
            None => None,
        },
        pool_front_is_blank: is_blank(&mote.flash, 128),
    }
}

/// Whether each word of a page is 0xFFFF.
fn is_blank(flash: &Flash, page: u8) -> bool {
    for offset in 0..128u16 {
        if flash.word(u16::from(page) * 128 + offset) != 0xFFFF {
            return false;
        }
    }
    true
}

/// Answers these words, over these streams.
pub(crate) fn answer<S: Source, K: Sink>(
    alloc: Global,
    words: &[&str],
    input: &mut S,
    out: &mut K,
) -> Result<Ended, Fail> {
    let exit = tkernel(alloc, &words_of(alloc, words)?, input, out);
    let kept = match &exit.kept {
        Some(machine) => Some(looked_at(machine)),
        None => None,
    };
    Ok(Ended {
        status: exit.into_status(),
        kept,
    })
}

pub(crate) fn words_of(alloc: Global, words: &[&str]) -> Result<Vec<String>, Fail> {
    let mut owned = Vec::new(alloc);
    for word in words {
        owned.push(String::from_str(alloc, word)?)?;
    }
    Ok(owned)
}

/// Answers these words for an image, with a script behind it. At most `room` bytes can be printed.
pub(crate) fn answer_of(
    alloc: Global,
    words: &[&str],
    image: &[u16],
    script: &[u8],
    room: usize,
) -> Result<Ended, Fail> {
    let mut input = MemSource::new(input_of(alloc, image, script)?);
    let mut out = MemSink::new(alloc, room)?;
    answer(alloc, words, &mut input, &mut out)
}

/// The HEX text of an image's words, and a script behind it.
pub(crate) fn input_of(alloc: Global, image: &[u16], script: &[u8]) -> Result<Vec<u8>, Fail> {
    if image.len() > 24_576 {
        return Err("too many words".into());
    }
    let image = Image::from_words(alloc, image)?;
    let mut text = write(alloc, &image)?;
    text.extend_from_slice(script)?;
    Ok(text)
}
