//! Texts of records.
ghost use Rattle.std.specs.Prelude.{◌≡◌, ◌≤◌, ◌+◌, ◌/◌, ◌<◌, ◌^◌, ℕ, List, length, map, All, IfOk, OnErr, MatchResult, ◌⊎◌, Err, Some};
ghost use Rattle.hex_image.specs.declared.fault.HexFault.{HexFault};
ghost use Rattle.hex_image.specs.declared.fault.HexError.{HexError};
ghost use Rattle.std.specs.List.{range_with_len};
ghost use Rattle.hex_image.specs.Image.{most_bytes};
ghost use Rattle.hex_image.specs.HexText.{HexText, NeedsMemory, hex_fault};
ghost use Rattle.hex_image.specs.Reading.{IsAnswer, IsImageAnswer, word_of_slots};

use crate::fault::{HexError, HexFault};
use crate::image::Image;
use crate::line::judge;
use crate::places::byte_or_blank;
use crate::reading::{Reading, Refusal, Step};
use std::alloc::{AllocError, Global};
use text_lines::first_line;

/// Reads the image of a text, and where the text behind the end record's line begins.
pub fn read(alloc: Global, text: &[u8]) -> Result<(Image, usize), HexError>
    requires { length text.now ≤ 2097152 }
    // What is read is the image of the text.
    ensures found { IfOk result (λ read. HexText text.now read.0 read.1) }

    // A text that has an image is read, unless memory runs out.
    ensures only { (words : List ℕ) (position : ℕ) → HexText text.now words position
        → MatchResult result (λ read. (read.0 ≡ words) × (read.1 ≡ position)) (λ error. error ≡ HexError.NoMemory) }

    // What is refused has this fault first, in this line.
    ensures bad { (line : ℕ) (fault : HexFault) → result ≡ Err (HexError.Bad line fault) → hex_fault text.now ≡ Some (line, fault) }

    // A text with a fault is refused for it, unless memory runs out.
    ensures bad_only { (line : ℕ) (fault : HexFault) → hex_fault text.now ≡ Some (line, fault)
        → (result ≡ Err (HexError.Bad line fault)) ⊎ (result ≡ Err HexError.NoMemory) }

    // Memory is wanted only for bytes that a record gives.
    ensures memory { result ≡ Err HexError.NoMemory → NeedsMemory text.now }
{
    read_image(alloc, text)
}

/// Reads a text as [`read`] does.
fn read_image(alloc: Global, text: &[u8]) -> Result<(Image, usize), HexError>
    requires { length text.now ≤ 2097152 }
    ensures answer { IsImageAnswer text.now result }
{
    let (slots, position) = read_lines(alloc, text)?;
    match words_of(alloc, slots.as_slice()) {
        Ok(words) => Ok((Image::new(words), position)),
        Err(_) => Err(HexError::NoMemory),
    }
}

/// The bytes that the records of a text give, and where the text behind the end record's line begins.
fn read_lines(alloc: Global, text: &[u8]) -> Result<(Vec<Option<u8>>, usize), HexError>
    requires { length text.now ≤ 2097152 }
    ensures answer { IsAnswer text.now result }
{
    let mut reading = Reading::new(alloc);
    let mut rest = text;
    let mut number = 1;
    'lines: while !rest.is_empty() {
        let (line, after) = first_line(rest);
        match reading.take_line(judge(line)) {
            Ok(Step::Next) => {}
            Ok(Step::End) => return Ok((reading.slots, text.len() - after.len())),
            Err(Refusal::Fault(fault)) => {
                return Err(HexError::Bad {
                    line: number,
                    fault,
                });
            }
            Err(Refusal::NoMemory) => return Err(HexError::NoMemory),
        }
        rest = after;
        number += 1;
    }
    Err(HexError::Bad {
        line: number,
        fault: HexFault::NoEnd,
    })
}

/// The words of bytes at their places.
fn words_of(alloc: Global, slots: &[Option<u8>]) -> Result<Vec<u16>, AllocError>
    requires { length slots.now ≤ most_bytes }
    ensures words { IfOk result (λ words. words.items ≡ map (word_of_slots slots.now) (range_with_len 0 ((length slots.now + 1) / 2))) }
    ensures small { IfOk result (λ words. All (λ word. word < 2 ^ 16) words.items) }
    ensures some { OnErr result (0 < length slots.now) }
{
    let mut words = Vec::new(alloc);
    'words: for address in 0..slots.len().div_ceil(2) {
        words.push(word_at(slots, address))?;
    }
    Ok(words)
}

/// The word of the two bytes at a word address.
fn word_at(slots: &[Option<u8>], address: usize) -> u16
    requires { address < 2 ^ 32 }
    ensures value { result ≡ word_of_slots slots.now address }
    ensures small { result < 2 ^ 16 }
{
    u16::from_le_bytes([
        byte_or_blank(slots, 2 * address),
        byte_or_blank(slots, 2 * address + 1),
    ])
}
