//! Writing the text of an image.
ghost use Rattle.std.specs.Prelude.{◌≡◌, ◌≤◌, ◌*◌, ◌++◌, take, drop, length, IfOk, OnOk};
ghost use Rattle.hex_image.specs.Image.{most_words};
ghost use Rattle.hex_image.specs.HexText.{HexText};
ghost use Rattle.hex_image.specs.Kinds.{code_of};
ghost use Rattle.text_lines.specs.Written.{fed};
ghost use Rattle.hex_image.specs.Written.{bytes_of_words, fields_of, record_bytes, record_line, written};

use crate::image::Image;
use crate::kind::Kind;
use crate::line::byte_sum;
use arrayvec::ArrayVec;
use base::NoMemory;
use std::alloc::{AllocError, Global};
use text_lines::push_coded;

/// The most bytes of a record that is written: 16 of content, and 5 beside it.
const MOST_BYTES: usize = 21;

/// The text of an image: records of 16 bytes from address 0 on, the last one shorter, then the end record,
/// in upper case, each line ended by a line feed.
pub fn write(alloc: Global, image: &Image) -> Result<Vec<u8>, NoMemory>
    ensures text { IfOk result (λ text. text.items ≡ written image.now) }

    // Reading it gives the image, and nothing is left of it.
    ensures read_back { IfOk result (λ text. HexText text.items image.now (length text.items)) }
{
    Ok(text_of(alloc, image.words())?)
}

/// The text of some words.
fn text_of(alloc: Global, words: &[u16]) -> Result<Vec<u8>, AllocError>
    requires { length words.now ≤ most_words }
    ensures text { IfOk result (λ text. text.items ≡ written words.now) }
{
    let mut text = Vec::new(alloc);
    'records: for number in 0..words.len().div_ceil(8) {
        let content = bytes_of_words(words_of_record(words, number));
        push_line(
            alloc,
            &mut text,
            Kind::Data,
            16 * number as u16,
            content.as_slice(),
        )?;
    }
    push_line(alloc, &mut text, Kind::EndOfFile, 0, &[])?;
    Ok(text)
}

/// The words of the record of a number.
fn words_of_record(words: &[u16], number: usize) -> &[u16]
    requires { 8 * number ≤ length words.now }
    ensures words { result.now ≡ take 8 (drop (8 * number) words.now) }
    ensures few { length result.now ≤ 8 }
{
    let rest = &words[8 * number..];
    &rest[..8usize.min(rest.len())]
}

/// The bytes of words, the low byte first.
fn bytes_of_words(words: &[u16]) -> ArrayVec<u8, 16>
    requires { length words.now ≤ 8 }
    ensures items { result.items ≡ bytes_of_words words.now }
{
    let mut bytes = ArrayVec::new();
    for word in words {
        let [low, high] = word.to_le_bytes();
        bytes.push(low);
        bytes.push(high);
    }
    bytes
}

/// Adds the line of a record, with its line feed.
fn push_line(
    alloc: Global,
    text: &mut Vec<u8>,
    kind: Kind,
    address: u16,
    content: &[u8],
) -> Result<(), AllocError>
    requires { length content.now ≤ 16 }
    ensures line { OnOk result (text.new.items ≡ text.old.items ++ fed (record_line (code_of kind) address content.now)) }
{
    let bytes = record_bytes(kind, address, content);
    push_coded(alloc, text, b":", bytes.as_slice())
}

/// The bytes of a record, with its checksum.
fn record_bytes(kind: Kind, address: u16, content: &[u8]) -> ArrayVec<u8, MOST_BYTES>
    requires { length content.now ≤ 16 }
    ensures items { result.items ≡ record_bytes (code_of kind) address content.now }
{
    let mut bytes = fields_of(kind, address, content);
    let checksum = byte_sum(bytes.as_slice()).wrapping_neg();
    bytes.push(checksum);
    bytes
}

/// The bytes of a record before its checksum.
fn fields_of(kind: Kind, address: u16, content: &[u8]) -> ArrayVec<u8, MOST_BYTES>
    requires { length content.now ≤ 16 }
    ensures items { result.items ≡ fields_of (code_of kind) address content.now }
{
    let [high, low] = address.to_be_bytes();
    let mut bytes = ArrayVec::new();
    bytes.push(content.len() as u8);
    bytes.push(high);
    bytes.push(low);
    bytes.push(kind.code());
    let _fits = bytes.try_extend_from_slice(content);
    bytes
}
