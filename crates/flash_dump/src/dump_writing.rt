//! Writing a dump.

ghost use Rattle.std.specs.Prelude.{◌≡◌, ◌≤◌, ◌<◌, ◌++◌, length, flat_map, IfOk, OnOk};
ghost use Rattle.flash_words.specs.Memory.{IsWhole};
ghost use Rattle.flash_words.specs.Pages.{page_count};
ghost use Rattle.text_lines.specs.Written.{fed};
ghost use Rattle.flash_dump.specs.Dumps.{IsDump};
ghost use Rattle.flash_dump.specs.WrittenDumps.{bytes_of_words, is_erased as is_erased_test, line_front, lines_of_page, page_line, written};

use arrayvec::ArrayVec;
use base::NoMemory;
use flash_model::{BLANK, Flash, PAGES};
use std::alloc::{AllocError, Global};
use text_lines::push_coded;

/// The bytes of a page.
const PAGE_BYTES: usize = 256;

/// Writes the dump of a flash: a line for each page that isn't all 0xFFFF, in ascending order, in upper case, each
/// ended by a line feed. That is at most 267,264 bytes.
pub fn write_dump(alloc: Global, flash: &Flash) -> Result<Vec<u8>, NoMemory>
    ensures text { IfOk result (λ text. text.items ≡ written flash.now.words) }

    // Reading it gives the words.
    ensures read_back { IfOk result (λ text. IsDump text.items flash.now.words) }
{
    Ok(text_of(alloc, flash)?)
}

/// The dump of a flash.
fn text_of(alloc: Global, flash: &Flash) -> Result<Vec<u8>, AllocError>
    ensures text { IfOk result (λ text. text.items ≡ written flash.now.words) }
    ensures whole { IfOk result (λ _. IsWhole flash.now) }
{
    let mut text = Vec::new(alloc);
    'pages: for page in 0..PAGES as u16 {
        push_page(alloc, &mut text, page, flash.page(page))?;
    }
    Ok(text)
}

/// Adds the line of a page, with its line feed, unless it is erased.
fn push_page(alloc: Global, text: &mut Vec<u8>, page: u16, words: &[u16]) -> Result<(), AllocError>
    requires page { page < page_count }
    requires words { length words.now ≤ 128 }
    ensures lines { OnOk result (text.new.items ≡ text.old.items ++ flat_map fed (lines_of_page page words.now)) }
{
    if is_erased(words) {
        return Ok(());
    }
    push_line(alloc, text, page, words)
}

/// Adds the line of a page, with its line feed.
fn push_line(alloc: Global, text: &mut Vec<u8>, page: u16, words: &[u16]) -> Result<(), AllocError>
    requires page { page < page_count }
    requires words { length words.now ≤ 128 }
    ensures line { OnOk result (text.new.items ≡ text.old.items ++ fed (page_line page words.now)) }
{
    let bytes = bytes_of_words(words);
    push_coded(alloc, text, &line_front(page), bytes.as_slice())
}

/// What stands in the line before the words.
fn line_front(page: u16) -> [u8; 9]
    requires page { page < page_count }
    ensures value { result ≡ line_front page }
{
    let hundreds = b'0' + (page / 100) as u8;
    let tens = b'0' + (page / 10 % 10) as u8;
    let ones = b'0' + (page % 10) as u8;
    [b'p', b'a', b'g', b'e', b' ', hundreds, tens, ones, b' ']
}

/// The bytes of words, the high byte first.
fn bytes_of_words(words: &[u16]) -> ArrayVec<u8, PAGE_BYTES>
    requires words { length words.now ≤ 128 }
    ensures items { result.items ≡ bytes_of_words words.now }
{
    let mut bytes = ArrayVec::new();
    for word in words {
        let [high, low] = word.to_be_bytes();
        bytes.push(high);
        bytes.push(low);
    }
    bytes
}

/// Whether the words are all erased.
pub fn is_erased(words: &[u16]) -> bool
    ensures value { result ≡ is_erased_test words.now }
{
    words.iter().all(|word| *word == BLANK)
}
