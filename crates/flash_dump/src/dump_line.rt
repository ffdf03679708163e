//! One line of a dump.

ghost use Rattle.std.specs.Prelude.{◌≡◌, ◌<◌, ◌≤◌, false, nat_eq, length, drop, codes, MatchOption};
ghost use Rattle.std.specs.List.{starts_with};
ghost use Rattle.std.specs.Str.Parse.{digits_value, AllDigits};
ghost use Rattle.flash_dump.specs.DumpLines.{dump_word, has_page, IsReadLine, page_fault, word_digits, words_in};

use flash_model::PAGES;
use text_lines::value_of;

/// A fault of a line. A line's faults are tried in this order, and the first is reported.
#[derive(Clone, Copy, Debug)]
pub enum DumpFault {
    /// The line isn't empty, and hasn't the form of a page's line.
    Form,
    /// Its page isn't above that of the line before.
    Order,
    /// Its page is above 511.
    Range,
}

impl DumpFault {
    /// The word by which it is told.
    pub fn word(self) -> &'static [u8]
        ensures word { result.now ≡ dump_word self }
        ensures short { length result.now ≤ 8 }
    {
        match self {
            DumpFault::Form => b"form",
            DumpFault::Order => b"order",
            DumpFault::Range => b"range",
        }
    }
}

/// The first fault of a page's number, where the pages from `least` on may follow.
pub(crate) fn page_fault(least: u16, page: u16) -> Option<DumpFault>
    ensures value { result ≡ page_fault least page }
{
    if page < least {
        Some(DumpFault::Order)
    } else if page >= PAGES as u16 {
        Some(DumpFault::Range)
    } else {
        None
    }
}

/// What a line tells.
#[derive(Clone, Copy)]
pub(crate) struct PageLine {
    /// The number of its page, of up to three digits.
    pub page: u16,
    /// The words of the page.
    pub words: [u16; 128],
}

/// The bytes of a line.
const LINE_BYTES: usize = 521;

/// What a line tells, where it has the form.
pub(crate) fn page_line_in(line: &[u8]) -> Option<PageLine>
    ensures cases { MatchOption result (has_page line.now ≡ false) (IsReadLine line.now) }
{
    if line.len() != LINE_BYTES || !begins(line) || line[8] != b' ' {
        return None;
    }
    let page = value_of(&line[5..8], 10)?;
    let words = words_of(line)?;
    Some(PageLine {
        page: page as u16,
        words,
    })
}

/// Whether the line begins as one with a page.
fn begins(line: &[u8]) -> bool
    ensures value { result ≡ starts_with nat_eq line.now (codes "page ") }
{
    line.starts_with(b"page ")
}

/// The words that the line's digits write.
fn words_of(line: &[u8]) -> Option<[u16; 128]>
    requires size { length line.now ≡ 521 }
    ensures cases { MatchOption result (¬ AllDigits 16 (drop 9 line.now))
        (λ words. AllDigits 16 (drop 9 line.now) × (words ≡ words_in line.now)) }
{
    let mut words = [0; 128];
    'words: for k in 0..128usize {
        words[k] = word_of(line, k)?;
    }
    Some(words)
}

/// Word `k`.
fn word_of(line: &[u8], k: usize) -> Option<u16>
    requires size { length line.now ≡ 521 }
    requires inside { k < 128 }
    ensures cases { MatchOption result (¬ AllDigits 16 (word_digits line.now k))
        (λ word. AllDigits 16 (word_digits line.now k) × (word ≡ digits_value 16 (word_digits line.now k))) }
{
    let first = 9 + 4 * k;
    let word = value_of(&line[first..first + 4], 16)?;
    Some(word as u16)
}
