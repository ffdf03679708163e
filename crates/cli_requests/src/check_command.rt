//! The command `check`.
ghost use Rattle.std.specs.Prelude.{◌≡◌, ◌⊎◌, ◌≤◌, length};
ghost use Rattle.flash_words.specs.Layouts.{layout_of};
ghost use Rattle.pool_check.specs.Verdicts.{IsVerdict};
ghost use Rattle.cli_words.specs.Commands.{IsPossibleJob};
ghost use Rattle.cli_words.specs.Printed.{no_memory};
ghost use Rattle.byte_streams.specs.Streams.{input_of};
ghost use Rattle.cli_requests.specs.CheckCommand.{CheckAsks};
ghost use Rattle.cli_requests.specs.Reading.{AsksByText, most_input};

use crate::printed::{bad_dump, verdict_line};
use crate::reading::read_input;
use byte_streams::Source;
use cli_words::{Job, bad_hex, no_memory};
use flash_dump::{DumpError, read_dump};
use flash_model::{Flash, Layout};
use hex_image::{HexError, Image};
use pool_check::{Verdict, check};
use std::alloc::Global;

/// Reads an image and a dump, and checks the dump's flash.
pub(crate) fn check_job<S: Source>(alloc: Global, input: &mut S) -> Job
    ensures asks { AsksByText CheckAsks
        (input_of S.left S.given S.faults input.old) (input_of S.left S.given S.faults input.new)
        result }
    ensures possible { IsPossibleJob result }
{
    match read_input(alloc, input) {
        Ok(text) => text_job(alloc, &text),
        Err(job) => job,
    }
}

/// What a text asks for, which is a HEX text and a dump behind it.
fn text_job(alloc: Global, text: &[u8]) -> Job
    requires short { length text.now ≤ most_input }
    ensures asks { CheckAsks text.now result ⊎ (result ≡ no_memory) }
    ensures possible { IsPossibleJob result }
{
    let (image, position) = match hex_image::read(alloc, text) {
        Ok(read) => read,
        Err(HexError::Bad { line, fault }) => return bad_hex(line, fault),
        Err(HexError::NoMemory) => return no_memory(),
    };
    let flash = match read_dump(alloc, &text[position..]) {
        Ok(flash) => flash,
        Err(DumpError::Bad { line, fault }) => return bad_dump(line, fault),
        Err(DumpError::NoMemory) => return no_memory(),
    };
    verdict_line(verdict_of(&flash, &image))
}

/// What the checker says of a flash that should hold this image.
fn verdict_of(flash: &Flash, image: &Image) -> Verdict
    ensures verdict { IsVerdict (layout_of (length image.now)) image.now flash.now.words result }
{
    let words = image.words();
    check(flash, words, &Layout::of(words.len() as u16))
}
