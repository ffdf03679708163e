//! The text of a dump.

ghost use Rattle.std.specs.Prelude.{◌≡◌, ◌≤◌, ◌<◌, [], length, IfOk, IfErr, Some, None};
ghost use Rattle.flash_words.specs.Pages.{many, page_count, page_of, blank};
ghost use Rattle.flash_words.specs.Operations.{programmed_page};
ghost use Rattle.flash_dump.specs.DumpLines.{fault_at};
ghost use Rattle.flash_dump.specs.Dumps.{IsDump, IsOpen, IsTaken, erased as erased_words};
ghost use Rattle.flash_dump.specs.DumpAnswers.{IsRefusal};

use crate::dump_line::{DumpFault, page_fault, page_line_in};
use base::NoMemory;
use flash_model::Flash;
use std::alloc::Global;
use text_lines::first_line;

/// Why a text was not read.
#[derive(Clone, Copy, Debug)]
pub enum DumpError {
    /// The first faulty line, counted from 1, and the first of its faults.
    Bad { line: u32, fault: DumpFault },
    /// Memory was wanted and not found.
    NoMemory,
}

/// Reads a dump. The flash that it gives has the words of the dump's lines, and erased ones in all pages without a
/// line; none of its operations fails, and no page counts as erased.
pub fn read_dump(alloc: Global, text: &[u8]) -> Result<Flash, DumpError>
    requires short { length text.now ≤ 2097152 }
    ensures read { IfOk result (λ flash. IsDump text.now flash.words) }
    ensures sound { IfOk result (λ flash. (flash.failing ≡ []) × (flash.ops ≡ 0) × (flash.refused ≡ None) × (flash.erases ≡ many page_count 0)) }
    ensures bad { IfErr result (IsRefusal text.now) }
{
    let mut flash = match erased(alloc) {
        Ok(flash) => flash,
        Err(NoMemory) => return Err(DumpError::NoMemory),
    };
    let mut rest = text;
    let mut number = 0;
    let mut least = 0;
    'lines: while !rest.is_empty() {
        let (line, behind) = first_line(rest);
        number += 1;
        match take_line(&mut flash, least, line) {
            Ok(after) => least = after,
            Err(fault) => {
                return Err(DumpError::Bad {
                    line: number,
                    fault,
                });
            }
        }
        rest = behind;
    }
    flash.renew();
    Ok(flash)
}

/// Takes a line, where the pages from `least` on may follow, and gives the least page that may follow it.
fn take_line(flash: &mut Flash, least: u16, line: &[u8]) -> Result<u16, DumpFault>
    requires open { IsOpen flash.old least }
    requires low { least ≤ page_count }
    ensures taken { IfOk result (λ after. IsTaken line.now least after flash.old flash.new) }
    ensures faulty { IfErr result (λ fault. fault_at least line.now ≡ Some fault) }
{
    if line.is_empty() {
        return Ok(least);
    }
    let told = match page_line_in(line) {
        Some(told) => told,
        None => return Err(DumpFault::Form),
    };
    match page_fault(least, told.page) {
        Some(fault) => Err(fault),
        None => {
            program(flash, told.page, &told.words);
            Ok(told.page + 1)
        }
    }
}

/// A flash whose words are all erased.
fn erased(alloc: Global) -> Result<Flash, NoMemory>
    ensures words { IfOk result (λ flash. (flash.words ≡ erased_words) × IsOpen flash 0) }
{
    Flash::erased(alloc)
}

/// Programs a page that is erased, of a flash of which no operation fails.
fn program(flash: &mut Flash, page: u16, words: &[u16; 128])
    requires page { page < page_count }
    requires sound { flash.old.failing ≡ [] }
    requires few { flash.old.ops < 1000 }
    requires erased { page_of flash.old.words page ≡ blank }
    ensures after { flash.new ≡ programmed_page flash.old page words.now }
{
    match flash.program(page, words) {
        Ok(()) => {}
        Err(_) => unreachable!(),
    }
}
