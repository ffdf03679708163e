//! The first pass over the lines: labels and addresses, and the faults that a line has by itself or behind others.

ghost use Rattle.std.specs.Prelude.{◌≡◌, ◌≤◌, List, length, OnOk, IfOk, IfErr};
ghost use Rattle.hex_image.specs.Image.{most_words};
ghost use Rattle.avr_asm.specs.Addresses.{Label, Place, is_twice as is_twice_test, with_label, words_of_statement};
ghost use Rattle.avr_asm.specs.Labels.{HasLabels};
ghost use Rattle.avr_asm.specs.SourceLines.{label_text, IsNamed};
ghost use Rattle.avr_asm.specs.Passes.{IsFirstRefusal, IsPassed, IsRefused, IsTaken};

use crate::fault::{AsmError, AsmFault};
use crate::labels::Labels;
use crate::line::{Line, line_in};
use crate::mnemonic::Jump;
use crate::name::Name;
use crate::statement::Statement;
use crate::text::{trimmed, up_to};
use avr_isa::size;
use base::NoMemory;
use hex_image::MOST_WORDS;
use std::alloc::Global;
use text_lines::first_line;

/// Why a line isn't taken.
#[derive(Clone, Copy)]
pub(crate) enum Refusal {
    Fault(AsmFault),
    NoMemory,
}

/// The labels so far, and the address of the next statement.
#[derive(Drop)]
pub(crate) struct Pass<'a> {
    pub(crate) labels: Labels<'a>,
    pub(crate) at: u32,
}

impl<'a> Pass<'a> {
    /// Takes one line.
    fn take(&mut self, text: &'a [u8]) -> Result<(), Refusal>
        requires few { self.old.at ≤ most_words }
        ensures taken { OnOk result (IsTaken text.now self.old self.new) }
        ensures refused { IfErr result (IsRefused text.now self.old) }
    {
        let line = match line_in(text) {
            Ok(line) => line,
            Err(fault) => return Err(Refusal::Fault(fault)),
        };
        let size = words_of(&line);
        if is_twice(&self.labels, &line.label) {
            return Err(Refusal::Fault(AsmFault::Twice));
        }
        if self.at + size > MOST_WORDS {
            return Err(Refusal::Fault(AsmFault::TooLarge));
        }
        match add_label(&mut self.labels, &line.label, text, self.at) {
            Ok(()) => {
                self.at += size;
                Ok(())
            }
            Err(_) => Err(Refusal::NoMemory),
        }
    }
}

/// How many words a line's statement has.
fn words_of(line: &Line) -> u32
    ensures value { result ≡ words_of_statement line.now.statement }
    ensures small { result ≤ 2 }
{
    match &line.statement {
        None => 0,
        Some(Statement::Word(_)) => 1,
        Some(Statement::Ready(instr)) => u32::from(size(instr)),
        Some(Statement::To(Jump::Jmp, _)) => 2,
        Some(Statement::To(Jump::Call, _)) => 2,
        Some(Statement::To(..)) => 1,
    }
}

/// Whether a line's label is one already.
fn is_twice(labels: &Labels, label: &Option<Name>) -> bool
    ensures value { (list : List Label) → HasLabels labels.now list → result ≡ is_twice_test label.now list }
{
    match label {
        Some(name) => labels.find(name).is_some(),
        None => false,
    }
}

/// Adds a line's label, if it has one.
fn add_label<'a>(
    labels: &mut Labels<'a>,
    label: &Option<Name>,
    line: &'a [u8],
    at: u32,
) -> Result<(), NoMemory>
    requires named { IsNamed line.now label.now }
    ensures added { OnOk result ((place : Place) → at ≡ place.at → HasLabels labels.old place.labels → HasLabels labels.new (with_label label.now place)) }
{
    match label {
        Some(_) => labels.add(label_in(line), at),
        None => Ok(()),
    }
}

/// The text of a line's label.
fn label_in(line: &[u8]) -> &[u8]
    ensures value { result.now ≡ label_text line.now }
{
    up_to(trimmed(up_to(line, b';')), b':')
}

/// The labels of a text, and the number of its words.
pub(crate) fn first_pass<'a>(alloc: Global, text: &'a [u8]) -> Result<Pass<'a>, AsmError>
    requires short { length text.now ≤ 2097152 }
    ensures passed { IfOk result (IsPassed text.now) }
    ensures refused { IfErr result (IsFirstRefusal text.now) }
{
    let mut pass = Pass {
        labels: Labels::new(alloc),
        at: 0,
    };
    let mut rest = text;
    let mut number = 0;
    'lines: while !rest.is_empty() {
        let (line, behind) = first_line(rest);
        number += 1;
        match pass.take(line) {
            Ok(()) => {}
            Err(Refusal::Fault(fault)) => {
                return Err(AsmError::Bad {
                    line: number,
                    fault,
                });
            }
            Err(Refusal::NoMemory) => return Err(AsmError::NoMemory),
        }
        rest = behind;
    }
    Ok(pass)
}
