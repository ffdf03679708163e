//! What has been read of a text.
ghost use Rattle.std.specs.Prelude.{◌≤◌, ℕ, List, length};
ghost use Rattle.hex_image.specs.Places.{Known, nothing};
ghost use Rattle.hex_image.specs.Reading.{IsData, IsReading, IsStep, IsTold};

use crate::fault::HexFault;
use crate::line::Line;
use crate::places::{place_fault, put_bytes};
use std::alloc::Global;

/// What the lines so far have said.
#[derive(Drop)]
pub(crate) struct Reading {
    /// What addresses count from, in bytes.
    pub(crate) base: u32,
    /// The bytes that were given, each at its place.
    pub(crate) slots: Vec<Option<u8>>,
}

/// What comes after a line without a fault.
#[derive(Clone, Copy)]
pub(crate) enum Step {
    /// The next line.
    Next,
    /// The text behind the end record's line, which isn't looked at.
    End,
}

/// Why a line was not read.
#[derive(Clone, Copy)]
pub(crate) enum Refusal {
    /// It has this fault.
    Fault(HexFault),
    /// Memory was wanted and not found.
    NoMemory,
}

impl Reading {
    /// What is known before the first line.
    pub(crate) fn new(alloc: Global) -> Reading
        ensures start { IsReading nothing result }
    {
        Reading {
            base: 0,
            slots: Vec::new(alloc),
        }
    }

    /// Takes the next line.
    pub(crate) fn take_line(&mut self, line: Line) -> Result<Step, Refusal>
        ensures step { (known : Known) (bytes : List ℕ) → IsTold bytes line → IsReading known self.old
            → IsStep known bytes self.new result }
    {
        match line {
            Line::Blank => Ok(Step::Next),
            Line::StartAddress => Ok(Step::Next),
            Line::Base(base) => {
                self.base = base;
                Ok(Step::Next)
            }
            Line::Data { address, content } => self.take_data(address, content.as_slice()),
            Line::EndOfFile => Ok(Step::End),
            Line::Faulty(fault) => Err(Refusal::Fault(fault)),
        }
    }

    /// Takes the bytes of a data record.
    fn take_data(&mut self, address: u16, content: &[u8]) -> Result<Step, Refusal>
        requires { length content.now ≤ 255 }
        ensures step { (known : Known) (bytes : List ℕ) → IsData bytes address content.now → IsReading known self.old
            → IsStep known bytes self.new result }
    {
        match place_fault(self.slots.as_slice(), self.base, address, content) {
            Some(fault) => return Err(Refusal::Fault(fault)),
            None => {}
        }
        let start = self.base as usize + usize::from(address);
        match put_bytes(&mut self.slots, start, content) {
            Ok(()) => Ok(Step::Next),
            Err(_) => Err(Refusal::NoMemory),
        }
    }
}
