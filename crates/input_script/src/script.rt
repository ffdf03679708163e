//! A script as a whole.

ghost use Rattle.std.specs.Prelude.{◌≡◌, ℕ, ◌≤◌, ◌⊎◌, length, nat_le, Some, None, MatchResult, IfOk, IfErr, OnOk};
ghost use Rattle.input_script.specs.declared.fault.ScriptFault.{ScriptFault};
ghost use Rattle.input_script.specs.Grammar.{statement_of};
ghost use Rattle.input_script.specs.Script.{Schedule, size, most_statements, with_said, is_late, is_in_range, is_input_in_range, fault_of, fault_at, script_fault, IsScript, IsSchedule, NeedsMemory};
ghost use Rattle.input_script.specs.Judging.{Takes, IsRefusal};

use crate::fault::{ScriptError, ScriptFault};
use crate::input::{Event, Input};
use crate::line::{Statement, statement_in};
use std::alloc::Global;
use std::marker::Model;
use text_lines::first_line;

/// How many events and fail lines a script may have.
const MOST_STATEMENTS: usize = 65536;

/// The greatest value of the converter.
const MOST_ADC: u16 = 0x3FF;

/// What a script that was accepted schedules.
#[derive(Drop)]
pub struct Script {
    events: Vec<Event>,
    failing: Vec<u32>,
}

impl Model for Script {
    ghost use Rattle.input_script.specs.Script.{Schedule, IsSchedule};

    ghost Value = { Schedule };

    ghost view = { λ s. record { events = s.events.items; failing = s.failing.items } };

    ghost invariant = { λ s. IsSchedule (record { events = s.events.items; failing = s.failing.items }) };
}

impl Script {
    /// The events, each at its poll's number, in order.
    pub fn events(&self) -> &[Event]
        ensures value { result.now ≡ self.now.events }
        ensures schedule { IsSchedule self.now }
    {
        &self.events
    }

    /// The numbers of the flash operations that are to fail, counted from 1, in order.
    pub fn failing(&self) -> &[u32]
        ensures value { result.now ≡ self.now.failing }
        ensures schedule { IsSchedule self.now }
    {
        &self.failing
    }

    /// Adds what the line with this number says.
    fn take_line(&mut self, text: &[u8], line: u32) -> Result<(), ScriptError>
        ensures taken { OnOk result (Takes text.now self.old self.new) }
        ensures refused { IfErr result (λ error. IsRefusal error line text.now self.old) }
    {
        match self.judged(text) {
            Ok(Statement::Nothing) => Ok(()),
            Ok(Statement::At { number, input }) => {
                let at = number as u32;
                match self.events.push(Event { at, input }) {
                    Ok(()) => Ok(()),
                    Err(_) => Err(ScriptError::NoMemory),
                }
            }
            Ok(Statement::FailFlash { number }) => match self.failing.push(number as u32) {
                Ok(()) => Ok(()),
                Err(_) => Err(ScriptError::NoMemory),
            },
            Err(fault) => Err(ScriptError::Bad { line, fault }),
        }
    }

    /// What a line says after the lines before it.
    fn judged(&self, line: &[u8]) -> Result<Statement, ScriptFault>
        ensures cases { MatchResult result
            (λ statement. (statement_of line.now ≡ Some statement) × (fault_of self.now (Some statement) ≡ None))
            (λ fault. fault_at self.now line.now ≡ Some fault) }
    {
        match statement_in(line) {
            None => Err(ScriptFault::Form),
            Some(statement) => match self.fault_of(statement) {
                Some(fault) => Err(fault),
                None => Ok(statement),
            },
        }
    }

    /// The first thing that is wrong with a statement after those before it.
    fn fault_of(&self, statement: Statement) -> Option<ScriptFault>
        ensures value { result ≡ fault_of self.now (Some statement) }
    {
        if self.is_late(statement) {
            return Some(ScriptFault::Order);
        }
        if !is_in_range(statement) {
            return Some(ScriptFault::Range);
        }
        if !self.has_room(statement) {
            return Some(ScriptFault::TooMany);
        }
        None
    }

    /// Whether an earlier statement of the same sort has a greater number.
    fn is_late(&self, statement: Statement) -> bool
        ensures value { result ≡ is_late self.now statement }
    {
        match statement {
            Statement::Nothing => false,
            Statement::At { number, .. } => match self.events.as_slice() {
                [] => false,
                [.., last] => number < u64::from(last.at),
            },
            Statement::FailFlash { number } => match self.failing.as_slice() {
                [] => false,
                [.., last] => number < u64::from(*last),
            },
        }
    }

    /// Whether there is room for one statement more.
    fn has_room(&self, statement: Statement) -> bool
        ensures value { result ≡ nat_le (size (with_said self.now (Some statement))) most_statements }
    {
        match statement {
            Statement::Nothing => true,
            _ => self.events.len() + self.failing.len() < MOST_STATEMENTS,
        }
    }
}

/// Whether a statement's number and value are in range.
fn is_in_range(statement: Statement) -> bool
    ensures value { result ≡ is_in_range statement }
{
    match statement {
        Statement::Nothing => true,
        Statement::At { number, input } => number <= u64::from(u32::MAX)
            && is_input_in_range(input),
        Statement::FailFlash { number } => 1 <= number && number <= u64::from(u32::MAX),
    }
}

/// Whether an input's value is in range.
fn is_input_in_range(input: Input) -> bool
    ensures value { result ≡ is_input_in_range input }
{
    match input {
        Input::Adc(value) => value <= MOST_ADC,
        _ => true,
    }
}

/// Reads a script. Lines are cut at LF, and one CR at a line's end is dropped.
///
/// # Errors
///
/// `Bad` names the first faulty line, counted from 1 over all lines, and its first fault.
pub fn read(alloc: Global, text: &[u8]) -> Result<Script, ScriptError>
    requires { length text.now ≤ 2097152 }
    ensures ok { IfOk result (IsScript text.now) }
    ensures bad { (line : ℕ) → (fault : ScriptFault) → result ≡ Err (ScriptError.Bad line fault)
        → script_fault text.now ≡ Some (line, fault) }
    // The text of a script is read as what it schedules, unless memory runs out.
    ensures accepted { (schedule : Schedule) → IsScript text.now schedule → (result ≡ Ok schedule) ⊎ (result ≡ Err ScriptError.NoMemory) }
    // A faulty text is refused with its fault, unless memory runs out.
    ensures refused { (line : ℕ) → (fault : ScriptFault) → script_fault text.now ≡ Some (line, fault)
        → (result ≡ Err (ScriptError.Bad line fault)) ⊎ (result ≡ Err ScriptError.NoMemory) }
    // Memory is wanted only for an event or a fail line, of lines without a fault so far.
    ensures memory { result ≡ Err ScriptError.NoMemory → NeedsMemory text.now }
{
    let mut script = Script {
        events: Vec::new(alloc),
        failing: Vec::new(alloc),
    };
    let mut rest = text;
    let mut line = 0;
    while !rest.is_empty() {
        let (front, after) = first_line(rest);
        line += 1;
        script.take_line(front, line)?;
        rest = after;
    }
    Ok(script)
}
