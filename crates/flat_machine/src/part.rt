//! The words of the image that are a program's own.

ghost use Rattle.std.specs.Prelude.{◌≡◌};
ghost use Rattle.avr_exec.specs.Asks.{ask_of};
ghost use Rattle.mote_devices.specs.State.{stored, rampz_address};
ghost use Rattle.flat_machine.specs.FlatMachine.{is_own, word_asked as word_asked_by, if_foreign};

use avr_exec::{Ask, Cpu, asks};
use avr_isa::Instr;
use mote_devices::Devices;

/// A program's own words: so many from the first on. Outside them its run ends.
#[derive(Clone, Copy)]
pub struct Part {
    /// The word address where the program begins.
    pub first: u16,
    /// How many words there are.
    pub count: u16,
    /// Whether LPM and ELPM of a word outside stop the program.
    pub shut: bool,
}

impl Part {
    /// Whether the word address is one of them.
    pub fn owns(&self, a: u16) -> bool
        ensures value { result ≡ is_own self.now a }
    {
        self.first <= a && a - self.first < self.count
    }
}

/// The word address that the instruction would read of the program, where the program may not.
pub fn foreign_word(part: &Part, devices: &Devices, instr: &Instr, cpu: &Cpu) -> Option<u16>
    ensures value { result ≡ if_foreign part.now (word_asked_by (stored devices.now rampz_address) (ask_of instr.now cpu.now)) }
{
    match word_asked(devices.rampz(), asks(instr, cpu)) {
        None => None,
        Some(word) => {
            if part.shut && !part.owns(word) {
                Some(word)
            } else {
                None
            }
        }
    }
}

/// The word address of the byte that LPM or ELPM reads.
fn word_asked(rampz: u8, ask: Ask) -> Option<u16>
    ensures value { result ≡ word_asked_by rampz ask }
{
    match ask {
        Ask::Program(z) => Some(z / 2),
        Ask::ExtendedProgram(z) | Ask::ExtendedProgramRaising(z) => {
            Some(u16::from(rampz % 2) * 0x8000 + z / 2)
        }
        _ => None,
    }
}
