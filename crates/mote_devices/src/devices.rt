//! The devices, as a program reaches them.

use crate::inputs::Inputs;
use crate::line::{Line, Port};
use crate::register::{DIRECTIONS, OUTPUTS, is_polled, line_at};
use avr_isa::{EIMSK, IoRegister, RAMPZ, io_access, io_row};
use input_script::Script;
use std::marker::Model;

/// UCSR0A: a byte was received.
const RECEIVED: u8 = 0x80;

/// UCSR0A: a byte can be sent.
const CAN_SEND: u8 = 0x20;

/// ADCSRA: a conversion is running.
const CONVERTING: u8 = 0x40;

/// ADCSRA: a conversion is complete.
const CONVERTED: u8 = 0x10;

/// A program may not access the I/O register at this data address in this direction. Nothing was changed.
#[derive(Clone, Copy, PartialEq, Eq)]
pub struct IoStop {
    pub address: u16,
}

/// The devices of the mote, with the script of their inputs.
#[derive(Drop)]
pub struct Devices {
    /// The bytes of the registers that store, by data address.
    registers: [u8; 256],
    inputs: Inputs,
    polls: u64,
}

impl Model for Devices {
    ghost use Rattle.mote_devices.specs.State.{State};

    ghost Value = { State };

    ghost view = { λ d. record { registers = d.registers; received = d.inputs; polls = d.polls } };
}

impl Devices {
    ghost use Rattle.std.specs.Prelude.{◌≡◌, ◌<◌, ◌^◌, false, length, OnErr, IfErr};
    ghost use Rattle.mote_devices.specs.Inputs.{is_empty};
    ghost use Rattle.mote_devices.specs.State.{State, at_reset, stored, with_stored, polled, rampz_address, mask_address, register_count};
    ghost use Rattle.std.specs.Int.{bit_at};
    ghost use Rattle.mote_devices.specs.Waking.{enabled as enabled_of, with_taken, woken, IsWake, Timely};
    ghost use Rattle.mote_devices.specs.Accesses.{is_core_register, Gave, device_answer, read as read_of, read_from, write as write_of, modify as modify_of, value_of, after_value, line_written, after_write, serial_status as serial_status_of};

    /// The devices at reset.
    #[tactic(auto, unfolding(base::specs::Lists::many))]
    pub fn new(script: Script) -> Devices
        ensures value { result ≡ at_reset script.events }
    {
        Devices {
            registers: [0; 256],
            inputs: Inputs::new(script),
            polls: 0,
        }
    }

    /// How many polls were made: reads of the inputs' registers.
    pub fn polls(&self) -> u64
        ensures value { result ≡ self.now.polls }
        ensures timely { Timely self.now }
    {
        self.inputs.keeps_timely();
        self.polls
    }

    /// The register RAMPZ. This is no poll.
    pub fn rampz(&self) -> u8
        ensures value { result ≡ stored self.now rampz_address }
    {
        self.registers[RAMPZ as usize]
    }

    /// Writes the register RAMPZ.
    pub fn set_rampz(&mut self, v: u8)
        ensures after { self.new ≡ with_stored self.old rampz_address v }
    {
        self.registers[RAMPZ as usize] = v;
    }

    /// The external interrupts that are pending and enabled, INTk in bit k. This is no poll.
    pub fn enabled(&self) -> u8
        ensures value { result ≡ enabled_of self.now }
    {
        self.inputs.pending() & self.registers[EIMSK as usize]
    }

    /// The external interrupts that are pending, enabled or not, INTk in bit k. This is no poll.
    pub fn pending(&self) -> u8
        ensures value { result ≡ self.now.received.pending }
    {
        self.inputs.pending()
    }

    /// The register EIMSK, whose bit k enables INTk. This is no poll.
    pub fn mask(&self) -> u8
        ensures value { result ≡ stored self.now mask_address }
    {
        self.registers[EIMSK as usize]
    }

    /// How many events of the script are to come.
    pub fn coming(&self) -> usize
        ensures value { result ≡ length self.now.received.coming }
    {
        self.inputs.coming()
    }

    /// Takes an interrupt that is pending and enabled: it is no longer pending.
    pub fn take(&mut self, k: u8)
        requires number { k < 8 }
        requires enabled { bit_at (enabled_of self.old) k ≡ 1 }
        ensures taken { self.new ≡ with_taken self.old k }
    {
        self.inputs.clear(k);
    }

    /// Sleeps until an interrupt is enabled: events take effect, in order, until one is. Answers false where none will
    /// be, and then nothing has changed.
    pub fn sleep(&mut self) -> bool
        ensures woken { (result, self.new) ≡ woken self.old }
        ensures wake { IsWake self.old }
    {
        if self.enabled() != 0 {
            return true;
        }
        match self.inputs.next_call(self.registers[EIMSK as usize]) {
            None => false,
            Some(at) => {
                self.polls = self.polls.max(at);
                self.inputs.take_due(self.polls);
                true
            }
        }
    }

    /// Reads the register at a data address. A read of an input is a poll: the inputs that are due at it
    /// come before the value.
    ///
    /// # Errors
    ///
    /// `IoStop` where a program may not read the register.
    #[tactic(auto, using(crate::proofs::AccessLaws::can_read_below), unfolding(crate::specs::Accesses::read))]
    #[inline(never)]
    pub fn read(&mut self, a: u16) -> Result<u8, IoStop>
        requires outside { is_core_register a ≡ false }
        requires room { self.old.polls < 2 ^ 63 }
        ensures answer { device_answer result self.new ≡ read_of self.old a }
        ensures address { IfErr result (λ stop. stop.address ≡ a) }
        ensures refused { OnErr result (self.new ≡ self.old) }
    {
        let (access, register) = io_row(a);
        if access.read {
            Ok(self.read_register(register, a))
        } else {
            Err(IoStop { address: a })
        }
    }

    /// Writes the register at a data address, and says what this shows outside.
    ///
    /// # Errors
    ///
    /// `IoStop` where a program may not write the register.
    #[tactic(auto, using(crate::proofs::AccessLaws::can_write_below), unfolding(crate::specs::Accesses::write))]
    #[inline(never)]
    pub fn write(&mut self, a: u16, v: u8) -> Result<Option<Line>, IoStop>
        requires outside { is_core_register a ≡ false }
        ensures answer { device_answer result self.new ≡ write_of self.old a v }
        ensures address { IfErr result (λ stop. stop.address ≡ a) }
        ensures refused { OnErr result (self.new ≡ self.old) }
    {
        let (access, register) = io_row(a);
        if access.write {
            Ok(self.write_register(register, a, v))
        } else {
            Err(IoStop { address: a })
        }
    }

    /// One read of the whole register at a data address, and one write of what was read with the bits of
    /// `clear` cleared and those of `set` set.
    ///
    /// # Errors
    ///
    /// `IoStop` where a program may not both read and write the register.
    #[tactic(auto, unfolding(crate::specs::Accesses::modify, crate::specs::Accesses::write))]
    #[inline(never)]
    pub fn modify(&mut self, a: u16, clear: u8, set: u8) -> Result<Option<Line>, IoStop>
        requires outside { is_core_register a ≡ false }
        requires room { self.old.polls < 2 ^ 63 }
        ensures answer { device_answer result self.new ≡ modify_of self.old a clear set }
        ensures address { IfErr result (λ stop. stop.address ≡ a) }
        ensures refused { OnErr result (self.new ≡ self.old) }
    {
        if !io_access(a).write {
            return Err(IoStop { address: a });
        }
        let value = self.read(a)?;
        self.write(a, value & !clear | set)
    }

    /// One more poll: the inputs that are due at it take effect.
    fn poll(&mut self)
        requires room { self.old.polls < 2 ^ 63 }
        ensures value { self.new ≡ polled self.old }
    {
        self.polls += 1;
        self.inputs.take_due(self.polls);
    }

    /// The value of a register that a program may read.
    fn read_register(&mut self, register: IoRegister, a: u16) -> u8
        requires within { a < register_count }
        requires room { self.old.polls < 2 ^ 63 }
        ensures answer { Gave result self.new ≡ read_from self.old register a }
    {
        if is_polled(register) {
            self.poll();
        }
        self.value(register, a)
    }

    /// The value of a register after its poll, and what the read takes.
    fn value(&mut self, register: IoRegister, a: u16) -> u8
        requires within { a < register_count }
        ensures value { result ≡ value_of register self.old a }
        ensures taken { self.new ≡ after_value register self.old }
    {
        match register {
            IoRegister::Stored | IoRegister::Direction(_) | IoRegister::Output(_) => {
                self.registers[a as usize]
            }
            IoRegister::Pins(port) => self.inputs.pin(port),
            IoRegister::SerialStatus => self.serial_status(),
            IoRegister::SerialData => self.inputs.take_byte(),
            IoRegister::ConverterLow => (self.inputs.converter() & 0xFF) as u8,
            IoRegister::ConverterHigh => (self.inputs.converter() >> 8 & 3) as u8,
            IoRegister::ConverterControl => self.registers[a as usize] & !CONVERTING | CONVERTED,
            IoRegister::Timer => (self.polls & 0xFF) as u8,
        }
    }

    /// UCSR0A: a byte can always be sent.
    fn serial_status(&mut self) -> u8
        ensures value { result ≡ serial_status_of (is_empty self.old.received.queue) }
        ensures same { self.new ≡ self.old }
    {
        if self.inputs.is_waiting() {
            RECEIVED | CAN_SEND
        } else {
            CAN_SEND
        }
    }

    /// Writes a register that a program may write.
    fn write_register(&mut self, register: IoRegister, a: u16, v: u8) -> Option<Line>
        requires within { a < register_count }
        ensures line { result ≡ line_written register v }
        ensures after { self.new ≡ after_write register self.old a v }
    {
        match register {
            IoRegister::SerialStatus | IoRegister::Timer => None,
            IoRegister::SerialData => Some(Line {
                port: Port::Uart0,
                value: v,
            }),
            IoRegister::Direction(port) => {
                self.registers[a as usize] = v;
                line_at(&DIRECTIONS, port, v)
            }
            IoRegister::Output(port) => {
                self.registers[a as usize] = v;
                line_at(&OUTPUTS, port, v)
            }
            _ => {
                self.registers[a as usize] = v;
                None
            }
        }
    }
}
