//! The inputs of a script, as the devices receive them.

ghost use Rattle.std.specs.Prelude.{◌≡◌, ◌<◌, ◌≤◌, ◌^◌, [], length, drop, MatchOption};
ghost use Rattle.mote_devices.specs.Queue.{bytes_between, IsNextByte};
ghost use Rattle.mote_devices.specs.Waking.{without, calls as calls_of, first_call as first_call_of, Rising};

use input_script::{Event, Input, Script};
use std::marker::Model;

/// How many ports have pins.
const PORTS: u8 = 4;

/// What the devices have received. The serial port's queue is kept as indices into the script: the bytes of
/// the events taken, from index `serial` on.
#[derive(Drop)]
pub(crate) struct Inputs {
    pins: [u8; PORTS as usize],
    converter: u16,
    /// Bit k: INTk is pending.
    pending: u8,
    script: Script,
    /// How many events have taken effect.
    taken: usize,
    /// The events before this index are no longer in the serial port's queue.
    serial: usize,
}

impl Model for Inputs {
    ghost use Rattle.std.specs.Prelude.{drop};
    ghost use Rattle.mote_devices.specs.Inputs.{Received};
    ghost use Rattle.mote_devices.specs.Queue.{bytes_between, IsKept};

    ghost Value = { Received };

    ghost view = { λ a. record { pins = a.pins; converter = a.converter; queue = bytes_between a.script.events a.serial a.taken; pending = a.pending; coming = drop a.taken a.script.events } };

    ghost invariant = { λ a. IsKept a.pins a.script.events a.taken a.serial };
}

impl Inputs {
    ghost use Rattle.std.specs.Prelude.{◌≡◌, ◌<◌, ◌≤◌, All, length, false, not, drop, slice_index};
    ghost use Rattle.input_script.specs.declared.input.Event.{Event};
    ghost use Rattle.mote_devices.specs.Inputs.{unreceived, at_poll, first_byte, is_empty};
    ghost use Rattle.mote_devices.specs.Queue.{first_is_due, with_first};

    /// Nothing was received, and all events are to come.
    pub(crate) fn new(script: Script) -> Inputs
        ensures value { result ≡ unreceived script.events }
    {
        Inputs {
            pins: [0; PORTS as usize],
            converter: 0,
            pending: 0,
            script,
            taken: 0,
            serial: 0,
        }
    }

    /// The pins of a port, 0 to 3 for ports A to D; no other port has any.
    pub(crate) fn pin(&self, port: u8) -> u8
        ensures value { result ≡ slice_index self.now.pins port }
    {
        if port < PORTS {
            self.pins[port as usize]
        } else {
            0
        }
    }

    /// The converter's result.
    pub(crate) fn converter(&self) -> u16
        ensures value { result ≡ self.now.converter }
    {
        self.converter
    }

    /// All events with a number of at most `poll` take effect.
    pub(crate) fn take_due(&mut self, poll: u64)
        ensures value { self.new ≡ at_poll poll self.old }
    {
        while self.is_due(poll) {
            self.take_next();
        }
    }

    /// Whether the next event has a number of at most `poll`.
    fn is_due(&self, poll: u64) -> bool
        ensures value { result ≡ first_is_due poll self.now.coming }
        ensures none { result ≡ false → at_poll poll self.now ≡ self.now }
    {
        let events = self.script.events();
        self.taken < events.len() && u64::from(events[self.taken].at) <= poll
    }

    /// The next event takes effect.
    fn take_next(&mut self)
        requires some { 0 < length self.old.coming }
        ensures value { self.new ≡ with_first self.old }
    {
        let event = self.script.events()[self.taken];
        self.taken += 1;
        match event.input {
            Input::Pin(port, value) => {
                if port < PORTS {
                    self.pins[port as usize] = value;
                }
            }
            Input::Uart(_) => {}
            Input::Adc(value) => self.converter = value,
            Input::Int(k) => {
                if k < 8 {
                    self.pending |= bit(k);
                }
            }
        }
    }

    /// The external interrupts that are pending, INTk in bit k.
    pub(crate) fn pending(&self) -> u8
        ensures value { result ≡ self.now.pending }
    {
        self.pending
    }

    /// How many events are to come.
    pub(crate) fn coming(&self) -> usize
        ensures value { result ≡ length self.now.coming }
    {
        self.script.events().len() - self.taken
    }

    /// INTk is no longer pending.
    pub(crate) fn clear(&mut self, k: u8)
        requires number { k < 8 }
        ensures cleared { self.new ≡ record self.old { pending = without self.old.pending k } }
    {
        self.pending &= 255 - bit(k);
    }

    /// The numbers of the events to come fit 32 bits, as a script keeps it.
    pub(crate) fn keeps_timely(&self)
        ensures timely { All (λ (event : Event). event.at ≤ 4294967295) self.now.coming }
    {
        let _ = self.script.events();
    }

    /// The number of the first event to come that brings an interrupt of `mask`, if one does.
    pub(crate) fn next_call(&self, mask: u8) -> Option<u64>
        ensures first { result ≡ first_call_of mask self.now.coming }
        ensures rising { Rising 0 self.now.coming }
    {
        first_call(self.script.events(), self.taken, mask)
    }

    /// Whether the serial port's queue holds a byte.
    pub(crate) fn is_waiting(&mut self) -> bool
        ensures value { result ≡ not (is_empty self.old.queue) }
        ensures same { self.new ≡ self.old }
    {
        match next_byte(self.script.events(), self.serial, self.taken) {
            Some(waiting) => {
                self.serial = waiting.index;
                true
            }
            None => {
                self.serial = self.taken;
                false
            }
        }
    }

    /// Takes the first byte of the serial port's queue, 0 where it is empty.
    pub(crate) fn take_byte(&mut self) -> u8
        ensures value { result ≡ first_byte self.old.queue }
        ensures taken { self.new ≡ record self.old { queue = drop 1 self.old.queue } }
    {
        match next_byte(self.script.events(), self.serial, self.taken) {
            Some(waiting) => {
                self.serial = waiting.index + 1;
                waiting.byte
            }
            None => {
                self.serial = self.taken;
                0
            }
        }
    }
}

/// A byte with this bit alone.
fn bit(k: u8) -> u8
    requires number { k < 8 }
    ensures value { result ≡ 2 ^ k }
{
    1 << k
}

/// The number of the first event from index `from` on that brings an interrupt of `mask`.
fn first_call(events: &[Event], from: usize, mask: u8) -> Option<u64>
    requires within { from ≤ length events.now }
    ensures first { result ≡ first_call_of mask (drop from events.now) }
{
    for index in from..events.len() {
        if calls(events[index].input, mask) {
            return Some(u64::from(events[index].at));
        }
    }
    None
}

/// Whether an input brings an interrupt of `mask`.
fn calls(input: Input, mask: u8) -> bool
    ensures value { result ≡ calls_of mask input }
{
    match input {
        Input::Int(k) => k < 8 && mask >> k & 1 == 1,
        _ => false,
    }
}

/// A byte of the serial port's queue.
#[derive(Clone, Copy)]
pub(crate) struct Waiting {
    /// The index of the event that brought it.
    index: usize,
    byte: u8,
}

/// The first serial byte among the events from index `from` to before `to`.
fn next_byte(events: &[Event], from: usize, to: usize) -> Option<Waiting>
    requires order { from ≤ to }
    requires within { to ≤ length events.now }
    ensures cases { MatchOption result (bytes_between events.now from to ≡ []) (IsNextByte events.now from to) }
{
    for index in from..to {
        if let Input::Uart(byte) = events[index].input {
            return Some(Waiting { index, byte });
        }
    }
    None
}
