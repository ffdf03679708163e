//! The physical data space, and the program in flash.

ghost use Rattle.std.specs.Prelude.{◌≡◌};
ghost use Rattle.mote_core.specs.Physical.{half_of};

use avr_exec::{Bus, BusStop};
use flash_model::Flash;
use mote_devices::{Devices, IoStop, Line};
use sram_layout::Sram;

/// What an instruction reaches of the mote.
#[derive(Drop)]
pub(crate) struct PhysicalSpace<'a> {
    pub(crate) sram: &'a mut Sram,
    pub(crate) devices: &'a mut Devices,
    pub(crate) flash: &'a Flash,
    /// What the last write of a device showed outside.
    pub(crate) line: Option<Line>,
}

impl Bus for PhysicalSpace<'_> {
    ghost use Rattle.std.specs.Prelude.{◌<◌, ◌^◌};
    ghost use Rattle.std.specs.Borrow.{GName};
    ghost use Rattle.flash_words.specs.Memory.{Memory};
    ghost use Rattle.mote_core.specs.Physical.{Physical, physical_calls};

    ghost Space = { Physical };

    ghost space = { λ b. record { sram = b.sram.now; devices = b.devices.now; words = b.flash.now.words; line = b.line } };

    ghost calls = { physical_calls };

    ghost Lent = { GName × GName × Memory };

    ghost lent = { λ b. (b.sram.ghost_name, b.devices.ghost_name, b.flash.now) };

    ghost ready = { λ b. b.devices.now.polls < 2 ^ 63 };

    #[inline(always)]
    fn load(&mut self, a: u16) -> Result<u8, BusStop> {
        if Sram::has(a) {
            Ok(self.sram.byte(a))
        } else {
            self.devices.read(a).map_err(stop_of)
        }
    }

    #[inline(always)]
    fn store(&mut self, a: u16, v: u8) -> Result<(), BusStop> {
        if Sram::has(a) {
            self.sram.set(a, v);
        } else {
            self.line = self.devices.write(a, v).map_err(stop_of)?;
        }
        Ok(())
    }

    fn modify(&mut self, a: u16, clear: u8, set: u8) -> Result<(), BusStop> {
        self.line = self.devices.modify(a, clear, set).map_err(stop_of)?;
        Ok(())
    }

    #[tactic(auto, unfolding(avr_exec::specs::StackRules::push_on))]
    #[inline(always)]
    fn push(&mut self, sp: u16, v: u8) -> Result<(), BusStop> {
        if !Sram::has(sp) {
            return Err(BusStop::Io(sp));
        }
        self.sram.set(sp, v);
        Ok(())
    }

    #[tactic(auto, unfolding(avr_exec::specs::StackRules::pop_from))]
    #[inline(always)]
    fn pop(&mut self, sp: u16) -> Result<u8, BusStop> {
        let a = sp.wrapping_add(1);
        if !Sram::has(a) {
            return Err(BusStop::Io(a));
        }
        Ok(self.sram.byte(a))
    }

    #[tactic(auto, unfolding(avr_exec::specs::StackRules::push_return_on))]
    #[inline(always)]
    fn push_ret(&mut self, sp: u16, ret: u16) -> Result<(), BusStop> {
        let below = sp.wrapping_sub(1);
        if !Sram::has(sp) {
            return Err(BusStop::Io(sp));
        }
        if !Sram::has(below) {
            return Err(BusStop::Io(below));
        }
        self.sram.set_return(sp, ret);
        Ok(())
    }

    #[tactic(auto, unfolding(avr_exec::specs::StackRules::pop_return_from))]
    #[inline(always)]
    fn pop_ret(&mut self, sp: u16) -> Result<u16, BusStop> {
        let high = sp.wrapping_add(1);
        let low = sp.wrapping_add(2);
        if !Sram::has(high) {
            return Err(BusStop::Io(high));
        }
        if !Sram::has(low) {
            return Err(BusStop::Io(low));
        }
        Ok(u16::from(self.sram.byte(high)) * 256 + u16::from(self.sram.byte(low)))
    }

    fn rampz(&self) -> u8 {
        self.devices.rampz()
    }

    fn set_rampz(&mut self, v: u8) {
        self.devices.set_rampz(v);
    }

    fn flash_byte(&self, a: u32) -> u8 {
        let word = self.flash.word((a / 2 % 0x1_0000) as u16);
        byte_of(word, a % 2 == 1)
    }
}

/// The high or the low byte of a word.
fn byte_of(word: u16, high: bool) -> u8
    ensures value { result ≡ half_of word high }
{
    if high {
        (word >> 8) as u8
    } else {
        (word & 0xFF) as u8
    }
}

/// An access that the devices refused, as a stop of the bus.
fn stop_of(stop: IoStop) -> BusStop
    ensures value { result ≡ BusStop.Io stop.address }
{
    BusStop::Io(stop.address)
}
