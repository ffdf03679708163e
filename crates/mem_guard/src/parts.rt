//! Each access to the program's memory, by the part of the mote that keeps the byte.

ghost use Rattle.std.specs.Prelude.{◌≡◌, ◌≤◌, false, OnErr};
ghost use Rattle.avr_exec.specs.Registers.{is_own};
ghost use Rattle.avr_exec.specs.Spaces.{outcome_of};
ghost use Rattle.mem_guard.specs.Guarded.{load, store, modify, push, pop, push_return, pop_return};
ghost use Rattle.mem_guard.specs.Bus.{guarded_of, lent_of};
ghost use Rattle.mem_guard.specs.Readiness.{IsReady};

use crate::virtual_bus::VirtualBus;
use avr_exec::BusStop;
use flat_machine::{AddrClass, class, is_stack};

impl VirtualBus<'_> {
    /// The byte at a data address.
    #[tactic(auto, unfolding(crate::specs::Guarded::load, flat_machine::specs::Classes::class_of))]
    #[inline(always)]
    pub(crate) fn load_byte(&mut self, a: u16) -> Result<u8, BusStop>
        requires ready { IsReady (guarded_of self.old) }
        requires outside { is_own a ≡ false }
        ensures answer { outcome_of result (guarded_of self.new) ≡ load (guarded_of self.old) a }
        ensures stop { OnErr result (guarded_of self.new ≡ guarded_of self.old) }
        ensures lent { lent_of self.new ≡ lent_of self.old }
    {
        match class(a) {
            AddrClass::Stack => Ok(self.sram.byte(a)),
            AddrClass::Heap => Ok(heap_frames::load(self.sram, self.swap, a)),
            _ => match self.devices.read(a) {
                Ok(value) => Ok(value),
                Err(stop) => Err(BusStop::Io(stop.address)),
            },
        }
    }

    /// A byte for a data address.
    #[tactic(auto, unfolding(crate::specs::Guarded::store, flat_machine::specs::Classes::class_of))]
    #[inline(always)]
    pub(crate) fn store_byte(&mut self, a: u16, v: u8) -> Result<(), BusStop>
        requires ready { IsReady (guarded_of self.old) }
        requires outside { is_own a ≡ false }
        ensures answer { outcome_of result (guarded_of self.new) ≡ store (guarded_of self.old) a v }
        ensures stop { OnErr result (guarded_of self.new ≡ guarded_of self.old) }
        ensures lent { lent_of self.new ≡ lent_of self.old }
    {
        match class(a) {
            AddrClass::Stack => {
                self.sram.set(a, v);
                Ok(())
            }
            AddrClass::Heap => match heap_frames::store(self.sram, self.swap, a, v) {
                Ok(()) => Ok(()),
                Err(full) => Err(BusStop::SwapFull(full.address)),
            },
            _ => match self.devices.write(a, v) {
                Ok(line) => {
                    self.line = line;
                    Ok(())
                }
                Err(stop) => Err(BusStop::Io(stop.address)),
            },
        }
    }

    /// A read and a write in one, of a register of the devices.
    #[tactic(auto, unfolding(crate::specs::Guarded::modify))]
    pub(crate) fn modify_register(&mut self, a: u16, clear: u8, set: u8) -> Result<(), BusStop>
        requires ready { IsReady (guarded_of self.old) }
        requires outside { is_own a ≡ false }
        requires register { (0x20 ≤ a) × (a ≤ 0xFF) }
        ensures answer { outcome_of result (guarded_of self.new) ≡ modify (guarded_of self.old) a clear set }
        ensures stop { OnErr result (guarded_of self.new ≡ guarded_of self.old) }
        ensures lent { lent_of self.new ≡ lent_of self.old }
    {
        match self.devices.modify(a, clear, set) {
            Ok(line) => {
                self.line = line;
                Ok(())
            }
            Err(stop) => Err(BusStop::Io(stop.address)),
        }
    }

    /// A byte pushed at `sp`.
    #[tactic(auto, unfolding(crate::specs::Guarded::push, avr_exec::specs::StackRules::push_on))]
    pub(crate) fn push_byte(&mut self, sp: u16, v: u8) -> Result<(), BusStop>
        ensures answer { outcome_of result (guarded_of self.new) ≡ push (guarded_of self.old) sp v }
        ensures stop { OnErr result (guarded_of self.new ≡ guarded_of self.old) }
        ensures lent { lent_of self.new ≡ lent_of self.old }
    {
        if !is_stack(sp) {
            return Err(BusStop::Stack(sp));
        }
        self.sram.set(sp, v);
        Ok(())
    }

    /// The byte above `sp`.
    #[tactic(auto, unfolding(crate::specs::Guarded::pop, avr_exec::specs::StackRules::pop_from))]
    pub(crate) fn pop_byte(&mut self, sp: u16) -> Result<u8, BusStop>
        ensures answer { outcome_of result (guarded_of self.new) ≡ pop (guarded_of self.old) sp }
        ensures stop { OnErr result (guarded_of self.new ≡ guarded_of self.old) }
        ensures lent { lent_of self.new ≡ lent_of self.old }
    {
        let a = sp.wrapping_add(1);
        if !is_stack(a) {
            return Err(BusStop::Stack(a));
        }
        Ok(self.sram.byte(a))
    }

    /// A return address pushed: its low byte at `sp`, then its high byte below.
    #[tactic(auto, unfolding(crate::specs::Guarded::push_return, avr_exec::specs::StackRules::push_return_on))]
    pub(crate) fn push_return(&mut self, sp: u16, ret: u16) -> Result<(), BusStop>
        ensures answer { outcome_of result (guarded_of self.new) ≡ push_return (guarded_of self.old) sp ret }
        ensures stop { OnErr result (guarded_of self.new ≡ guarded_of self.old) }
        ensures lent { lent_of self.new ≡ lent_of self.old }
    {
        let below = sp.wrapping_sub(1);
        if !is_stack(sp) {
            return Err(BusStop::Stack(sp));
        }
        if !is_stack(below) {
            return Err(BusStop::Stack(below));
        }
        self.sram.set(sp, (ret & 0xFF) as u8);
        self.sram.set(below, (ret >> 8) as u8);
        Ok(())
    }

    /// A return address popped: its high byte from `sp + 1`, then its low byte from `sp + 2`.
    #[tactic(auto, unfolding(crate::specs::Guarded::pop_return, avr_exec::specs::StackRules::pop_return_from))]
    pub(crate) fn pop_return(&mut self, sp: u16) -> Result<u16, BusStop>
        ensures answer { outcome_of result (guarded_of self.new) ≡ pop_return (guarded_of self.old) sp }
        ensures stop { OnErr result (guarded_of self.new ≡ guarded_of self.old) }
        ensures lent { lent_of self.new ≡ lent_of self.old }
    {
        let high = sp.wrapping_add(1);
        let low = sp.wrapping_add(2);
        if !is_stack(high) {
            return Err(BusStop::Stack(high));
        }
        if !is_stack(low) {
            return Err(BusStop::Stack(low));
        }
        Ok(u16::from(self.sram.byte(high)) * 256 + u16::from(self.sram.byte(low)))
    }
}
