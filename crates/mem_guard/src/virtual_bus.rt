//! The program's memory over the mote's own parts, as a bus.

use crate::image::byte_in_image;
use avr_exec::{Bus, BusStop};
use flash_model::{Flash, Layout};
use mote_devices::{Devices, Line};
use sram_layout::Sram;
use swap_store::Swap;

/// What a program's instruction reaches: the flat memory that it believes in, kept in the mote's own
/// parts. The stack window is SRAM at the same addresses, and the heap lies in frames and swap slots.
#[derive(Drop)]
pub struct VirtualBus<'a> {
    pub sram: &'a mut Sram,
    pub swap: &'a mut Swap,
    pub devices: &'a mut Devices,
    pub flash: &'a Flash,
    /// How many of flash's words are the program's.
    pub layout: &'a Layout,
    /// What the last write of a device showed outside.
    pub line: Option<Line>,
}

impl Bus for VirtualBus<'_> {
    ghost use Rattle.std.specs.Prelude.{◌≡◌, ◌≤◌, false, OnOk, OnErr};
    ghost use Rattle.avr_exec.specs.Registers.{is_own};
    ghost use Rattle.avr_exec.specs.Spaces.{outcome_of};
    ghost use Rattle.flat_machine.specs.FlatSpace.{flat_calls};
    ghost use Rattle.mem_guard.specs.Guarded.{Guarded, guarded_calls, load as load_of, store as store_of, modify as modify_of, push as push_of, pop as pop_of, push_return as push_return_of, pop_return as pop_return_of};
    ghost use Rattle.mem_guard.specs.Bus.{guarded_of, seen_of, Lent, lent_of};
    ghost use Rattle.mem_guard.specs.Left.{IsKept, HeapAfter};
    ghost use Rattle.mem_guard.specs.Readiness.{IsReady};
    ghost use Rattle.avr_exec.specs.declared.ask.Ask.TheVariants.{Load as LoadAsk, Store as StoreAsk, Modify, PushByte, PopByte, PushReturn, PopReturn};

    ghost Space = { Guarded };

    ghost space = { guarded_of };

    ghost calls = { guarded_calls };

    ghost Lent = { Lent };

    ghost lent = { lent_of };

    ghost ready = { λ b. IsReady (guarded_of b) };

    #[inline(always)]
    fn load(&mut self, a: u16) -> Result<u8, BusStop>
        requires ready { IsReady (guarded_of self.old) }
        requires outside { is_own a ≡ false }
        ensures answer { outcome_of result (guarded_of self.new) ≡ load_of (guarded_of self.old) a }
        ensures stop { OnErr result (guarded_of self.new ≡ guarded_of self.old) }
        ensures lent { lent_of self.new ≡ lent_of self.old }
        ensures flat { outcome_of result (seen_of self.new) ≡ flat_calls.load (seen_of self.old) a }
        ensures kept { IsKept (guarded_of self.old) (guarded_of self.new) }
        ensures heap { OnOk result (HeapAfter (guarded_of self.old) (LoadAsk a) (guarded_of self.new)) }
    {
        self.load_byte(a)
    }

    #[inline(always)]
    fn store(&mut self, a: u16, v: u8) -> Result<(), BusStop>
        requires ready { IsReady (guarded_of self.old) }
        requires outside { is_own a ≡ false }
        ensures answer { outcome_of result (guarded_of self.new) ≡ store_of (guarded_of self.old) a v }
        ensures stop { OnErr result (guarded_of self.new ≡ guarded_of self.old) }
        ensures lent { lent_of self.new ≡ lent_of self.old }
        ensures flat { outcome_of result (seen_of self.new) ≡ flat_calls.store (seen_of self.old) a v }
        ensures kept { IsKept (guarded_of self.old) (guarded_of self.new) }
        ensures heap { OnOk result (HeapAfter (guarded_of self.old) (StoreAsk a v) (guarded_of self.new)) }
    {
        self.store_byte(a, v)
    }

    fn modify(&mut self, a: u16, clear: u8, set: u8) -> Result<(), BusStop>
        requires ready { IsReady (guarded_of self.old) }
        requires outside { is_own a ≡ false }
        requires register { (0x20 ≤ a) × (a ≤ 0xFF) }
        ensures answer { outcome_of result (guarded_of self.new) ≡ modify_of (guarded_of self.old) a clear set }
        ensures stop { OnErr result (guarded_of self.new ≡ guarded_of self.old) }
        ensures lent { lent_of self.new ≡ lent_of self.old }
        ensures flat { outcome_of result (seen_of self.new) ≡ flat_calls.modify (seen_of self.old) a clear set }
        ensures kept { IsKept (guarded_of self.old) (guarded_of self.new) }
        ensures heap { OnOk result (HeapAfter (guarded_of self.old) (Modify a clear set) (guarded_of self.new)) }
    {
        self.modify_register(a, clear, set)
    }

    fn push(&mut self, sp: u16, v: u8) -> Result<(), BusStop>
        requires ready { IsReady (guarded_of self.old) }
        ensures answer { outcome_of result (guarded_of self.new) ≡ push_of (guarded_of self.old) sp v }
        ensures stop { OnErr result (guarded_of self.new ≡ guarded_of self.old) }
        ensures lent { lent_of self.new ≡ lent_of self.old }
        ensures flat { outcome_of result (seen_of self.new) ≡ flat_calls.push (seen_of self.old) sp v }
        ensures kept { IsKept (guarded_of self.old) (guarded_of self.new) }
        ensures heap { OnOk result (HeapAfter (guarded_of self.old) (PushByte sp v) (guarded_of self.new)) }
    {
        self.push_byte(sp, v)
    }

    fn pop(&mut self, sp: u16) -> Result<u8, BusStop>
        requires ready { IsReady (guarded_of self.old) }
        ensures answer { outcome_of result (guarded_of self.new) ≡ pop_of (guarded_of self.old) sp }
        ensures stop { OnErr result (guarded_of self.new ≡ guarded_of self.old) }
        ensures lent { lent_of self.new ≡ lent_of self.old }
        ensures flat { outcome_of result (seen_of self.new) ≡ flat_calls.pop (seen_of self.old) sp }
        ensures kept { IsKept (guarded_of self.old) (guarded_of self.new) }
        ensures heap { OnOk result (HeapAfter (guarded_of self.old) (PopByte sp) (guarded_of self.new)) }
    {
        self.pop_byte(sp)
    }

    fn push_ret(&mut self, sp: u16, ret: u16) -> Result<(), BusStop>
        requires ready { IsReady (guarded_of self.old) }
        ensures answer { outcome_of result (guarded_of self.new) ≡ push_return_of (guarded_of self.old) sp ret }
        ensures stop { OnErr result (guarded_of self.new ≡ guarded_of self.old) }
        ensures lent { lent_of self.new ≡ lent_of self.old }
        ensures flat { outcome_of result (seen_of self.new) ≡ flat_calls.push_ret (seen_of self.old) sp ret }
        ensures kept { IsKept (guarded_of self.old) (guarded_of self.new) }
        ensures heap { OnOk result (HeapAfter (guarded_of self.old) (PushReturn sp ret) (guarded_of self.new)) }
    {
        self.push_return(sp, ret)
    }

    fn pop_ret(&mut self, sp: u16) -> Result<u16, BusStop>
        requires ready { IsReady (guarded_of self.old) }
        ensures answer { outcome_of result (guarded_of self.new) ≡ pop_return_of (guarded_of self.old) sp }
        ensures stop { OnErr result (guarded_of self.new ≡ guarded_of self.old) }
        ensures lent { lent_of self.new ≡ lent_of self.old }
        ensures flat { outcome_of result (seen_of self.new) ≡ flat_calls.pop_ret (seen_of self.old) sp }
        ensures kept { IsKept (guarded_of self.old) (guarded_of self.new) }
        ensures heap { OnOk result (HeapAfter (guarded_of self.old) (PopReturn sp) (guarded_of self.new)) }
    {
        self.pop_return(sp)
    }

    fn rampz(&self) -> u8 {
        self.devices.rampz()
    }

    fn set_rampz(&mut self, v: u8) {
        self.devices.set_rampz(v);
    }

    fn flash_byte(&self, a: u32) -> u8 {
        byte_in_image(self.flash, self.layout, a)
    }
}
