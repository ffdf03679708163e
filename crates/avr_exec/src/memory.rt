//! One byte of memory, wherever it is: the core's own, or the bus's.

ghost use Rattle.std.specs.Prelude.{◌≡◌, IfOk, OnOk, OnErr};
ghost use Rattle.avr_exec.specs.Asks.{load_of, number_of, store_of};
ghost use Rattle.avr_exec.specs.Effects.{loaded as loaded_of, stored as stored_of};
ghost use Rattle.avr_exec.specs.Execution.{answered_by, answer_of, extended as extended_of, rampz_raised as rampz_raised_of};
ghost use Rattle.avr_exec.specs.Kinds.{answered_byte, answered_done};
ghost use Rattle.avr_exec.specs.Spaces.{outcome_of};

use crate::bus::Bus;
use crate::cpu::{Cpu, OWN_END, is_own_address};
use crate::stop::BusStop;

/// The byte at a data address: the core's own, or the bus's.
#[tactic(auto, unfolding(crate::specs::Asks::load_of, crate::specs::Execution::answer_of, crate::specs::Effects::loaded))]
#[inline(always)]
pub(crate) fn load<B: Bus>(cpu: &Cpu, bus: &mut B, address: u16) -> Result<u8, BusStop>
    requires ready { B.ready bus.old }
    ensures answer { answer_of B.calls (B.space bus.old) (load_of address)
        ≡ answered_by (answered_byte address) (outcome_of result (B.space bus.new)) }
    ensures value { IfOk result (λ v. loaded_of cpu.now address (number_of (answered_byte address v)) ≡ v) }
    ensures stop { OnErr result (B.space bus.new ≡ B.space bus.old) }
    ensures lent { B.lent bus.new ≡ B.lent bus.old }
{
    // Most addresses are above the core's own. A branch for them alone costs one comparison, where a
    // condition joined with the next one costs all of them.
    if address >= OWN_END {
        return bus.load(address);
    }
    if is_own_address(address) {
        Ok(cpu.own_byte(address))
    } else {
        bus.load(address)
    }
}

/// Stores a byte at a data address: the core's own, or the bus's.
#[tactic(auto, unfolding(crate::specs::Asks::store_of, crate::specs::Execution::answer_of, crate::specs::Effects::stored))]
#[inline(always)]
pub(crate) fn store<B: Bus>(
    cpu: &mut Cpu,
    bus: &mut B,
    address: u16,
    value: u8,
) -> Result<(), BusStop>
    requires ready { B.ready bus.old }
    ensures answer { answer_of B.calls (B.space bus.old) (store_of address value)
        ≡ answered_by answered_done (outcome_of result (B.space bus.new)) }
    ensures stored { OnOk result (cpu.new ≡ stored_of cpu.old address value) }
    ensures pc { cpu.new.pc ≡ cpu.old.pc }
    ensures stop { OnErr result ((cpu.new ≡ cpu.old) × (B.space bus.new ≡ B.space bus.old)) }
    ensures lent { B.lent bus.new ≡ B.lent bus.old }
{
    // Most addresses are above the core's own. A branch for them alone costs one comparison, where a
    // condition joined with the next one costs all of them.
    if address >= OWN_END {
        return bus.store(address, value);
    }
    if is_own_address(address) {
        cpu.set_own_byte(address, value);
        Ok(())
    } else {
        bus.store(address, value)
    }
}

/// The byte address of the program that the lowest bit of RAMPZ and Z give.
pub(crate) fn extended(rampz: u8, z: u16) -> u32
    ensures { result ≡ extended_of rampz z }
{
    u32::from(rampz & 1) * 0x1_0000 + u32::from(z)
}

/// RAMPZ after RAMPZ:Z was raised by one.
fn rampz_raised(rampz: u8, z: u16) -> u8
    ensures { result ≡ rampz_raised_of rampz z }
{
    if z == 0xFFFF {
        rampz.wrapping_add(1)
    } else {
        rampz
    }
}

/// The byte of the program at RAMPZ:Z, with RAMPZ set as it is when RAMPZ:Z is raised by one.
#[inline(always)]
pub(crate) fn extended_byte_raising<B: Bus>(bus: &mut B, z: u16) -> u8
    ensures value { result ≡ B.calls.flash_byte (B.space bus.old) (extended_of (B.calls.rampz (B.space bus.old)) z) }
    ensures raised { B.space bus.new
        ≡ B.calls.set_rampz (B.space bus.old) (rampz_raised_of (B.calls.rampz (B.space bus.old)) z) }
    ensures lent { B.lent bus.new ≡ B.lent bus.old }
{
    let rampz = bus.rampz();
    let value = bus.flash_byte(extended(rampz, z));
    bus.set_rampz(rampz_raised(rampz, z));
    value
}
