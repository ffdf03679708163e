//! An interrupt, taken before the program goes on.

ghost use Rattle.std.specs.Prelude.{◌≡◌, ◌≢◌, ◌<◌, ◌^◌, false};
ghost use Rattle.std.specs.Int.{bit_at};
ghost use Rattle.avr_flags.specs.Status.{with_bit, interrupts};
ghost use Rattle.heap_frames.specs.Paged.{IsPaged};
ghost use Rattle.flat_machine.specs.FlatMachine.{lowest as lowest_of, vector as vector_of};
ghost use Rattle.kernel_entry.specs.Interrupts.{taken, pushed, TakesLeast};

use crate::kernel::{Kernel, Taken};
use crate::services::{has_interrupts, stop_of};
use avr_exec::{Bus, BusStop};
use flat_machine::Part;
use mem_guard::VirtualBus;

/// Takes the pending and enabled interrupt with the least number, where interrupts are on: `target`, the address where
/// the program would go on, is pushed onto its stack, and interrupts are off. Its vector stands at the front of the
/// program's part.
pub fn interrupt(k: &mut Kernel, target: u16) -> Taken
    requires paged { IsPaged k.old.mote.sram k.old.mote.swap }
    requires room { k.old.mote.devices.polls < 2 ^ 63 }
    // The answer and the whole kernel are a function of the kernel.
    ensures taken { (result, k.new) ≡ taken k.old target }
    // When each answer comes, and what it leaves.
    ensures row { TakesLeast k.old target result k.new }
{
    let enabled = k.mote.devices.enabled();
    if enabled == 0 {
        return Taken::Nothing;
    }
    if !has_interrupts(k) {
        return Taken::Nothing;
    }
    let number = lowest(enabled);
    let place = vector(&k.part, number);
    match push(k, target) {
        Err(stop) => Taken::Stopped(stop_of(target, stop)),
        Ok(()) => {
            k.mote.devices.take(number);
            k.mote.cpu.sreg = without_interrupts(k.mote.cpu.sreg);
            Taken::Vector(place)
        }
    }
}

/// SREG with interrupts off.
fn without_interrupts(sreg: u8) -> u8
    ensures value { result ≡ with_bit sreg interrupts false }
{
    sreg & 0x7F
}

/// An address pushed onto the program's stack.
fn push(k: &mut Kernel, address: u16) -> Result<(), BusStop>
    requires paged { IsPaged k.old.mote.sram k.old.mote.swap }
    requires room { k.old.mote.devices.polls < 2 ^ 63 }
    ensures pushed { (result, k.new) ≡ pushed k.old address }
    ensures devices { k.new.mote.devices ≡ k.old.mote.devices }
{
    let sp = k.mote.sram.vsp();
    let mut bus = VirtualBus {
        sram: &mut k.mote.sram,
        swap: &mut k.mote.swap,
        devices: &mut k.mote.devices,
        flash: &k.mote.flash,
        layout: &k.layout,
        line: None,
    };
    match bus.push_ret(sp, address) {
        Ok(()) => {
            k.mote.sram.set_vsp(sp.wrapping_sub(2));
            Ok(())
        }
        Err(stop) => Err(stop),
    }
}

/// The word address where the program answers an interrupt. It wraps, as addresses do.
fn vector(part: &Part, number: u8) -> u16
    requires small { number < 8 }
    ensures value { result ≡ vector_of part.now number }
{
    part.first.wrapping_add(2 * (u16::from(number) + 1))
}

/// The least number of a bit that is set.
fn lowest(n: u8) -> u8
    requires some { n ≢ 0 }
    ensures value { result ≡ lowest_of n }
    ensures bit { bit_at n result ≡ 1 }
    ensures small { result < 8 }
{
    n.trailing_zeros() as u8
}
