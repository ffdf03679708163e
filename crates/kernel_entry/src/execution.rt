//! An instruction of the program, executed over the program's memory.

ghost use Rattle.std.specs.Prelude.{◌≡◌, ◌<◌, ◌^◌, true};
ghost use Rattle.avr_exec.specs.Execution.{is_executed};
ghost use Rattle.heap_frames.specs.Paged.{IsPaged};
ghost use Rattle.kernel_entry.specs.Parts.{descriptor};
ghost use Rattle.kernel_entry.specs.Services.{execution};

use crate::kernel::Kernel;
use avr_exec::{BusStop, exec_at};
use avr_isa::Instr;
use mem_guard::{VirtualBus, next_size_in_image};
use mote_devices::Line;
use sram_layout::KERNEL_STACK_TOP;

/// What an execution tells: the program's new pc, and what a device showed.
#[derive(Clone, Copy)]
pub(crate) struct Ran {
    pub pc: u16,
    pub line: Option<Line>,
}

/// Executes the program's instruction at the address that the descriptor names. The core is lent to the
/// program meanwhile, with the program's own stack pointer and pc; the physical pc is as before then.
#[inline(always)]
pub(crate) fn execute(k: &mut Kernel, at: u16, instr: &Instr) -> Result<Ran, BusStop>
    requires at { at ≡ descriptor k.old }
    requires executed { is_executed instr.now ≡ true }
    requires paged { IsPaged k.old.mote.sram k.old.mote.swap }
    requires room { k.old.mote.devices.polls < 2 ^ 63 }
    ensures executed { (result, k.new) ≡ execution k.old instr.now }
{
    let next_size = next_size_in_image(&k.mote.flash, &k.layout, at);
    let place = k.mote.cpu.pc;
    k.mote.cpu.pc = at;
    k.mote.cpu.sp = k.mote.sram.vsp();
    let mut bus = VirtualBus {
        sram: &mut k.mote.sram,
        swap: &mut k.mote.swap,
        devices: &mut k.mote.devices,
        flash: &k.mote.flash,
        layout: &k.layout,
        line: None,
    };
    let done = exec_at(instr, &mut k.mote.cpu, &mut bus, at, next_size);
    let line = bus.line;
    let sp = k.mote.cpu.sp;
    k.mote.cpu.pc = place;
    k.mote.cpu.sp = KERNEL_STACK_TOP;
    match done {
        Ok(pc) => {
            k.mote.sram.set_vsp(sp);
            Ok(Ran { pc, line })
        }
        Err(stop) => Err(stop),
    }
}
