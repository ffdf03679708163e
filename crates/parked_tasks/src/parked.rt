//! What is kept of a task that doesn't run.

ghost use Rattle.std.specs.Prelude.{◌≡◌, ◌≤◌, IfOk, length};
ghost use Rattle.sram_layout.specs.Bytes.{byte_count};
ghost use Rattle.mote_core.specs.declared.mote.Mote.{Mote};
ghost use Rattle.parked_tasks.specs.Parking.{parked_of, taken_up, Shares, IsBack};
ghost use Rattle.parked_tasks.specs.AtBoot.{parked_at_boot};

use avr_exec::Cpu;
use base::NoMemory;
use input_script::Script;
use mote_core::Mote;
use mote_devices::Devices;
use sram_layout::{KERNEL_STACK_TOP, PLACE_CELLS, SRAM_BEHIND, SRAM_FIRST, SWAP_MAP, Sram};
use std::alloc::Global;
use std::mem::swap;
use swap_store::Swap;

/// The data address of a task's own cells and its frame table, and how many bytes these are.
const LOW: u16 = SRAM_FIRST;

const LOW_BYTES: usize = (PLACE_CELLS - SRAM_FIRST) as usize;

/// The data address of its swap map, frames and stack window, and how many bytes these are.
const HIGH: u16 = SWAP_MAP;

const HIGH_BYTES: usize = (SRAM_BEHIND - SWAP_MAP) as usize;

/// A task's own parts of the mote, while another task has the mote.
#[derive(Drop)]
pub struct Parked {
    /// The core's registers. The stack pointer is the physical one.
    pub cpu: Cpu,
    /// SRAM from 0x0100 to 0x0141: the kernel's cells and its frame table.
    pub low: [u8; LOW_BYTES],
    /// SRAM from 0x0400 to 0x10FF: the swap map, the frames and the stack window.
    pub high: [u8; HIGH_BYTES],
    pub swap: Swap,
    pub devices: Devices,
}

impl Parked {
    /// What is parked of a task at boot, with its script, the quantum in COUNT, and this many swap slots.
    #[tactic(auto, unfolding(base::specs::Lists::many))]
    pub(crate) fn at_boot(
        alloc: Global,
        script: Script,
        quantum: u8,
        slots: u8,
    ) -> Result<Parked, NoMemory>
        requires { slots ≤ 62 }
        ensures parked { IfOk result (λ parked. parked ≡ parked_at_boot script quantum slots) }
    {
        let mut sram = Sram::new();
        sram.set_count(quantum);
        let mut low = [0; LOW_BYTES];
        sram.part(LOW, &mut low);
        let mut high = [0; HIGH_BYTES];
        sram.part(HIGH, &mut high);
        Ok(Parked {
            cpu: Cpu {
                r: [0; 32],
                sreg: 0,
                sp: KERNEL_STACK_TOP,
                pc: 0,
            },
            low,
            high,
            swap: Swap::new(alloc, slots)?,
            devices: Devices::new(script),
        })
    }

    /// Parks the task that has the mote, and gives the mote to the one that was parked here. The swap and the devices
    /// are handed over and not copied.
    pub fn exchange(&mut self, mote: &mut Mote)
        ensures parked { self.new ≡ parked_of mote.old }
        ensures taken { mote.new ≡ taken_up mote.old self.old }
        ensures shares { Shares mote.old mote.new }
        // What was parked of a mote is what comes back.
        ensures back { (was : Mote) → length was.sram ≡ byte_count → self.old ≡ parked_of was → IsBack was mote.new }
    {
        let low = self.low;
        let high = self.high;
        mote.sram.part(LOW, &mut self.low);
        mote.sram.part(HIGH, &mut self.high);
        mote.sram.set_part(LOW, &low);
        mote.sram.set_part(HIGH, &high);
        swap(&mut self.cpu, &mut mote.cpu);
        swap(&mut self.swap, &mut mote.swap);
        swap(&mut self.devices, &mut mote.devices);
    }
}
