//! A bus that borrows its memory and its program.

ghost use Rattle.std.specs.Prelude.{◌≡◌, ◌≤◌, true, List, ℕ};
ghost use Rattle.std.specs.Borrow.{GName};
ghost use Rattle.avr_exec.specs.Execution.{exec_of, is_executed, finished};
ghost use Rattle.mote_tests.specs.SmallSpace.{Small, small_calls};

use avr_exec::{Bus, BusStop, Cpu, exec};
use avr_isa::Instr;

/// Bytes at data addresses from 0 on, and RAMPZ.
#[derive(Drop)]
pub(crate) struct Memory {
    pub(crate) bytes: [u8; 320],
    pub(crate) extension: u8,
}

impl Memory {
    /// The byte at a data address, 0 where there is none.
    pub(crate) fn at(&self, a: u16) -> u8 {
        if a < 320 { self.bytes[a as usize] } else { 0 }
    }

    /// Writes the byte at a data address, where there is one.
    pub(crate) fn set(&mut self, a: u16, v: u8) {
        if a < 320 {
            self.bytes[a as usize] = v;
        }
    }
}

/// Memory and a program, borrowed.
#[derive(Drop)]
pub(crate) struct Board<'a> {
    pub(crate) memory: &'a mut Memory,
    pub(crate) program: &'a [u8],
}

impl Bus for Board<'_> {
    ghost use Rattle.std.specs.Prelude.{List, ℕ, ⊤};
    ghost use Rattle.std.specs.Borrow.{GName};
    ghost use Rattle.mote_tests.specs.SmallSpace.{Small, small_calls};

    ghost Space = { Small };

    ghost space = { λ b. record { bytes = b.memory.now.bytes; extension = b.memory.now.extension; program = b.program.now } };

    ghost calls = { small_calls };

    ghost Lent = { GName × List ℕ };

    ghost lent = { λ b. (b.memory.ghost_name, b.program.now) };

    ghost ready = { λ _. ⊤ };

    fn load(&mut self, a: u16) -> Result<u8, BusStop> {
        if a < 320 {
            Ok(self.memory.bytes[a as usize])
        } else {
            Err(BusStop::Io(a))
        }
    }

    fn store(&mut self, a: u16, v: u8) -> Result<(), BusStop> {
        if a < 320 {
            self.memory.bytes[a as usize] = v;
            Ok(())
        } else {
            Err(BusStop::Io(a))
        }
    }

    fn modify(&mut self, a: u16, clear: u8, set: u8) -> Result<(), BusStop> {
        let value = self.memory.bytes[a as usize];
        self.memory.bytes[a as usize] = value & !clear | set;
        Ok(())
    }

    #[tactic(auto, unfolding(avr_exec::specs::StackRules::push_on))]
    fn push(&mut self, sp: u16, v: u8) -> Result<(), BusStop> {
        if sp < 320 {
            self.memory.bytes[sp as usize] = v;
            Ok(())
        } else {
            Err(BusStop::Stack(sp))
        }
    }

    #[tactic(auto, unfolding(avr_exec::specs::StackRules::pop_from))]
    fn pop(&mut self, sp: u16) -> Result<u8, BusStop> {
        let a = sp.wrapping_add(1);
        if a < 320 {
            Ok(self.memory.bytes[a as usize])
        } else {
            Err(BusStop::Stack(a))
        }
    }

    #[tactic(auto, unfolding(avr_exec::specs::StackRules::push_return_on))]
    fn push_ret(&mut self, sp: u16, ret: u16) -> Result<(), BusStop> {
        let below = sp.wrapping_sub(1);
        if sp >= 320 {
            return Err(BusStop::Stack(sp));
        }
        if below >= 320 {
            return Err(BusStop::Stack(below));
        }
        self.memory.bytes[sp as usize] = (ret & 0xFF) as u8;
        self.memory.bytes[below as usize] = (ret >> 8) as u8;
        Ok(())
    }

    #[tactic(auto, unfolding(avr_exec::specs::StackRules::pop_return_from))]
    fn pop_ret(&mut self, sp: u16) -> Result<u16, BusStop> {
        let high = sp.wrapping_add(1);
        let low = sp.wrapping_add(2);
        if high >= 320 {
            return Err(BusStop::Stack(high));
        }
        if low >= 320 {
            return Err(BusStop::Stack(low));
        }
        let (high, low) = (
            self.memory.bytes[high as usize],
            self.memory.bytes[low as usize],
        );
        Ok(u16::from(high) * 256 + u16::from(low))
    }

    fn rampz(&self) -> u8 {
        self.memory.extension
    }

    fn set_rampz(&mut self, v: u8) {
        self.memory.extension = v;
    }

    fn flash_byte(&self, a: u32) -> u8 {
        if (a as usize) < self.program.len() {
            self.program[a as usize]
        } else {
            0xFF
        }
    }
}

/// Executes one instruction over memory that is lent for it. The clause says what the memory holds then.
pub(crate) fn execute_over(
    i: &Instr,
    cpu: &mut Cpu,
    memory: &mut Memory,
    program: &[u8],
    next_size: u16,
) -> Result<(), BusStop>
    requires executed { is_executed i.now ≡ true }
    requires next { (1 ≤ next_size) × (next_size ≤ 2) }
    ensures outcome { finished
        result
        cpu.new
        (record { bytes = memory.new.bytes; extension = memory.new.extension; program = program.now })
        ≡ exec_of
        small_calls
        i.now
        cpu.old
        (record { bytes = memory.old.bytes; extension = memory.old.extension; program = program.now })
        next_size }
{
    let mut board = Board { memory, program };
    exec(i, cpu, &mut board, next_size)
}
