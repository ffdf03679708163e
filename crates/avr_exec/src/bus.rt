//! What an instruction reaches beside the core's own registers.

ghost use Rattle.std.specs.Prelude.{◌≡◌, ◌≤◌, false, OnErr};
ghost use Rattle.avr_exec.specs.Registers.{is_own};
ghost use Rattle.avr_exec.specs.Spaces.{Calls, outcome_of};

use crate::stop::BusStop;

/// The memory, devices and program of a core, as an instruction reaches them.
///
/// An implementation says what it stands for by a *space*, plain data, and by ten functions of the space
/// that give each call's answer and the next space. A call that stops leaves the space.
pub trait Bus {
    // What the bus stands for.
    ghost Space: { Type 0 };

    ghost space: { Self → Space };

    // What each call answers, and the space afterwards.
    ghost calls: { Calls Space };

    // Which objects the bus borrows: every call keeps them.
    ghost Lent: { Type 0 };

    ghost lent: { Self → Lent };

    // What the implementation itself asks before a call of the first seven.
    ghost ready: { Self → Type 0 };

    /// Moves one byte from data address `a`, which isn't one of the core's own.
    fn load(&mut self, a: u16) -> Result<u8, BusStop>
        requires ready { ready self.old }
        requires outside { is_own a ≡ false }
        ensures answer { outcome_of result (space self.new) ≡ calls.load (space self.old) a }
        ensures stop { OnErr result (space self.new ≡ space self.old) }
        ensures lent { lent self.new ≡ lent self.old };

    /// Moves one byte to data address `a`, which isn't one of the core's own.
    fn store(&mut self, a: u16, v: u8) -> Result<(), BusStop>
        requires ready { ready self.old }
        requires outside { is_own a ≡ false }
        ensures answer { outcome_of result (space self.new) ≡ calls.store (space self.old) a v }
        ensures stop { OnErr result (space self.new ≡ space self.old) }
        ensures lent { lent self.new ≡ lent self.old };

    /// One read of the I/O register at data address `a`, then one write of what was read with the bits
    /// of `clear` cleared and those of `set` set.
    fn modify(&mut self, a: u16, clear: u8, set: u8) -> Result<(), BusStop>
        requires ready { ready self.old }
        requires outside { is_own a ≡ false }
        requires register { (0x20 ≤ a) × (a ≤ 0xFF) }
        ensures answer { outcome_of result (space self.new) ≡ calls.modify (space self.old) a clear set }
        ensures stop { OnErr result (space self.new ≡ space self.old) }
        ensures lent { lent self.new ≡ lent self.old };

    /// Stores a byte at `sp`.
    fn push(&mut self, sp: u16, v: u8) -> Result<(), BusStop>
        requires ready { ready self.old }
        ensures answer { outcome_of result (space self.new) ≡ calls.push (space self.old) sp v }
        ensures stop { OnErr result (space self.new ≡ space self.old) }
        ensures lent { lent self.new ≡ lent self.old };

    /// Reads the byte at `sp + 1`.
    fn pop(&mut self, sp: u16) -> Result<u8, BusStop>
        requires ready { ready self.old }
        ensures answer { outcome_of result (space self.new) ≡ calls.pop (space self.old) sp }
        ensures stop { OnErr result (space self.new ≡ space self.old) }
        ensures lent { lent self.new ≡ lent self.old };

    /// Stores a return address: its low byte at `sp`, its high byte at `sp - 1`.
    fn push_ret(&mut self, sp: u16, ret: u16) -> Result<(), BusStop>
        requires ready { ready self.old }
        ensures answer { outcome_of result (space self.new) ≡ calls.push_ret (space self.old) sp ret }
        ensures stop { OnErr result (space self.new ≡ space self.old) }
        ensures lent { lent self.new ≡ lent self.old };

    /// Reads a return address: its high byte at `sp + 1`, its low byte at `sp + 2`.
    fn pop_ret(&mut self, sp: u16) -> Result<u16, BusStop>
        requires ready { ready self.old }
        ensures answer { outcome_of result (space self.new) ≡ calls.pop_ret (space self.old) sp }
        ensures stop { OnErr result (space self.new ≡ space self.old) }
        ensures lent { lent self.new ≡ lent self.old };

    /// The register RAMPZ, whose lowest bit extends Z for ELPM.
    fn rampz(&self) -> u8
        ensures value { result ≡ calls.rampz (space self.now) };

    /// Writes RAMPZ.
    fn set_rampz(&mut self, v: u8)
        ensures written { space self.new ≡ calls.set_rampz (space self.old) v }
        ensures lent { lent self.new ≡ lent self.old };

    /// The byte at byte address `a` of the program.
    fn flash_byte(&self, a: u32) -> u8
        ensures value { result ≡ calls.flash_byte (space self.now) a };
}
