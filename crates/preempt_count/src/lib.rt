//! The count of crossings: how the kernel knows that the program has run long enough.
//!
//! A step of the program that goes backward, stays, or leaves its page of 128 words is a *crossing*
//! ([`is_crossing`]). COUNT, a cell of the kernel, has how many crossings are left of the quantum. Stubs
//! count their own crossings in rewritten code; [`cross`] counts one for the kernel's services.
//!
//! ```rust
//! let checkpoint = cross(&mut sram, quantum, pc, target); // true at every quantum-th crossing
//! ```
//!
//! `specs/Counting` defines both; `proofs/CountLaws` says what a step leaves of COUNT and of the other
//! bytes of SRAM.
#![tactic(auto)]

ghost use Rattle.std.specs.Prelude.{◌≡◌, ◌≤◌};
ghost use Rattle.sram_layout.specs.Bytes.{byte_at};
ghost use Rattle.sram_layout.specs.Cells.{count_cell};
ghost use Rattle.preempt_count.specs.Counting.{is_checkpoint, crossed};

pub use avr_isa::is_crossing;
use sram_layout::Sram;

/// How many plain steps run at most between two kernel services, for each crossing of the quantum:
/// between two crossings at most 128 instructions begin, and each takes at most 40 plain steps with the
/// stub behind it.
pub const BOUND_PER_Q: u64 = 5120;

/// Counts the program's step from `pc` to `t`, both word addresses of its image. `q` is the quantum, in
/// crossings. Answers whether the step is a checkpoint.
#[tactic(auto, unfolding(crate::specs::Counting::crossed))]
pub fn cross(sram: &mut Sram, q: u8, pc: u16, t: u16) -> bool
    requires quantum { 1 ≤ q }
    requires count { (1 ≤ byte_at sram.old count_cell) × (byte_at sram.old count_cell ≤ q) }
    ensures checkpoint { result ≡ is_checkpoint pc t (byte_at sram.old count_cell) }
    ensures after { sram.new ≡ crossed q pc t sram.old }
{
    if !is_crossing(pc, t) {
        return false;
    }
    let count = sram.count();
    if count == 1 {
        sram.set_count(q);
        true
    } else {
        sram.set_count(count - 1);
        false
    }
}
