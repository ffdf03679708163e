//! What is decoded at a word address.

ghost use Rattle.std.specs.Prelude.{◌≡◌, ◌≤◌};
ghost use Rattle.avr_isa.specs.declared.form.Form.TheVariants.{Nop};
ghost use Rattle.flash_model.specs.MicroOps.{CanStandFor};
ghost use Rattle.flash_model.specs.Code.{decoded_of};

use crate::MicroOp;
use avr_decode::{decode, size_by_first_word};
use avr_isa::{Form, Instr};

/// What is decoded at a word address.
#[derive(Clone, Copy)]
pub struct Decoded {
    /// The instruction that begins there; NOP also where the words are none.
    pub instr: Instr,
    /// How many words an instruction has that begins one word on.
    pub next_size: u16,
}

impl Decoded {
    /// What these two words begin with.
    pub(crate) fn new(first: u16, second: u16) -> Decoded
        ensures value { result ≡ decoded_of first second }
    {
        Decoded {
            instr: decode(first, second).unwrap_or_else(no_operation),
            next_size: size_by_first_word(second),
        }
    }

    /// Its micro-operation. Not inlined, since a step asks for it once at an address.
    #[inline(never)]
    pub(crate) fn micro_op(&self) -> MicroOp
        requires next { (1 ≤ self.now.next_size) × (self.now.next_size ≤ 2) }
        ensures stands { CanStandFor result self.now.instr self.now.next_size }
    {
        MicroOp::of(&self.instr, self.next_size)
    }
}

/// The micro-operation of what these two words begin with.
pub fn micro_op(first: u16, second: u16) -> MicroOp
    ensures stands { CanStandFor result (decoded_of first second).instr (decoded_of first second).next_size }
{
    Decoded::new(first, second).micro_op()
}

/// NOP.
#[tactic(auto, unfolding(avr_isa::specs::UndefinedPairs::is_undefined))]
fn no_operation() -> Instr
    ensures value { result ≡ Nop }
{
    match Instr::new(Form::Nop) {
        Some(instr) => instr,
        None => unreachable!(),
    }
}
