//! The status register as a set of named flags.

ghost use Rattle.std.specs.Prelude.{⊤, ◌≡◌, [], ◌∷◌, codes, IsTrue, Bool, ◌<◌, ◌==◌, nat_le};
ghost use Rattle.avr_flags.specs.Status.{is_weight, has_bit, with_bit, differ, carry, with_result_flags, with_arithmetic_flags};
ghost use Rattle.avr_flags.specs.Sums.{carry_in};

use crate::tables::{flags_of_carries, flags_of_result};
use bitflags::{Flag, Flags, bitflag_items};

/// The flags of SREG.
#[derive(Clone, Copy)]
pub(crate) struct Status(u8);

bitflag_items! {
    impl Status: u8 {
        const CARRY = 1;
        const ZERO = 2;
        const NEGATIVE = 4;
        const OVERFLOW = 8;
        const SIGN = 16;
        const HALF_CARRY = 32;
        const TRANSFER = 64;
        const INTERRUPTS = 128;
    }
}

impl Flags for Status {
    type Bits = u8;

    ghost exact = { ⊤ };

    ghost table = { (codes "CARRY", 1)
        ∷ (codes "ZERO", 2)
        ∷ (codes "NEGATIVE", 4)
        ∷ (codes "OVERFLOW", 8)
        ∷ (codes "SIGN", 16)
        ∷ (codes "HALF_CARRY", 32)
        ∷ (codes "TRANSFER", 64)
        ∷ (codes "INTERRUPTS", 128)
        ∷ [] };

    ghost set_of = { λ status. status.0 };

    fn flags<'a>() -> &'a [Flag<Status>] {
        Status::FLAGS
    }

    fn bits(&self) -> u8 {
        self.0
    }

    fn from_bits_retain(bits: u8) -> Status {
        Status(bits)
    }
}

impl Status {
    /// T and I, which no arithmetic touches.
    const KEPT_BY_SUMS: u8 = Status::TRANSFER.0 | Status::INTERRUPTS.0;

    /// These and H.
    const KEPT_BY_TOP_CARRIES: u8 = Status::KEPT_BY_SUMS | Status::HALF_CARRY.0;

    /// These, H and C.
    const KEPT_BY_RESULTS: u8 = Status::KEPT_BY_TOP_CARRIES | Status::CARRY.0;

    /// The flags that SREG holds.
    pub(crate) fn new(sreg: u8) -> Status
        ensures { result.0 ≡ sreg }
    {
        Status(sreg)
    }

    /// SREG.
    pub(crate) fn sreg(self) -> u8
        ensures { result ≡ self.0 }
    {
        self.0
    }

    /// The carry as a number to add.
    pub(crate) fn carry(self) -> u8
        ensures { result ≡ carry_in self.0 }
    {
        self.0 & 1
    }

    /// With this one flag made so.
    #[tactic(auto, using(crate::proofs::StatusTables::set_flag))]
    pub(crate) fn with(mut self, flag: Status, value: bool) -> Status
        requires { IsTrue (is_weight flag.0) }
        ensures { result.0 ≡ with_bit self.0 flag.0 value }
    {
        self.set(flag, value);
        self
    }

    /// With N, Z, V and S as this byte has them, in which the others are clear.
    #[tactic(auto, using(crate::proofs::TableLaws::with_result_made))]
    pub(crate) fn with_result(self, flags: u8) -> Status
        ensures { (n z v : Bool) → flags ≡ with_result_flags 0 n z v → result.0 ≡ with_result_flags self.0 n z v }
    {
        Status(self.0 & Status::KEPT_BY_RESULTS | flags)
    }

    /// With all flags of a sum or a difference, as its carries (`flags_of_carries`) and its result tell.
    #[tactic(auto, using(crate::proofs::TableLaws::with_sum_made))]
    pub(crate) fn with_sum(self, carries: u16, value: u8) -> Status
        ensures { result.0
            ≡ with_arithmetic_flags self.0
            (has_bit carries 16)
            (nat_le 128 value)
            (value == 0)
            (differ (has_bit carries 128) (has_bit carries 256))
            (has_bit carries 256) }
    {
        Status(self.0 & Status::KEPT_BY_SUMS | flags_of_carries(carries) ^ flags_of_result(value))
    }

    /// As `with_sum`, but H stays. Of the carries those into bits 7 and 8 count.
    #[tactic(auto, using(crate::proofs::TableLaws::of_top_carries, crate::proofs::TableLaws::with_top_carries_made))]
    pub(crate) fn with_top_carries(self, carries: u16, value: u8) -> Status
        requires { carries < 512 }
        ensures { result.0
            ≡ with_result_flags (with_bit self.0 carry (has_bit carries 256))
            (nat_le 128 value)
            (value == 0)
            (differ (has_bit carries 128) (has_bit carries 256)) }
    {
        Status(
            self.0 & Status::KEPT_BY_TOP_CARRIES
                | flags_of_carries(carries & 0x180) ^ flags_of_result(value),
        )
    }
}
