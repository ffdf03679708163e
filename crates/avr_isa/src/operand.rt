//! The operands of an instruction that name no register.
ghost use Rattle.std.specs.Prelude.{◌≡◌, ℕ, ℤ, pos, negsuc, ◌<◌, ◌≤◌, ◌≤ℤ◌, SomeIff};
ghost use Rattle.avr_isa.specs.IoTable.{io_address};

use std::marker::Model;

/// The number of a bit of a register or of SREG, 0 (the least significant) to 7.
#[derive(Clone, Copy)]
pub struct Bit {
    v: u8,
}

impl Model for Bit {
    ghost Value = { ℕ };

    ghost view = { λ a. a.v };

    ghost invariant = { λ a. a.v < 8 };

    ghost inverse = { λ n. record { v = n } };
}

impl Bit {
    /// The bit of this number, None above 7.
    pub fn new(v: u8) -> Option<Bit>
        ensures value { SomeIff result (v < 8) v }
    {
        if v < 8 { Some(Bit { v }) } else { None }
    }

    /// The bit's number, 0 to 7.
    pub fn get(&self) -> u8
        ensures value { result ≡ self.now }
        ensures range { result < 8 }
    {
        self.v
    }
}

/// An operand of six bits: the constant of ADIW and SBIW, and the displacement q of LDD and STD.
#[derive(Clone, Copy)]
pub struct Six {
    v: u8,
}

impl Model for Six {
    ghost Value = { ℕ };

    ghost view = { λ a. a.v };

    ghost invariant = { λ a. a.v < 64 };

    ghost inverse = { λ n. record { v = n } };
}

impl Six {
    /// The operand of this value, None above 63.
    pub fn new(v: u8) -> Option<Six>
        ensures value { SomeIff result (v < 64) v }
    {
        if v < 64 { Some(Six { v }) } else { None }
    }

    /// The operand's value, 0 to 63.
    pub fn get(&self) -> u8
        ensures value { result ≡ self.now }
        ensures range { result < 64 }
    {
        self.v
    }
}

/// The field A of IN and OUT, 0 to 63. The data address of the I/O register is A + 0x20.
#[derive(Clone, Copy)]
pub struct IoAddr {
    v: u8,
}

impl Model for IoAddr {
    ghost Value = { ℕ };

    ghost view = { λ a. a.v };

    ghost invariant = { λ a. a.v < 64 };

    ghost inverse = { λ n. record { v = n } };
}

impl IoAddr {
    /// The I/O field of this value, None above 63.
    pub fn new(v: u8) -> Option<IoAddr>
        ensures value { SomeIff result (v < 64) v }
    {
        if v < 64 { Some(IoAddr { v }) } else { None }
    }

    /// The field, 0 to 63.
    pub fn get(&self) -> u8
        ensures value { result ≡ self.now }
        ensures range { result < 64 }
    {
        self.v
    }

    /// The data address of the I/O register that the field names.
    pub fn address(&self) -> u16
        ensures value { result ≡ io_address self.now }
        ensures range { (0x20 ≤ result) × (result ≤ 0x5F) }
    {
        u16::from(self.get()) + 0x20
    }
}

/// The field A of SBI, CBI, SBIS and SBIC, 0 to 31. The data address is A + 0x20.
#[derive(Clone, Copy)]
pub struct LowIo {
    v: u8,
}

impl Model for LowIo {
    ghost Value = { ℕ };

    ghost view = { λ a. a.v };

    ghost invariant = { λ a. a.v < 32 };

    ghost inverse = { λ n. record { v = n } };
}

impl LowIo {
    /// The I/O field of this value, None above 31.
    pub fn new(v: u8) -> Option<LowIo>
        ensures value { SomeIff result (v < 32) v }
    {
        if v < 32 { Some(LowIo { v }) } else { None }
    }

    /// The field, 0 to 31.
    pub fn get(&self) -> u8
        ensures value { result ≡ self.now }
        ensures range { result < 32 }
    {
        self.v
    }

    /// The data address of the I/O register that the field names.
    pub fn address(&self) -> u16
        ensures value { result ≡ io_address self.now }
        ensures range { (0x20 ≤ result) × (result ≤ 0x3F) }
    {
        u16::from(self.get()) + 0x20
    }
}

/// The distance of a conditional branch, in words from the next instruction, -64 to 63.
#[derive(Clone, Copy)]
pub struct Rel7 {
    k: i16,
}

impl Model for Rel7 {
    ghost Value = { ℤ };

    ghost view = { λ a. a.k };

    ghost invariant = { λ a. (negsuc 63 ≤ℤ a.k) × (a.k ≤ℤ pos 63) };

    ghost inverse = { λ n. record { k = n } };
}

impl Rel7 {
    /// The distance of this value, None outside -64 to 63.
    pub fn new(k: i16) -> Option<Rel7>
        ensures value { SomeIff result ((negsuc 63 ≤ℤ k) × (k ≤ℤ pos 63)) k }
    {
        if -64 <= k && k <= 63 {
            Some(Rel7 { k })
        } else {
            None
        }
    }

    /// The distance in words, -64 to 63; the target is pc + 1 + k.
    pub fn get(&self) -> i16
        ensures value { result ≡ self.now }
        ensures range { (negsuc 63 ≤ℤ result) × (result ≤ℤ pos 63) }
    {
        self.k
    }
}

/// The distance of RJMP and RCALL, in words from the next instruction, -2048 to 2047.
#[derive(Clone, Copy)]
pub struct Rel12 {
    k: i16,
}

impl Model for Rel12 {
    ghost Value = { ℤ };

    ghost view = { λ a. a.k };

    ghost invariant = { λ a. (negsuc 2047 ≤ℤ a.k) × (a.k ≤ℤ pos 2047) };

    ghost inverse = { λ n. record { k = n } };
}

impl Rel12 {
    /// The distance of this value, None outside -2048 to 2047.
    pub fn new(k: i16) -> Option<Rel12>
        ensures value { SomeIff result ((negsuc 2047 ≤ℤ k) × (k ≤ℤ pos 2047)) k }
    {
        if -2048 <= k && k <= 2047 {
            Some(Rel12 { k })
        } else {
            None
        }
    }

    /// The distance in words, -2048 to 2047; the target is pc + 1 + k.
    pub fn get(&self) -> i16
        ensures value { result ≡ self.now }
        ensures range { (negsuc 2047 ≤ℤ result) × (result ≤ℤ pos 2047) }
    {
        self.k
    }
}
