//! The five ranges of registers that an instruction's field may name.
ghost use Rattle.std.specs.Prelude.{◌≡◌, ℕ, ◌<◌, ◌≤◌, ◌%◌, SomeIff};

use std::marker::Model;

/// One of the 32 general purpose registers, r0 to r31.
#[derive(Clone, Copy)]
pub struct Reg {
    v: u8,
}

impl Model for Reg {
    ghost Value = { ℕ };

    ghost view = { λ a. a.v };

    ghost invariant = { λ a. a.v < 32 };

    ghost inverse = { λ n. record { v = n } };
}

impl Reg {
    /// The register of this number, None above 31.
    pub fn new(v: u8) -> Option<Reg>
        ensures value { SomeIff result (v < 32) v }
    {
        if v < 32 { Some(Reg { v }) } else { None }
    }

    /// The register's number, 0 to 31.
    pub fn get(&self) -> u8
        ensures value { result ≡ self.now }
        ensures range { result < 32 }
    {
        self.v
    }
}

/// The low register of a pair that MOVW copies: r0, r2, .. or r30.
#[derive(Clone, Copy)]
pub struct EvenReg {
    v: u8,
}

impl Model for EvenReg {
    ghost Value = { ℕ };

    ghost view = { λ a. a.v };

    ghost invariant = { λ a. (a.v < 32) × (a.v % 2 ≡ 0) };

    ghost inverse = { λ n. record { v = n } };
}

impl EvenReg {
    /// The register of this number, None where it is odd or above 30.
    pub fn new(v: u8) -> Option<EvenReg>
        ensures value { SomeIff result ((v < 32) × (v % 2 ≡ 0)) v }
    {
        if v < 32 && v % 2 == 0 {
            Some(EvenReg { v })
        } else {
            None
        }
    }

    /// The register's number, an even one from 0 to 30.
    pub fn get(&self) -> u8
        ensures value { result ≡ self.now }
        ensures range { (result < 32) × (result % 2 ≡ 0) }
    {
        self.v
    }
}

/// An upper register, r16 to r31, as the instructions with an immediate operand and MULS take it.
#[derive(Clone, Copy)]
pub struct HighReg {
    v: u8,
}

impl Model for HighReg {
    ghost Value = { ℕ };

    ghost view = { λ a. a.v };

    ghost invariant = { λ a. (16 ≤ a.v) × (a.v < 32) };

    ghost inverse = { λ n. record { v = n } };
}

impl HighReg {
    /// The register of this number, None outside 16 to 31.
    pub fn new(v: u8) -> Option<HighReg>
        ensures value { SomeIff result ((16 ≤ v) × (v < 32)) v }
    {
        if 16 <= v && v < 32 {
            Some(HighReg { v })
        } else {
            None
        }
    }

    /// The register's number, 16 to 31.
    pub fn get(&self) -> u8
        ensures value { result ≡ self.now }
        ensures range { (16 ≤ result) × (result < 32) }
    {
        self.v
    }
}

/// One of r16 to r23, the operands of MULSU and of the fractional multiplications.
#[derive(Clone, Copy)]
pub struct MidReg {
    v: u8,
}

impl Model for MidReg {
    ghost Value = { ℕ };

    ghost view = { λ a. a.v };

    ghost invariant = { λ a. (16 ≤ a.v) × (a.v < 24) };

    ghost inverse = { λ n. record { v = n } };
}

impl MidReg {
    /// The register of this number, None outside 16 to 23.
    pub fn new(v: u8) -> Option<MidReg>
        ensures value { SomeIff result ((16 ≤ v) × (v < 24)) v }
    {
        if 16 <= v && v < 24 {
            Some(MidReg { v })
        } else {
            None
        }
    }

    /// The register's number, 16 to 23.
    pub fn get(&self) -> u8
        ensures value { result ≡ self.now }
        ensures range { (16 ≤ result) × (result < 24) }
    {
        self.v
    }
}

/// The low register of a pair that ADIW and SBIW change: r24, r26, r28 or r30.
#[derive(Clone, Copy)]
pub struct PairReg {
    v: u8,
}

impl Model for PairReg {
    ghost Value = { ℕ };

    ghost view = { λ a. a.v };

    ghost invariant = { λ a. (24 ≤ a.v) × (a.v < 32) × (a.v % 2 ≡ 0) };

    ghost inverse = { λ n. record { v = n } };
}

impl PairReg {
    /// The register of this number, None unless it is 24, 26, 28 or 30.
    pub fn new(v: u8) -> Option<PairReg>
        ensures value { SomeIff result ((24 ≤ v) × (v < 32) × (v % 2 ≡ 0)) v }
    {
        if 24 <= v && v < 32 && v % 2 == 0 {
            Some(PairReg { v })
        } else {
            None
        }
    }

    /// The register's number: 24, 26, 28 or 30.
    pub fn get(&self) -> u8
        ensures value { result ≡ self.now }
        ensures range { (24 ≤ result) × (result < 32) × (result % 2 ≡ 0) }
    {
        self.v
    }
}
