//! The operations that share a form, in the order of their codes, and the pointers.

/// The multiplications of two registers of r16 to r23.
#[derive(Clone, Copy)]
pub enum ProductOp {
    /// Signed by unsigned.
    Mulsu,
    /// Fractional, unsigned.
    Fmul,
    /// Fractional, signed.
    Fmuls,
    /// Fractional, signed by unsigned.
    Fmulsu,
}

/// The operations on two registers of r0 to r31.
#[derive(Clone, Copy)]
pub enum TwoOp {
    Cpc,
    Sbc,
    Add,
    Cp,
    Sub,
    Adc,
    And,
    Eor,
    Or,
    Mov,
    Mul,
}

/// The operations on a register of r16 to r31 and a constant.
#[derive(Clone, Copy)]
pub enum ImmOp {
    Cpi,
    Sbci,
    Subi,
    Ori,
    Andi,
    Ldi,
}

/// The operations on a register pair and a constant.
#[derive(Clone, Copy)]
pub enum WordOp {
    Adiw,
    Sbiw,
}

/// The operations on one register.
#[derive(Clone, Copy)]
pub enum OneOp {
    Com,
    Neg,
    Swap,
    Inc,
    Asr,
    Lsr,
    Ror,
    Dec,
}

/// The base of a load or store with displacement: Y is r29:r28, Z is r31:r30.
#[derive(Clone, Copy)]
pub enum Base {
    Y,
    Z,
}

/// How a load or store uses its pointer: X is r27:r26, Y is r29:r28, Z is r31:r30.
#[derive(Clone, Copy)]
pub enum Ptr {
    /// `Z+`: Z is raised by one after the access.
    ZInc,
    /// `-Z`: Z is lowered by one before the access.
    ZDec,
    /// `Y+`
    YInc,
    /// `-Y`
    YDec,
    /// `X`, which stays.
    X,
    /// `X+`
    XInc,
    /// `-X`
    XDec,
}
