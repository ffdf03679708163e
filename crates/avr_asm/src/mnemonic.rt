//! What mnemonics stand for.

use avr_isa::{ImmOp, OneOp, ProductOp, TwoOp, WordOp};

/// What a mnemonic stands for: an instruction without its operands, or with some of them.
#[derive(Clone, Copy)]
pub(crate) enum Operation {
    Nop,
    Ret,
    Reti,
    Ijmp,
    Icall,
    Sleep,
    Break,
    Wdr,
    Spm,
    /// SEI and CLI: BSET and BCLR with the flag of this number.
    OneFlag(FlagState, u8),
    /// LPM and ELPM.
    LoadProgram(ProgramAddress),
    One(OneOp),
    Push,
    Pop,
    Movw,
    Muls,
    Cpse,
    Product(ProductOp),
    Two(TwoOp),
    Imm(ImmOp),
    Word(WordOp),
    Lds,
    Sts,
    In,
    Out,
    Bld,
    Bst,
    Sbrc,
    Sbrs,
    Cbi,
    Sbi,
    Sbic,
    Sbis,
    /// BSET and BCLR.
    Flag(FlagState),
    Ld,
    St,
    Ldd,
    Std,
    Jump(Jump),
    /// BRBS and BRBC.
    Branch(FlagState),
    /// A word of the program as it is.
    Data,
}

/// What a flag becomes by BSET or BCLR, and has to be for BRBS or BRBC.
#[derive(Clone, Copy)]
pub(crate) enum FlagState {
    Set,
    Clear,
}

/// Where a load of the program reads.
#[derive(Clone, Copy)]
pub(crate) enum ProgramAddress {
    /// At Z.
    Near,
    /// At RAMPZ:Z.
    Far,
}

/// Instructions that lead to a target.
#[derive(Clone, Copy)]
pub(crate) enum Jump {
    /// BRBS and BRBC with the flag of this number.
    If(FlagState, u8),
    Rjmp,
    Rcall,
    Jmp,
    Call,
}
