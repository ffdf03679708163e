//! The micro-operations.

use avr_isa::{Bit, EvenReg, HighReg, PairReg, Reg, Rel7, Rel12, Six};

/// An instruction, decoded, in four bytes (AVR Instruction Set Manual; what its operands are: [`Form`](avr_isa::Form)).
///
/// Its fields stand in memory in this order, so what has two bytes comes last.
///
/// A skip has with it how many words the next instruction has, which it passes over. The addresses of `Lds` and `Sts` are
/// data addresses of SRAM; of the instructions with other addresses none has a variant of its own.
#[derive(Clone, Copy)]
pub enum MicroOp {
    /// Nothing is decoded here yet.
    Undecoded,
    /// An instruction without a variant of its own.
    Other,
    /// NOP
    Nop,
    /// MOVW Rd+1:Rd, Rr+1:Rr
    Movw(EvenReg, EvenReg),
    /// CPC Rd, Rr
    Cpc(Reg, Reg),
    /// SBC Rd, Rr
    Sbc(Reg, Reg),
    /// ADD Rd, Rr
    Add(Reg, Reg),
    /// CP Rd, Rr
    Cp(Reg, Reg),
    /// SUB Rd, Rr
    Sub(Reg, Reg),
    /// ADC Rd, Rr
    Adc(Reg, Reg),
    /// AND Rd, Rr
    And(Reg, Reg),
    /// EOR Rd, Rr
    Eor(Reg, Reg),
    /// OR Rd, Rr
    Or(Reg, Reg),
    /// MOV Rd, Rr
    Mov(Reg, Reg),
    /// MUL Rd, Rr
    Mul(Reg, Reg),
    /// CPI Rd, K
    Cpi(HighReg, u8),
    /// SBCI Rd, K
    Sbci(HighReg, u8),
    /// SUBI Rd, K
    Subi(HighReg, u8),
    /// ORI Rd, K
    Ori(HighReg, u8),
    /// ANDI Rd, K
    Andi(HighReg, u8),
    /// LDI Rd, K
    Ldi(HighReg, u8),
    /// ADIW Rd+1:Rd, K
    Adiw(PairReg, Six),
    /// SBIW Rd+1:Rd, K
    Sbiw(PairReg, Six),
    /// COM Rd
    Com(Reg),
    /// NEG Rd
    Neg(Reg),
    /// SWAP Rd
    Swap(Reg),
    /// INC Rd
    Inc(Reg),
    /// ASR Rd
    Asr(Reg),
    /// LSR Rd
    Lsr(Reg),
    /// ROR Rd
    Ror(Reg),
    /// DEC Rd
    Dec(Reg),
    /// BRBS s, k
    Brbs(Bit, Rel7),
    /// BRBC s, k
    Brbc(Bit, Rel7),
    /// RJMP k
    Rjmp(Rel12),
    /// JMP k
    Jmp(u16),
    /// LDS Rd, k
    Lds(Reg, u16),
    /// STS k, Rr
    Sts(Reg, u16),
    /// LDD Rd, Z+q
    LoadZ(Reg, Six),
    /// STD Z+q, Rr
    StoreZ(Six, Reg),
    /// IN Rd, SREG
    InSreg(Reg),
    /// OUT SREG, Rr
    OutSreg(Reg),
    /// CALL k
    Call(u16),
    /// SBRC Rr, b
    Sbrc(Reg, Bit, u8),
    /// SBRS Rr, b
    Sbrs(Reg, Bit, u8),
    /// CPSE Rd, Rr
    Cpse(Reg, Reg, u8),
    /// BLD Rd, b
    Bld(Reg, Bit),
    /// BST Rr, b
    Bst(Reg, Bit),
    /// BSET s
    Bset(Bit),
    /// BCLR s
    Bclr(Bit),
}
