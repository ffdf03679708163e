//! The instructions with their operands.
use crate::operand::{Bit, IoAddr, LowIo, Rel7, Rel12, Six};
use crate::operation::{Base, ImmOp, OneOp, ProductOp, Ptr, TwoOp, WordOp};
use crate::register::{EvenReg, HighReg, MidReg, PairReg, Reg};

/// An instruction of the ATmega128 with its operands, in the order of the assembler's text: the
/// destination first (AVR Instruction Set Manual, "Operands" of each instruction).
///
/// Targets `Jmp` and `Call` name a word of flash; a relative target is pc + 1 + k. Addresses of `Lds`
/// and `Sts` are data addresses.
#[derive(Clone, Copy)]
pub enum Form {
    /// NOP
    Nop,
    /// MOVW Rd+1:Rd, Rr+1:Rr
    Movw(EvenReg, EvenReg),
    /// MULS Rd, Rr
    Muls(HighReg, HighReg),
    /// MULSU, FMUL, FMULS, FMULSU Rd, Rr
    Product(ProductOp, MidReg, MidReg),
    /// ADD, ADC, SUB, SBC, CP, CPC, AND, OR, EOR, MOV, MUL Rd, Rr
    Two(TwoOp, Reg, Reg),
    /// CPSE Rd, Rr
    Cpse(Reg, Reg),
    /// CPI, SUBI, SBCI, ANDI, ORI, LDI Rd, K
    Imm(ImmOp, HighReg, u8),
    /// ADIW, SBIW Rd+1:Rd, K
    Word(WordOp, PairReg, Six),
    /// COM, NEG, SWAP, INC, DEC, ASR, LSR, ROR Rd
    One(OneOp, Reg),
    /// LDD Rd, Y+q or Z+q; LD Rd, Y or Z where q is 0
    LoadOff(Reg, Base, Six),
    /// STD Y+q or Z+q, Rr; ST Y or Z, Rr where q is 0
    StoreOff(Base, Six, Reg),
    /// LD Rd with X, or with a pointer that changes
    LoadAt(Reg, Ptr),
    /// ST Rr with X, or with a pointer that changes
    StoreAt(Ptr, Reg),
    /// LDS Rd, k, of two words
    Lds(Reg, u16),
    /// STS k, Rr, of two words
    Sts(u16, Reg),
    /// POP Rd
    Pop(Reg),
    /// PUSH Rr
    Push(Reg),
    /// LPM without operands: r0 from Z
    Lpm0,
    /// ELPM without operands: r0 from RAMPZ:Z
    Elpm0,
    /// LPM Rd, Z, or LPM Rd, Z+ where the bool is true
    Lpm(Reg, bool),
    /// ELPM Rd, Z, or ELPM Rd, Z+ where the bool is true
    Elpm(Reg, bool),
    /// IN Rd, A
    InIo(Reg, IoAddr),
    /// OUT A, Rr
    OutIo(IoAddr, Reg),
    /// CBI A, b
    Cbi(LowIo, Bit),
    /// SBIC A, b
    Sbic(LowIo, Bit),
    /// SBI A, b
    Sbi(LowIo, Bit),
    /// SBIS A, b
    Sbis(LowIo, Bit),
    /// BLD Rd, b
    Bld(Reg, Bit),
    /// BST Rd, b
    Bst(Reg, Bit),
    /// SBRC Rr, b
    Sbrc(Reg, Bit),
    /// SBRS Rr, b
    Sbrs(Reg, Bit),
    /// BSET s: SEC, SEZ, SEN, SEV, SES, SEH, SET, SEI
    Bset(Bit),
    /// BCLR s: CLC, CLZ, CLN, CLV, CLS, CLH, CLT, CLI
    Bclr(Bit),
    /// BRBS s, k: BREQ and BRLO (BRCS) are this with s = 1 and s = 0
    Brbs(Bit, Rel7),
    /// BRBC s, k: BRNE and BRSH (BRCC) are this with s = 1 and s = 0
    Brbc(Bit, Rel7),
    /// RJMP k
    Rjmp(Rel12),
    /// RCALL k
    Rcall(Rel12),
    /// JMP k, of two words
    Jmp(u16),
    /// CALL k, of two words
    Call(u16),
    /// IJMP
    Ijmp,
    /// ICALL
    Icall,
    /// RET
    Ret,
    /// RETI
    Reti,
    /// SLEEP
    Sleep,
    /// BREAK
    Break,
    /// WDR
    Wdr,
    /// SPM
    Spm,
}
