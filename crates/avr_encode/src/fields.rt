//! The first words of opcodes, which have 0 for the bits of the operands: each operand at the places of its bits.
ghost use Rattle.std.specs.Prelude.{◌≡◌, ◌≤◌};
ghost use Rattle.avr_isa.specs.InstructionTable.{flag, flag_and_branch, high_register_and_byte, io_and_bit, jump as jump_row, one_register, pair_and_six_bits, register_and_bit, register_and_displacement, register_and_io, two_high_registers, two_pairs, two_registers};

use avr_isa::{Bit, EvenReg, HighReg, IoAddr, LowIo, MidReg, PairReg, Reg, Rel7, Rel12, Six};

// .... ..rd dddd rrrr
pub(crate) fn registers(opcode: u16, d: &Reg, r: &Reg) -> u16
    requires room { opcode ≤ 0xFC00 }
    ensures value { result ≡ (two_registers opcode d.now r.now).first }
{
    let d = u16::from(d.get());
    let r = u16::from(r.get());
    opcode + (512 * (r >> 4) + (d << 4) + (r & 0xF))
}

// .... .... dddd rrrr
pub(crate) fn register_pairs(opcode: u16, d: &EvenReg, r: &EvenReg) -> u16
    requires room { opcode ≤ 0xFF00 }
    ensures value { result ≡ (two_pairs opcode d.now r.now).first }
{
    let d = u16::from(d.get());
    let r = u16::from(r.get());
    opcode + (16 * (d >> 1) + (r >> 1))
}

// .... .... dddd rrrr
pub(crate) fn high_registers(opcode: u16, d: &HighReg, r: &HighReg) -> u16
    requires room { opcode ≤ 0xFF00 }
    ensures value { result ≡ (two_high_registers 32 opcode d.now r.now).first }
{
    let d = u16::from(d.get());
    let r = u16::from(r.get());
    opcode + (16 * (d - 16) + (r - 16))
}

// .... .... .ddd .rrr
pub(crate) fn mid_registers(opcode: u16, d: &MidReg, r: &MidReg) -> u16
    requires room { opcode ≤ 0xFF88 }
    ensures value { result ≡ (two_high_registers 24 opcode d.now r.now).first }
{
    let d = u16::from(d.get());
    let r = u16::from(r.get());
    opcode + (16 * (d - 16) + (r - 16))
}

// .... KKKK dddd KKKK
pub(crate) fn high_register_with(opcode: u16, d: &HighReg, k: u8) -> u16
    requires room { opcode ≤ 0xF000 }
    ensures value { result ≡ (high_register_and_byte opcode d.now k).first }
{
    let d = u16::from(d.get());
    let k = u16::from(k);
    opcode + (256 * (k >> 4) + 16 * (d - 16) + (k & 0xF))
}

// .... .... KKdd KKKK
pub(crate) fn pair_with(opcode: u16, p: &PairReg, k: &Six) -> u16
    requires room { opcode ≤ 0xFF00 }
    ensures value { result ≡ (pair_and_six_bits opcode p.now k.now).first }
{
    let p = u16::from(p.get());
    let k = u16::from(k.get());
    opcode + (64 * (k >> 4) + 16 * ((p - 24) >> 1) + (k & 0xF))
}

// .... ...d dddd ....
pub(crate) fn register(opcode: u16, d: &Reg) -> u16
    requires room { opcode ≤ 0xFE00 }
    ensures value { result ≡ (one_register opcode d.now).first }
{
    opcode + (u16::from(d.get()) << 4)
}

// ..q. qq.d dddd .qqq
pub(crate) fn displaced(opcode: u16, d: &Reg, q: &Six) -> u16
    requires room { opcode ≤ 0xD200 }
    ensures value { result ≡ (register_and_displacement opcode d.now q.now).first }
{
    let d = u16::from(d.get());
    let q = u16::from(q.get());
    opcode + (8192 * (q >> 5) + 1024 * (q >> 3 & 3) + (d << 4) + (q & 7))
}

// .... .AAd dddd AAAA
pub(crate) fn register_with_io(opcode: u16, d: &Reg, a: &IoAddr) -> u16
    requires room { opcode ≤ 0xF800 }
    ensures value { result ≡ (register_and_io opcode d.now a.now).first }
{
    let d = u16::from(d.get());
    let a = u16::from(a.get());
    opcode + (512 * (a >> 4) + (d << 4) + (a & 0xF))
}

// .... .... AAAA Abbb
pub(crate) fn io_bit(opcode: u16, a: &LowIo, b: &Bit) -> u16
    requires room { opcode ≤ 0xFF00 }
    ensures value { result ≡ (io_and_bit opcode a.now b.now).first }
{
    let a = u16::from(a.get());
    let b = u16::from(b.get());
    opcode + ((a << 3) + b)
}

// .... ...d dddd .bbb
pub(crate) fn register_bit(opcode: u16, d: &Reg, b: &Bit) -> u16
    requires room { opcode ≤ 0xFE00 }
    ensures value { result ≡ (register_and_bit opcode d.now b.now).first }
{
    let d = u16::from(d.get());
    let b = u16::from(b.get());
    opcode + ((d << 4) + b)
}

// .... .... .sss ....
pub(crate) fn flag_place(opcode: u16, s: &Bit) -> u16
    requires room { opcode ≤ 0xFF80 }
    ensures value { result ≡ (flag opcode s.now).first }
{
    opcode + (u16::from(s.get()) << 4)
}

// .... ..kk kkkk ksss
pub(crate) fn branch(opcode: u16, s: &Bit, k: &Rel7) -> u16
    requires room { opcode ≤ 0xFC00 }
    ensures value { result ≡ (flag_and_branch opcode s.now k.now).first }
{
    let k = k.get();
    let distance = if k < 0 { (k + 128) as u16 } else { k as u16 };
    opcode + ((distance << 3) + u16::from(s.get()))
}

// .... kkkk kkkk kkkk
pub(crate) fn jump(opcode: u16, k: &Rel12) -> u16
    requires room { opcode ≤ 0xF000 }
    ensures value { result ≡ (jump_row opcode k.now).first }
{
    let k = k.get();
    let distance = if k < 0 { (k + 4096) as u16 } else { k as u16 };
    opcode + distance
}
