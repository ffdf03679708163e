//! The operands in an instruction's word, by their bits.
ghost use Rattle.std.specs.Prelude.{◌≡◌, ◌+◌, ◌*◌, ◌%◌};
ghost use Rattle.avr_decode.specs.Decoding.{bit_of, branch_of, constant_of, destination_of, displacement_of, io_of, jump_of, low_io_of, mid_source_of, pair_of, six_bits_of, source_of};

use avr_isa::{Bit, EvenReg, HighReg, IoAddr, LowIo, MidReg, PairReg, Reg, Rel7, Rel12, Six};

// .... ...d dddd ....
pub(crate) fn destination(w: u16) -> Reg
    ensures value { result ≡ destination_of w }
{
    Reg::new((w >> 4 & 0x1F) as u8).unwrap()
}

// .... ..r. .... rrrr
pub(crate) fn source(w: u16) -> Reg
    ensures value { result ≡ source_of w }
{
    Reg::new((16 * (w >> 9 & 1) + (w & 0xF)) as u8).unwrap()
}

// .... .... .... rrrr
pub(crate) fn even_register(w: u16) -> EvenReg
    ensures value { result ≡ 2 * (w % 16) }
{
    EvenReg::new((2 * (w & 0xF)) as u8).unwrap()
}

// .... .... .... rrrr
pub(crate) fn high_register(w: u16) -> HighReg
    ensures value { result ≡ 16 + w % 16 }
{
    HighReg::new((16 + (w & 0xF)) as u8).unwrap()
}

// .... .... .... .rrr
pub(crate) fn mid_register(w: u16) -> MidReg
    ensures value { result ≡ mid_source_of w }
{
    MidReg::new((16 + (w & 7)) as u8).unwrap()
}

// .... KKKK .... KKKK
pub(crate) fn constant(w: u16) -> u8
    ensures value { result ≡ constant_of w }
{
    (16 * (w >> 8 & 0xF) + (w & 0xF)) as u8
}

// .... .... ..dd ....
pub(crate) fn register_pair(w: u16) -> PairReg
    ensures value { result ≡ pair_of w }
{
    PairReg::new((24 + 2 * (w >> 4 & 3)) as u8).unwrap()
}

// .... .... KK.. KKKK
pub(crate) fn six_bits(w: u16) -> Six
    ensures value { result ≡ six_bits_of w }
{
    Six::new((16 * (w >> 6 & 3) + (w & 0xF)) as u8).unwrap()
}

// ..q. qq.. .... .qqq
pub(crate) fn displacement(w: u16) -> Six
    ensures value { result ≡ displacement_of w }
{
    Six::new((32 * (w >> 13 & 1) + (8 * (w >> 10 & 3) + (w & 7))) as u8).unwrap()
}

// .... .AA. .... AAAA
pub(crate) fn io_address(w: u16) -> IoAddr
    ensures value { result ≡ io_of w }
{
    IoAddr::new((16 * (w >> 9 & 3) + (w & 0xF)) as u8).unwrap()
}

// .... .... AAAA A...
pub(crate) fn low_io_address(w: u16) -> LowIo
    ensures value { result ≡ low_io_of w }
{
    LowIo::new((w >> 3 & 0x1F) as u8).unwrap()
}

// .... .... .... .bbb
pub(crate) fn bit(w: u16) -> Bit
    ensures value { result ≡ bit_of w }
{
    Bit::new((w & 7) as u8).unwrap()
}

// .... ..kk kkkk k...
pub(crate) fn branch_distance(w: u16) -> Rel7
    ensures value { result ≡ branch_of w }
{
    let k = (w >> 3 & 0x7F) as i16;
    Rel7::new(if k < 64 { k } else { k - 128 }).unwrap()
}

// .... kkkk kkkk kkkk
pub(crate) fn jump_distance(w: u16) -> Rel12
    ensures value { result ≡ jump_of w }
{
    let k = (w & 0xFFF) as i16;
    Rel12::new(if k < 2048 { k } else { k - 4096 }).unwrap()
}
