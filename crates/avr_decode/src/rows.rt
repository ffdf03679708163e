//! The instructions by the bits of their first word (AVR Instruction Set Manual, "16-bit Opcode").
ghost use Rattle.std.specs.Prelude.{◌≡◌, Some};
ghost use Rattle.avr_decode.specs.Decoding.{displaced_form, form_0000, flag_or_plain_form, io_bit_form, io_form, form_1111, load_form, move_or_product_form, one_register_form, one_word_form, plain_form, product_form, register_bit_form, register_or_pair_form, form_0001, store_form, form_1001, form_0010, transfer_form, two_of, two_word_form};

use crate::fields::{
    bit, branch_distance, constant, destination, displacement, even_register, high_register,
    io_address, jump_distance, low_io_address, mid_register, register_pair, six_bits, source,
};
use avr_isa::{Base, Form, ImmOp, OneOp, ProductOp, Ptr, TwoOp, WordOp};

// Every instruction of one word.
#[tactic(auto, unfolding(crate::specs::Decoding::one_word_form))]
pub(crate) fn one_word(w: u16) -> Option<Form>
    ensures value { result ≡ one_word_form w }
{
    let op = match w >> 12 {
        0 => return leading_0000(w),
        1 => return leading_0001(w),
        2 => return leading_0010(w),
        3 => ImmOp::Cpi,
        4 => ImmOp::Sbci,
        5 => ImmOp::Subi,
        6 => ImmOp::Ori,
        7 => ImmOp::Andi,
        8 | 10 => return displaced(w),
        9 => return leading_1001(w),
        11 => return input_or_output(w),
        12 => return Some(Form::Rjmp(jump_distance(w))),
        13 => return Some(Form::Rcall(jump_distance(w))),
        14 => ImmOp::Ldi,
        _ => return leading_1111(w),
    };
    Some(Form::Imm(op, high_register(w >> 4), constant(w)))
}

// The instruction of two words whose first is LDS, STS, JMP or CALL.
#[tactic(auto, unfolding(crate::specs::Decoding::two_word_form))]
pub(crate) fn two_word(w: u16, a: u16) -> Form
    ensures value { result ≡ two_word_form w a }
{
    match w {
        0x940C => Form::Jmp(a),
        0x940E => Form::Call(a),
        _ if w >> 9 & 1 == 0 => Form::Lds(destination(w), a),
        _ => Form::Sts(a, destination(w)),
    }
}

fn two(op: TwoOp, w: u16) -> Option<Form>
    ensures value { result ≡ Some (two_of op w) }
{
    Some(Form::Two(op, destination(w), source(w)))
}

// 0000
#[tactic(auto, unfolding(crate::specs::Decoding::form_0000))]
fn leading_0000(w: u16) -> Option<Form>
    ensures value { result ≡ form_0000 w }
{
    let op = match w >> 10 & 3 {
        0 => return move_or_product(w),
        1 => TwoOp::Cpc,
        2 => TwoOp::Sbc,
        _ => TwoOp::Add,
    };
    two(op, w)
}

// 0000 00
#[tactic(auto, unfolding(crate::specs::Decoding::move_or_product_form))]
fn move_or_product(w: u16) -> Option<Form>
    ensures value { result ≡ move_or_product_form w }
{
    match w >> 8 & 3 {
        1 => Some(Form::Movw(even_register(w >> 4), even_register(w))),
        2 => Some(Form::Muls(high_register(w >> 4), high_register(w))),
        3 => product(w),
        _ if w == 0 => Some(Form::Nop),
        _ => None,
    }
}

// 0000 0011
#[tactic(auto, unfolding(crate::specs::Decoding::product_form))]
fn product(w: u16) -> Option<Form>
    ensures value { result ≡ product_form w }
{
    let op = match (w >> 7 & 1, w >> 3 & 1) {
        (0, 0) => ProductOp::Mulsu,
        (0, _) => ProductOp::Fmul,
        (_, 0) => ProductOp::Fmuls,
        _ => ProductOp::Fmulsu,
    };
    Some(Form::Product(op, mid_register(w >> 4), mid_register(w)))
}

// 0001
#[tactic(auto, unfolding(crate::specs::Decoding::form_0001))]
fn leading_0001(w: u16) -> Option<Form>
    ensures value { result ≡ form_0001 w }
{
    let op = match w >> 10 & 3 {
        0 => return Some(Form::Cpse(destination(w), source(w))),
        1 => TwoOp::Cp,
        2 => TwoOp::Sub,
        _ => TwoOp::Adc,
    };
    two(op, w)
}

// 0010
#[tactic(auto, unfolding(crate::specs::Decoding::form_0010))]
fn leading_0010(w: u16) -> Option<Form>
    ensures value { result ≡ form_0010 w }
{
    let op = match w >> 10 & 3 {
        0 => TwoOp::And,
        1 => TwoOp::Eor,
        2 => TwoOp::Or,
        _ => TwoOp::Mov,
    };
    two(op, w)
}

// 10q0
#[tactic(auto, unfolding(crate::specs::Decoding::displaced_form))]
fn displaced(w: u16) -> Option<Form>
    ensures value { result ≡ displaced_form w }
{
    let r = destination(w);
    let q = displacement(w);
    let base = if w >> 3 & 1 == 0 { Base::Z } else { Base::Y };
    if w >> 9 & 1 == 0 {
        Some(Form::LoadOff(r, base, q))
    } else {
        Some(Form::StoreOff(base, q, r))
    }
}

// 1001
#[tactic(auto, unfolding(crate::specs::Decoding::form_1001))]
fn leading_1001(w: u16) -> Option<Form>
    ensures value { result ≡ form_1001 w }
{
    match w >> 10 & 3 {
        0 => transfer(w),
        1 => register_or_pair(w),
        2 => io_bit(w),
        _ => two(TwoOp::Mul, w),
    }
}

// 1001 00
#[tactic(auto, unfolding(crate::specs::Decoding::transfer_form))]
fn transfer(w: u16) -> Option<Form>
    ensures value { result ≡ transfer_form w }
{
    if w >> 9 & 1 == 0 { load(w) } else { store(w) }
}

// 1001 000
#[tactic(auto, unfolding(crate::specs::Decoding::load_form))]
fn load(w: u16) -> Option<Form>
    ensures value { result ≡ load_form w }
{
    let d = destination(w);
    let pointer = match w & 0xF {
        1 => Ptr::ZInc,
        2 => Ptr::ZDec,
        4 => return Some(Form::Lpm(d, false)),
        5 => return Some(Form::Lpm(d, true)),
        6 => return Some(Form::Elpm(d, false)),
        7 => return Some(Form::Elpm(d, true)),
        9 => Ptr::YInc,
        10 => Ptr::YDec,
        12 => Ptr::X,
        13 => Ptr::XInc,
        14 => Ptr::XDec,
        15 => return Some(Form::Pop(d)),
        _ => return None,
    };
    Some(Form::LoadAt(d, pointer))
}

// 1001 001
#[tactic(auto, unfolding(crate::specs::Decoding::store_form))]
fn store(w: u16) -> Option<Form>
    ensures value { result ≡ store_form w }
{
    let r = destination(w);
    let pointer = match w & 0xF {
        1 => Ptr::ZInc,
        2 => Ptr::ZDec,
        9 => Ptr::YInc,
        10 => Ptr::YDec,
        12 => Ptr::X,
        13 => Ptr::XInc,
        14 => Ptr::XDec,
        15 => return Some(Form::Push(r)),
        _ => return None,
    };
    Some(Form::StoreAt(pointer, r))
}

// 1001 01
#[tactic(auto, unfolding(crate::specs::Decoding::register_or_pair_form))]
fn register_or_pair(w: u16) -> Option<Form>
    ensures value { result ≡ register_or_pair_form w }
{
    match w >> 8 & 3 {
        2 => Some(Form::Word(WordOp::Adiw, register_pair(w), six_bits(w))),
        3 => Some(Form::Word(WordOp::Sbiw, register_pair(w), six_bits(w))),
        _ => one_register(w),
    }
}

// 1001 010
#[tactic(auto, unfolding(crate::specs::Decoding::one_register_form))]
fn one_register(w: u16) -> Option<Form>
    ensures value { result ≡ one_register_form w }
{
    let op = match w & 0xF {
        0 => OneOp::Com,
        1 => OneOp::Neg,
        2 => OneOp::Swap,
        3 => OneOp::Inc,
        5 => OneOp::Asr,
        6 => OneOp::Lsr,
        7 => OneOp::Ror,
        10 => OneOp::Dec,
        8 => return flag_or_plain(w),
        _ if w == 0x9409 => return Some(Form::Ijmp),
        _ if w == 0x9509 => return Some(Form::Icall),
        _ => return None,
    };
    Some(Form::One(op, destination(w)))
}

// 1001 010. .... 1000
#[tactic(auto, unfolding(crate::specs::Decoding::flag_or_plain_form))]
fn flag_or_plain(w: u16) -> Option<Form>
    ensures value { result ≡ flag_or_plain_form w }
{
    let s = bit(w >> 4);
    match w >> 7 & 3 {
        0 => Some(Form::Bset(s)),
        1 => Some(Form::Bclr(s)),
        _ => plain(w),
    }
}

// 1001 0101 .... 1000
#[tactic(auto, unfolding(crate::specs::Decoding::plain_form))]
fn plain(w: u16) -> Option<Form>
    ensures value { result ≡ plain_form w }
{
    Some(match w >> 4 & 0xF {
        0 => Form::Ret,
        1 => Form::Reti,
        8 => Form::Sleep,
        9 => Form::Break,
        10 => Form::Wdr,
        12 => Form::Lpm0,
        13 => Form::Elpm0,
        14 => Form::Spm,
        _ => return None,
    })
}

// 1001 10
#[tactic(auto, unfolding(crate::specs::Decoding::io_bit_form))]
fn io_bit(w: u16) -> Option<Form>
    ensures value { result ≡ io_bit_form w }
{
    let a = low_io_address(w);
    let b = bit(w);
    Some(match w >> 8 & 3 {
        0 => Form::Cbi(a, b),
        1 => Form::Sbic(a, b),
        2 => Form::Sbi(a, b),
        _ => Form::Sbis(a, b),
    })
}

// 1011
#[tactic(auto, unfolding(crate::specs::Decoding::io_form))]
fn input_or_output(w: u16) -> Option<Form>
    ensures value { result ≡ io_form w }
{
    if w >> 11 & 1 == 0 {
        Some(Form::InIo(destination(w), io_address(w)))
    } else {
        Some(Form::OutIo(io_address(w), destination(w)))
    }
}

// 1111
#[tactic(auto, unfolding(crate::specs::Decoding::form_1111))]
fn leading_1111(w: u16) -> Option<Form>
    ensures value { result ≡ form_1111 w }
{
    let b = bit(w);
    let k = branch_distance(w);
    match w >> 10 & 3 {
        0 => Some(Form::Brbs(b, k)),
        1 => Some(Form::Brbc(b, k)),
        _ => register_bit(w),
    }
}

// 1111 1
#[tactic(auto, unfolding(crate::specs::Decoding::register_bit_form))]
fn register_bit(w: u16) -> Option<Form>
    ensures value { result ≡ register_bit_form w }
{
    let r = destination(w);
    let b = bit(w);
    Some(match w >> 9 & 3 {
        _ if w >> 3 & 1 == 1 => return None,
        0 => Form::Bld(r, b),
        1 => Form::Bst(r, b),
        2 => Form::Sbrc(r, b),
        _ => Form::Sbrs(r, b),
    })
}
