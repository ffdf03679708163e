//! Stubs, and calls of the kernel.

ghost use Rattle.std.specs.Prelude.{◌≡◌, ◌≤◌, ◌++◌, if◌then◌else◌, length};
ghost use Rattle.arrayvec.specs.ArrayVec.{array_vec_len};
ghost use Rattle.avr_isa.specs.Crossing.{is_crossing as is_crossing_test};
ghost use Rattle.nat_template.specs.Stubs.{crossing_stub, jump_words, service as service_of, stub as stub_of, words_of};

use crate::entries::QUANTUM;
use crate::piece::{CALL, Piece, written};
use arrayvec::ArrayVec;
use avr_isa::is_crossing;
use flash_words::JMP;
use sram_layout::{COUNT_CELL, R24_CELL, SREG_CELL};

/// STS and LDS, of each the first of its two words.
const STS_R24: u16 = 0x9380;

const LDS_R24: u16 = 0x9180;

const IN_R24_SREG: u16 = 0xB78F;

const OUT_SREG_R24: u16 = 0xBF8F;

const DEC_R24: u16 = 0x958A;

/// BREQ over the next eight words.
const BREQ_8: u16 = 0xF041;

/// One is taken off COUNT, with r24 and SREG kept in their cells; a branch passes over what follows at 0.
const COUNT_DOWN: [Piece; 16] = [
    Piece::Fixed(STS_R24),
    Piece::Fixed(R24_CELL),
    Piece::Fixed(IN_R24_SREG),
    Piece::Fixed(STS_R24),
    Piece::Fixed(SREG_CELL),
    Piece::Fixed(LDS_R24),
    Piece::Fixed(COUNT_CELL),
    Piece::Fixed(DEC_R24),
    Piece::Fixed(STS_R24),
    Piece::Fixed(COUNT_CELL),
    Piece::Fixed(BREQ_8),
    Piece::Fixed(LDS_R24),
    Piece::Fixed(SREG_CELL),
    Piece::Fixed(OUT_SREG_R24),
    Piece::Fixed(LDS_R24),
    Piece::Fixed(R24_CELL),
];

/// A call of the kernel, with the word behind it that the service reads.
pub(crate) fn service(entry: u16, word: u16) -> [Piece; 3]
    ensures pieces { result ≡ service_of entry word }
{
    [Piece::Fixed(CALL), Piece::Fixed(entry), Piece::Fixed(word)]
}

/// The words of the stub for the step from the pc to `t`: a crossing stub exactly where that step goes
/// back, stays, or leaves its page. It closes a page whose last instruction goes on to `t`.
///
/// This is the plain form: the program calls [`stub`].
#[tactic(auto, using(crate::proofs::Sizes::stub_size))]
pub fn closing(pc: u16, t: u16) -> ArrayVec<u16, 22>
    ensures words { result.items ≡ words_of (stub_of pc t) }
    ensures size { array_vec_len result ≡ if is_crossing_test pc t then 22 else 3 }
{
    let mut words = ArrayVec::new();
    words.try_extend_from_slice(&written(&stub(pc, t))).unwrap();
    words
}

/// The two words that take the place of a stub's call of the bridge, once the target has this place, a
/// word address of flash.
pub fn resolved(place: u16) -> [u16; 2]
    ensures words { result ≡ jump_words place }
{
    [JMP, place]
}

/// The pieces of the stub for the step from `from` to `to`.
#[tactic(auto, unfolding(crate::specs::Stubs::stub))]
pub fn stub(from: u16, to: u16) -> ArrayVec<Piece, 20>
    ensures pieces { result.items ≡ stub_of from to }
{
    let mut pieces = ArrayVec::new();
    if is_crossing(from, to) {
        push_crossing(&mut pieces, to);
    } else {
        pieces.push(Piece::Link(to));
    }
    pieces
}

/// How many words it has.
#[tactic(auto, using(crate::proofs::Sizes::stub_size))]
pub fn stub_size(from: u16, to: u16) -> u16
    ensures size { result ≡ length (words_of (stub_of from to)) }
    ensures bounds { (3 ≤ result) × (result ≤ 22) }
{
    if is_crossing(from, to) { 22 } else { 3 }
}

/// The stub that counts a crossing.
#[tactic(auto, unfolding(avr_isa::specs::Encoding::first_word, avr_isa::specs::Encoding::second_word))]
fn push_crossing(pieces: &mut ArrayVec<Piece, 20>, to: u16)
    requires empty { array_vec_len pieces.old ≡ 0 }
    ensures pieces { pieces.new.items ≡ pieces.old.items ++ crossing_stub to }
{
    pieces.try_extend_from_slice(&COUNT_DOWN).unwrap();
    pieces.push(Piece::Link(to));
    pieces.try_extend_from_slice(&service(QUANTUM, to)).unwrap();
}
