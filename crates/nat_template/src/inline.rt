//! The words that do what a call of MEM does, for an address in the stack window.

ghost use Rattle.std.specs.Prelude.{◌≡◌, ◌≤◌, ◌+◌, ◌++◌, ◌∷◌, [], length};
ghost use Rattle.nat_template.specs.Inline.{back, guard as guard_of, load_forms, pop_forms, push_forms, save, store_forms, trap};
ghost use Rattle.nat_template.specs.Words.{words_of_forms};

use crate::entries::MEM;
use crate::piece::CALL;
use arrayvec::ArrayVec;
use avr_isa::{Form, Reg, Six, WordOp};
use sram_layout::{SREG_CELL, VSP_CELL, Z_CELL};

/// The program's stack pointer, its low byte and its high one.
const SPL: u16 = VSP_CELL;

const SPH: u16 = VSP_CELL + 1;

/// Its Z, so too.
const Z0: u16 = Z_CELL;

const Z1: u16 = Z_CELL + 1;

/// STS and LDS, of each the first of its two words.
const STS_R30: u16 = 0x93E0;

const STS_R31: u16 = 0x93F0;

const LDS_R30: u16 = 0x91E0;

const LDS_R31: u16 = 0x91F0;

const IN_R30_SREG: u16 = 0xB7EF;

const OUT_SREG_R30: u16 = 0xBFEF;

/// ST and LD with Z, of r0.
const ST_Z: u16 = 0x8200;

const LD_Z: u16 = 0x8000;

const MOVW_R30_R28: u16 = 0x01FE;

/// ADIW and SBIW with 0.
const ADIW_R30: u16 = 0x9630;

const SBIW_R30: u16 = 0x9730;

const CPI_R31_0D: u16 = 0x30FD;

const CPI_R31_11: u16 = 0x31F1;

/// BRLO and BRSH over no word.
const BRLO: u16 = 0xF000;

const BRSH: u16 = 0xF400;

/// RJMP over ten words: the trap, and the pc behind it.
const RJMP_10: u16 = 0xC00A;

/// Z and SREG into their cells.
const SAVE: [u16; 7] = [STS_R30, Z0, STS_R31, Z1, IN_R30_SREG, STS_R30, SREG_CELL];

/// Z and SREG from their cells.
const RESTORE: [u16; 7] = [LDS_R30, SREG_CELL, OUT_SREG_R30, LDS_R30, Z0, LDS_R31, Z1];

/// PUSH r, where r is none of Z's: these words use Z themselves, as those of the three below.
#[tactic(auto, unfolding(avr_isa::specs::Encoding::first_word, avr_isa::specs::Encoding::second_word, crate::specs::Inline::push_forms))]
pub(crate) fn push_words(r: Reg) -> ArrayVec<u16, 38>
    ensures words { result.items ≡ words_of_forms (push_forms r) }
{
    let store = ST_Z + 16 * u16::from(r.get());
    let pointer = [LDS_R30, SPL, LDS_R31, SPH];
    let access = [store, SBIW_R30 + 1, STS_R30, SPL, STS_R31, SPH];
    guarded(&pointer, &access)
}

/// POP d.
#[tactic(auto, unfolding(avr_isa::specs::Encoding::first_word, avr_isa::specs::Encoding::second_word, crate::specs::Inline::pop_forms))]
pub(crate) fn pop_words(d: Reg) -> ArrayVec<u16, 38>
    ensures words { result.items ≡ words_of_forms (pop_forms d) }
{
    let load = LD_Z + 16 * u16::from(d.get());
    let pointer = [LDS_R30, SPL, LDS_R31, SPH, ADIW_R30 + 1];
    let access = [load, STS_R30, SPL, STS_R31, SPH];
    guarded(&pointer, &access)
}

/// LDD d, Y+q.
#[tactic(auto, unfolding(avr_isa::specs::Encoding::first_word, avr_isa::specs::Encoding::second_word, crate::specs::Inline::load_forms))]
pub(crate) fn load_words(d: Reg, q: Six) -> ArrayVec<u16, 38>
    ensures words { result.items ≡ words_of_forms (load_forms d q) }
{
    let load = LD_Z + 16 * u16::from(d.get());
    guarded(&behind_y(q), &[load])
}

/// STD Y+q, r.
#[tactic(auto, unfolding(avr_isa::specs::Encoding::first_word, avr_isa::specs::Encoding::second_word, crate::specs::Inline::store_forms))]
pub(crate) fn store_words(q: Six, r: Reg) -> ArrayVec<u16, 38>
    ensures words { result.items ≡ words_of_forms (store_forms q r) }
{
    let store = ST_Z + 16 * u16::from(r.get());
    guarded(&behind_y(q), &[store])
}

/// Y+q into Z.
#[tactic(auto, unfolding(avr_isa::specs::Encoding::first_word, avr_isa::specs::Encoding::second_word))]
fn behind_y(q: Six) -> [u16; 2]
    ensures words { result ≡ words_of_forms (Form.Movw 30 28 ∷ Form.Word WordOp.Adiw 30 q ∷ []) }
{
    let q = u16::from(q.get());
    [MOVW_R30_R28, ADIW_R30 + 64 * (q / 16) + q % 16]
}

/// The words that bring the address into Z, and behind the guard those of the access, between what all
/// templates begin and end with.
#[tactic(auto, unfolding(avr_isa::specs::Encoding::first_word, avr_isa::specs::Encoding::second_word))]
fn guarded(pointer: &[u16], access: &[u16]) -> ArrayVec<u16, 38>
    requires room { length pointer.now + length access.now ≤ 10 }
    ensures words { result.items ≡ words_of_forms save ++ pointer.now ++ words_of_forms (guard_of (10 + length access.now) (8 + length access.now)) ++ access.now ++ words_of_forms (back ++ trap) }
{
    let over = 8 + access.len() as u16; // the access, RESTORE and RJMP
    // Both branches lead to the trap.
    let guard = [
        CPI_R31_0D,
        BRLO + 8 * (2 + over),
        CPI_R31_11,
        BRSH + 8 * over,
    ];
    let mut all = ArrayVec::new();
    all.try_extend_from_slice(&SAVE).unwrap();
    all.try_extend_from_slice(pointer).unwrap();
    all.try_extend_from_slice(&guard).unwrap();
    all.try_extend_from_slice(access).unwrap();
    all.try_extend_from_slice(&RESTORE).unwrap();
    all.push(RJMP_10);
    all.try_extend_from_slice(&RESTORE).unwrap();
    all.try_extend_from_slice(&[CALL, MEM]).unwrap();
    all
}
