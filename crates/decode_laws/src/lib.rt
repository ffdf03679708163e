//! What decoding means by the manual's table.
//!
//! `avr_decode` answers by `the_form`, which takes words apart. What words mean is defined in `avr_isa` the
//! other way, from each instruction to its words (`IsDecoded` of its `Encoding`). The laws that join the two
//! are of a crate of their own, beside the crates that need only the answer, so that these needn't wait for
//! them: `proofs/Decoded` (the two are the same) and `proofs/Lengths` (the first word tells the number of
//! words). The functions of this crate say the same of the calls.
#![tactic(auto)]

ghost use Rattle.std.specs.Prelude.{◌↔◌, IsTrue};
ghost use Rattle.avr_isa.specs.Encoding.{BeginsTwoWords, IsDecoded};

use avr_decode::{decode, two_words};
use avr_isa::Instr;

/// What `decode` answers: the one instruction that the manual's table has for these words, or none where it
/// has none.
pub fn decoded_by_table(w0: u16, w1: u16) -> Option<Instr>
    ensures decoded { IsDecoded w0 w1 result }
{
    decode(w0, w1)
}

/// What `two_words` answers: whether this word is the first of an instruction of two words in the table.
pub fn two_words_by_table(w: u16) -> bool
    ensures rows { IsTrue result ↔ BeginsTwoWords w }
{
    two_words(w)
}
