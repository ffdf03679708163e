//! Pairs of words that were decoded already.

ghost use Rattle.std.specs.Prelude.{◌≡◌, ◌<◌};
ghost use Rattle.flash_model.specs.Code.{decoded_of};

use crate::decoded::Decoded;
use base::NoMemory;
use std::alloc::Global;
use std::marker::Model;

/// How many pairs of words are kept.
const PAIRS: usize = 1024;

/// Two words, and what they are decoded to.
#[derive(Clone, Copy)]
struct Pair {
    first: u16,
    second: u16,
    decoded: Decoded,
}

impl Model for Pair {
    ghost use Rattle.flash_model.specs.DecodedPairs.{DecodedPair, IsDecodedPair};

    ghost Value = { DecodedPair };

    ghost view = { λ pair. record { first = pair.first; second = pair.second; decoded = pair.decoded } };

    ghost invariant = { λ pair. IsDecodedPair (record { first = pair.first; second = pair.second; decoded = pair.decoded }) };

    ghost inverse = { λ pair. record { first = pair.first; second = pair.second; decoded = pair.decoded } };
}

impl Pair {
    /// These two words, decoded.
    fn new(first: u16, second: u16) -> Pair
        ensures first { result.first ≡ first }
        ensures second { result.second ≡ second }
    {
        Pair {
            first,
            second,
            decoded: Decoded::new(first, second),
        }
    }
}

/// Pairs of words that were decoded already, each where the place of pairs like it is.
#[derive(Drop)]
pub(crate) struct DecodedPairs {
    pairs: Vec<Pair>,
}

impl Model for DecodedPairs {
    ghost use Rattle.std.specs.Prelude.{◌≡◌, List, length};
    ghost use Rattle.flash_model.specs.DecodedPairs.{DecodedPair};

    ghost Value = { List DecodedPair };

    ghost view = { λ kept. kept.pairs.items };

    ghost invariant = { λ kept. length kept.pairs.items ≡ 1024 };
}

impl DecodedPairs {
    /// Pairs of two words of 0.
    pub(crate) fn new(alloc: Global) -> Result<DecodedPairs, NoMemory> {
        let mut pairs = Vec::new(alloc);
        pairs.resize(PAIRS, Pair::new(0, 0))?;
        Ok(DecodedPairs { pairs })
    }

    /// What these two words are decoded to. They are decoded where the pair that has their place is another.
    #[inline(always)]
    pub(crate) fn decoded(&mut self, first: u16, second: u16) -> Decoded
        ensures value { result ≡ decoded_of first second }
    {
        let pair = &mut self.pairs[place_of(first, second)];
        if pair.first != first || pair.second != second {
            *pair = Pair::new(first, second);
        }
        pair.decoded
    }
}

/// The place of two words.
#[inline(always)]
fn place_of(first: u16, second: u16) -> usize
    ensures place { result < 1024 }
{
    let mixed = u32::from(first)
        .wrapping_mul(31421)
        .wrapping_add(u32::from(second).wrapping_mul(6927));
    (mixed >> 3) as usize % PAIRS
}
