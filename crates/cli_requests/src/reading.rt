//! The input of a command that reads.
ghost use Rattle.std.specs.Prelude.{MatchResult, IfErr};
ghost use Rattle.cli_words.specs.Commands.{IsPossibleJob};
ghost use Rattle.byte_streams.specs.Streams.{input_of};
ghost use Rattle.cli_requests.specs.Reading.{Gave, IsUnread};

use byte_streams::{ReadAll, Source, read_all};
use cli_words::{Job, no_memory, read_fault, too_long};
use std::alloc::Global;

/// The most bytes of an input.
const MOST_INPUT: usize = 2_097_152;

/// Reads the whole input; where there is none to judge, what is printed instead.
pub(crate) fn read_input<S: Source>(alloc: Global, input: &mut S) -> Result<Vec<u8>, Job>
    ensures read { MatchResult result
        (λ text. Gave (input_of S.left S.given S.faults input.old) (input_of S.left S.given S.faults input.new) text.items)
        (IsUnread (input_of S.left S.given S.faults input.old) (input_of S.left S.given S.faults input.new)) }
    ensures possible { IfErr result IsPossibleJob }
{
    match read_all(alloc, input, MOST_INPUT) {
        Ok(text) => Ok(text),
        Err(ReadAll::Fault) => Err(read_fault()),
        Err(ReadAll::TooLong) => Err(too_long()),
        Err(ReadAll::NoMemory) => Err(no_memory()),
    }
}
