//! Two calls with the same words over the same text.
ghost use Rattle.std.specs.Prelude.{◌≡◌, IfOk};
ghost use Rattle.theorem_reader.specs.Telling.{IsSo};
ghost use Rattle.theorem_reader.specs.Twice.{IsToldAgain};

use crate::reader::{Told, bytes_of};
use crate::room::RoomySink;
use std::alloc::Global;
use tk_io::{MemSource, NoMemory};
use tkernel_cli::tkernel;

/// Answers these words over this text twice, into sinks with room for so many bytes. Where the first serves, the second answer is the
/// same, as far as its sink takes it, and unless memory is wanted.
pub fn run_twice<const ROOM: usize, const MORE: usize>(
    alloc: Global,
    words: &[String],
    text: &[u8],
) -> Result<(Told<ROOM>, Told<MORE>), NoMemory>
    ensures again { IfOk result (λ told. told.0.out.faults ≡ 0
        → IsSo MORE told.1.out (λ sink. IsToldAgain told.0.status told.0.out.taken sink told.1.status told.1.out.taken)) }
{
    let first = bytes_of(alloc, text)?;
    let second = bytes_of(alloc, text)?;
    let mut out = RoomySink::new(alloc)?;
    let mut more = RoomySink::new(alloc)?;
    let mut input = MemSource::new(first);
    let mut same = MemSource::new(second);
    let exit = tkernel(alloc, words, &mut input, &mut out);
    let again = tkernel(alloc, words, &mut same, &mut more);
    more.keeps_room();
    let status = exit.status.number();
    let number = again.status.number();
    let one = Told {
        status,
        out,
        kept: exit.kept,
        tasks: exit.tasks,
    };
    let other = Told {
        status: number,
        out: more,
        kept: again.kept,
        tasks: again.tasks,
    };
    Ok((one, other))
}
