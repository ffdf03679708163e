//! Tries cases of the whole program, which standard input has: what words and an input are answered with, by the top
//! call over streams in memory. It prints the name of each case that is answered otherwise, and at last how many answers
//! are as their cases want them, and how many are not.
#![tactic(auto)]

mod case;
mod tally;
mod trying;

use case::Case;
use std::io;
use tally::Tally;
use trying::try_case;

fn main(rt: HostRuntime) -> io::Result<()> {
    let mut tally = Tally::new();
    let mut case = Case::new(rt.alloc());
    for line in rt.lines(rt.alloc()) {
        let line = line?;
        if line.is_empty() {
            try_case(&rt, &case, &mut tally)?;
            case = Case::new(rt.alloc());
        } else {
            case.take(rt.alloc(), line.as_str())?;
        }
    }
    try_case(&rt, &case, &mut tally)?;
    let (same, other) = (tally.same(), tally.other());
    println!(rt; "answers: {same} same, {other} other")
}
