//! The program `tkernel`: its command line's words, standard input and standard output, and the exit
//! status of the call.
#![tactic(auto)]

use byte_streams::{NoMemory, StdSink, StdSource, program_words};
use std::io;
use std::process::ExitCode;
use tkernel_cli::{Status, tkernel};

fn main(rt: HostRuntime) -> ExitCode {
    let words = match program_words(&rt) {
        Ok(words) => words,
        Err(NoMemory) => return ExitCode::from(Status::NoMemory.number()),
    };
    let mut input = StdSource::new(rt.reader());
    let mut out = StdSink::new(io::writer(&rt));
    let exit = tkernel(rt.alloc(), &words, &mut input, &mut out);
    ExitCode::from(exit.into_status().number())
}
