//! Tests of the whole program that no case of crate `tkernel_cases` can make: its words as data, streams that fail or are
//! slow, and what the machine that a call keeps holds; of the calls of crate `theorem_reader`;
//! of the views of crate `tk_watch`; and of the words of `run`, which the crate `clap` reads too.
#![tactic(auto)]

#[cfg(test)]
mod command_line;
#[cfg(test)]
mod failing_flash;
#[cfg(test)]
mod first_program;
#[cfg(test)]
mod kept_machines;
#[cfg(test)]
mod reader;
#[cfg(test)]
mod restarts;
#[cfg(test)]
mod run_words;
#[cfg(test)]
mod slow_streams;
#[cfg(test)]
mod stack_instructions;
#[cfg(test)]
mod support;
#[cfg(test)]
mod views;
