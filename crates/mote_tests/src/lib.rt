//! Tests of the public calls of the crates up to the mote: streams and forms of input, the instruction set, and
//! the mote with its memories and devices. Each file has one subject.
#![tactic(auto)]

#[cfg(test)]
mod board;
#[cfg(test)]
mod cells;
#[cfg(test)]
mod decoding;
#[cfg(test)]
mod encoding;
#[cfg(test)]
mod execution;
#[cfg(test)]
mod flags;
#[cfg(test)]
mod hex_texts;
#[cfg(test)]
mod instructions;
#[cfg(test)]
mod lines;
#[cfg(test)]
mod pages;
#[cfg(test)]
mod plain_steps;
#[cfg(test)]
mod registers;
#[cfg(test)]
mod scripts;
#[cfg(test)]
mod slots;
#[cfg(test)]
mod sources;
#[cfg(test)]
mod streams;
#[cfg(test)]
mod support;
