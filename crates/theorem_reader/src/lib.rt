//! The theorem of the whole program, held from above: runs over streams in memory, whose contracts say in lists and
//! numbers what a user relies on. Of the crates below they name little but what the words and texts are, the original program's
//! machine and the programs in turn, the mote's instruction and operations on flash, types, the form and links of a page, its
//! size, and the program of a seed: so any other definition there that is weakened, and that they rest on, is refused here.
//!
//! To read: `specs/Telling` (how a text is told, by a sink with room for it or without, and a source that fails),
//! `specs/Runs` (what a run leaves; begin at `IsRun`), `specs/Ends` (the end that is kept), `specs/Acts` (what the machine
//! did), `specs/Steps` (which acts each step of the original program is), `specs/MoreSteps` (what more of them leave),
//! `specs/ByCode` (where no step of rewritten code is told, the program made none), `specs/Pools` (what stands in flash),
//! `specs/Wear` (how often it is erased), `specs/Memory` (where the program's bytes are), `specs/Texts` (the printed
//! lines), `specs/Words` (what words mean); then `specs/Dumps` (the flash that a run leaves), `specs/Restarts` (what is
//! kept of a flash behind a loss of power), `specs/Tasks` and `specs/Stints` (several programs on one mote),
//! `specs/Waiting` (how long a program of several waits), `specs/Checks` (what is said of a flash), `specs/Refusals` (words
//! and texts that are refused, and `asm`), `specs/Calls` (that these are all), `specs/Twice` (what is told again), and
//! `specs/RuledOut` (what is none of all this). Of the names that stand there and come from elsewhere:
//!
//! - `original program events n`: the original program's first n steps, by itself on flat memory of 64 KiB, of which it may
//!   store to as many pages of 256 bytes as there are slots. Of it: `end`, `lines` (the writes to outputs), and `state`, where
//!   `now` has the core (r0 to r31, SREG, SP, pc), the memory, the devices, and the numbers of steps and of crossings, and `due`
//!   tells whether an interrupt may be taken. A crossing is a step back, onto itself, or to another page of 128 words, by an
//!   instruction. One is due behind each crossing whose number is a multiple of the quantum, and behind a SLEEP that ends.
//! - `is_taken moment`: an interrupt is taken as the next step, in place of an instruction: one is due, bit I of SREG is set, and
//!   one that was requested is enabled.
//! - `HexText text image position`, `IsScript text schedule`, `IsDump text flash`, `IsCommand words command`: the text of a HEX
//!   file up to a position, of a script, of a dump, and the words of a command, as docs/FORMATS.md tells them; `hex_fault`,
//!   `script_fault`, `dump_fault`: the first faulty line of these and its fault; `IsNoCommand`: words that are none;
//!   `written image`, the text of a HEX file, and `usage_line`, `hex_word` and their like, what is printed of faults.
//! - `Schedules count text schedules`, `IsMisplaced count image address`: the script of so many programs, and that a word
//!   stands in their image where none may, outside their 4,096 words or in the last two of these, as docs/TASKS.md tells them;
//!   `scripts_fault`, `IsFirstMisplaced`: the first faulty line, and the first such word.
//! - `HasForm`, `HasLinks`: what a page of flash must be by itself, and what it owes to the others (docs/LOADER.md). A page of the
//!   pool is erased, or it has just the words that are fixed there for the image's instructions from one address on, and stubs.
//! - `address image t i`, `ends_at image a`, `page_size image t i`: where the instruction of number i stands of those from t on,
//!   that of t being 0; whether control never goes on from the one at a to the next; how many words a page of those up to number i has.
//! - `layout_of count`: where the pool of an image of so many words begins, and of how many pages it is.
//! - `end_of_stop stop`: how a program that stopped by itself has ended (`kernel_entry/Seen`, `end_of`).
//! - `Mote`: a modelled ATmega128, that is its core, SRAM, flash, devices, and a swap area beside it. `exec_of` is what an
//!   instruction does, `the_form` what two words mean (docs/ATMEGA128.md): by `specs/Words`, what the manual's table has.
//! - `fault_of text`, `AsmText text image`: what is wrong with a source, and its words, as docs/ASSEMBLER.md tells them.
//! - `once programs p`, `tries count programs`, `turns programs`: what several programs tell in turn, each over a flat memory of
//!   its own, in one try, of p, in so many, or until each has ended (docs/TASKS.md).
//! - `perform flash operations`: flash behind erases and programs of pages (docs/MOTE.md).
//! - `wake devices`: the devices once an enabled interrupt was requested, if inputs ever do (docs/MOTE.md).
//! - `generated seed`: the program of a seed (docs/FORMATS.md).
//! - `Machine`: a mote that runs a program, and what was counted (docs/MACHINE.md).
//!
//! Statuses are numbers: 0 where all is well, of `dump` however its run ended, 1 where all steps were done, 2 a fault of the
//! program or a flash that isn't faithful, 3 a bad input, 4 words that are no command, 5 a source that failed, 6 a sink that
//! failed, 8 where memory ran out, 9 a fault of flash.
#![tactic(auto)]

mod broken;
mod example;
mod laws;
mod reader;
mod room;
mod twice;

pub use broken::{BrokenSource, run_broken};
pub use example::{
    asm_example, bad_dump_example, bad_hex_example, bad_script_example, bad_source_example,
    bad_task_image_example, bad_task_script_example, broken_example, check_example, dump_example,
    generate_example, help_example, long_example, restart_example, run_example, tasks_example,
};
pub use laws::{
    a_program_waits_for_a_turn_of_each, more_steps_take_nothing_back,
    no_step_without_rewritten_code, not_everything_is_an_answer, words_mean_what_the_table_has,
};
pub use reader::{Told, longest_wait, run_image, run_text};
pub use room::RoomySink;
pub use twice::run_twice;
