//! The run as a list of moves, and the law of each step: rewritten code does what the original program does.
//!
//! A *move* is a plain step of the mote in a page of the code pool, a service of the kernel, the arrival that
//! is owed, or an interrupt that is taken in its place. From the place of an instruction's template on there is
//! a walk of plain steps and services that makes exactly the step that the original program makes on flat
//! memory, or comes to its stop. The functions of this crate do nothing: each one's contract is a law, for the
//! layer that makes the moves.
//!
//! docs/RUN.md tells all of this in words. `specs/Moves`, `specs/States` and `specs/Walks` say which moves
//! there are and what each leaves, `specs/Numbers` what is counted by them, `specs/Bounds` how far that goes,
//! `specs/Links` where control may go on, `specs/Settings` what the law of a step rests on, `specs/StepLaws`
//! what it says, `specs/InlineLaws` what an inline template does, move by move, `specs/ServiceRows` what a
//! service of a walk does, and `specs/Outcomes` that each move has one outcome. Public laws:
//! `proofs/EveryShape` (the law of a shape, for any links, and of an entry), `proofs/InlineRuns` (inline
//! templates), `proofs/MoveLaws` (which move comes next, and what comes of it) and `proofs/Joining` (walks in a row).
#![tactic(auto)]

mod laws;

pub use laws::{
    each_move_has_one_outcome, each_service_has_its_row, each_step_keeps_the_bounds,
    every_entry_has_its_law, every_shape_has_its_law, stack_instructions_run_inline, walks_join,
};
