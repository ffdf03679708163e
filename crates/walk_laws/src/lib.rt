//! Walks from one state never part.
//!
//! A walk is a row of moves, each of which leads from one state to the next (`step_laws/specs/Walks`). From a state one move
//! may be made at most, and it leads to one state (`one_move` of `proofs/OneWalk`); so of two walks from a state the shorter is the
//! front of the longer (`compare`). A move leaves the layout (`layout_kept`), and the moves of steps are a walk (`steps_walk`). A run
//! needs none of this; the reader does, where it says that runs print the same.
#![tactic(auto)]
