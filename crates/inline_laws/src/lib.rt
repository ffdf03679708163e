//! The inline templates, executed step by step on the mote.
//!
//! A push, a pop, and an access behind Y are rewritten into instructions that reach the stack window's bytes
//! themselves, and call the kernel for every other address (docs/LOADER.md, "Inline templates"). This crate
//! has what those instructions do to a mote where they stand in flash: how many there are on each way, and
//! what the last one leaves. `specs/Rows` says that instructions stand in a row, and `specs/InlineWays` what
//! the ways are; `proofs/PushLaw`, `proofs/PopLaw` and `proofs/FrameLaw` have each template's law, and
//! `proofs/Cells` laws of the bytes that the templates write. What the program sees of it is in `step_laws`.
#![tactic(auto)]

ghost use Rattle.inline_laws.specs.InlineWays.{PushPasses, PopPasses, LoadPasses, StorePasses};

/// The ways through each of the four inline templates: from its first word on, so many steps that show
/// nothing lead inside the stack window to the word behind it, and outside to the entry of MEM.
#[tactic(auto, using(crate::proofs::PushLaw::push_passes, crate::proofs::PopLaw::pop_passes, crate::proofs::FrameLaw::load_passes, crate::proofs::FrameLaw::store_passes))]
pub fn inline_templates_pass()
    ensures push { PushPasses }
    ensures pop { PopPasses }
    ensures load { LoadPasses }
    ensures store { StorePasses }
{}
