//! The laws, each as the contract of a function that does nothing.
ghost use Rattle.step_laws.specs.StepLaws.{HasShapeLaws, HasEntryLaws};
ghost use Rattle.step_laws.specs.InlineLaws.{RunInline};
ghost use Rattle.step_laws.specs.Joining.{Joins};
ghost use Rattle.step_laws.specs.Outcomes.{PlainsAreOne, ServicesAreOne, ArrivalsAreOne, InterruptsAreOne, MovesAreApart, EndsAreLast};
ghost use Rattle.step_laws.specs.ServiceRows.{ServicesHaveRows};
ghost use Rattle.step_laws.specs.Bounds.{KeepBounds, EndBounds};

/// One law for each of the ten shapes of template: from where a template stands, the moves make exactly
/// the original program's next step, or come to its stop. It asks for what stands at that one place.
#[tactic(auto, using(crate::proofs::EveryShape::shape_laws))]
pub fn every_shape_has_its_law()
    ensures laws { HasShapeLaws }
{}

/// So the same holds at each entry, where flash holds the image and rewritten code of it.
#[tactic(auto, using(crate::proofs::EveryShape::entry_laws))]
pub fn every_entry_has_its_law()
    ensures laws { HasEntryLaws }
{}

/// From each entry whose instruction has an inline template: inside the stack window an exact number of plain
/// steps leads to the word behind the template and makes the original program's step, as the service MEM does;
/// outside it plain steps lead to the call of MEM, with all that the program sees as before.
#[tactic(auto, using(crate::proofs::InlineRuns::runs_inline))]
pub fn stack_instructions_run_inline()
    ensures runs { RunInline }
{}

/// A service that is made as a move does what the row of its entry says, and leaves what a service leaves.
pub fn each_service_has_its_row()
    ensures rows { ServicesHaveRows }
{}

/// Each move has one outcome, a plain step and a service exclude each other, as an arrival and an interrupt do, and an ended
/// program makes none.
pub fn each_move_has_one_outcome()
    ensures plain { PlainsAreOne }
    ensures service { ServicesAreOne }
    ensures arrival { ArrivalsAreOne }
    ensures interrupt { InterruptsAreOne }
    ensures apart { MovesAreApart }
    ensures last { EndsAreLast }
{}

/// Walks that follow one another are one walk, with the lines one after the other and the numbers added.
pub fn walks_join()
    ensures joins { Joins }
{}

/// A step keeps the bounds on what is counted: at most 40 plain steps and two services a step, and at most
/// 5,120 plain steps for each crossing of the quantum between two services.
pub fn each_step_keeps_the_bounds()
    ensures goes { KeepBounds }
    ensures stops { EndBounds }
{}
