//! The law of the format, for readers and for callers' proofs.
ghost use Rattle.task_input.specs.GrammarLaw.{FaultsAgree, TextsAgree};

/// Which scripts of several tasks are accepted, what they schedule, and the first fault of the others, as the format has it: each
/// task's own lines are a script.
pub fn grammar()
    ensures text { TextsAgree }
    ensures fault { FaultsAgree }
{
    input_script::grammar();
}
