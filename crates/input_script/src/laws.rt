//! The law of the format, for readers and for callers' proofs.
ghost use Rattle.input_script.specs.GrammarLaw.{FaultsAgree, LinesAgree, TextsAgree};

/// What a line says, which texts are accepted, and the first fault of the others, as the format has it: what is accepted is in order
/// and in range.
pub fn grammar()
    ensures line { LinesAgree }
    ensures text { TextsAgree }
    ensures fault { FaultsAgree }
{}
