//! The law of the format, for readers and for callers' proofs.
ghost use Rattle.flash_dump.specs.GrammarLaw.{DumpsAgree, FaultsAgree};

/// A text is a dump, or has a first fault, just where the format says so of all its lines at once.
pub fn grammar()
    ensures dump { DumpsAgree }
    ensures fault { FaultsAgree }
{}
