//! Laws of what is kept, each as the contract of a function that does nothing.
ghost use Rattle.tkernel_cli.specs.GoingOn.{CountsAreExact, SpentStandBetween};

/// A machine that is kept and isn't broken can be run on: where its program goes on, its next step may begin.
pub fn a_machine_that_is_kept_can_go_on()
    ensures between { SpentStandBetween }
    ensures count { CountsAreExact }
{}
