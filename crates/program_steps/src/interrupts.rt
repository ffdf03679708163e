//! An interrupt that is taken instead of the arrival that is owed.

ghost use Rattle.std.specs.Prelude.{◌≡◌, ◌<◌, ◌^◌, true, None};
ghost use Rattle.program_steps.specs.Ready.{IsGoing};
ghost use Rattle.program_steps.specs.Stepping.{HasStepped};
ghost use Rattle.program_steps.specs.Interrupts.{is_wanted_at as is_wanted_at_test, is_taken_now};
ghost use Rattle.program_steps.specs.Wholes.{whole};

use crate::progress::Progress;
use kernel_entry::{End, Kernel, Owed, Taken, has_interrupts, interrupt};

/// Whether an interrupt is to be taken instead of the arrival that is owed: one is due, the arrival is inside the program's part,
/// interrupts are on, and one is enabled.
#[inline(always)]
pub fn must_take(k: &Kernel, p: &Progress) -> bool
    requires ready { IsGoing (whole k.now p.now) }
    ensures value { result ≡ is_taken_now (whole k.now p.now) }
{
    if p.due {
        is_wanted_at(k, p.owed)
    } else {
        false
    }
}

/// Whether one is wanted at the arrival that is owed: that is inside the program's part, interrupts are on, and one is enabled.
fn is_wanted_at(k: &Kernel, owed: Option<Owed>) -> bool
    ensures value { result ≡ is_wanted_at_test k.now owed }
{
    match owed {
        None => false,
        Some(owed) => k.part.owns(owed.target)
            && has_interrupts(k)
            && k.mote.devices.enabled() != 0,
    }
}

/// Takes it: a step of the program. Where the program's stack has no room for it, the program has ended.
pub fn take(k: &mut Kernel, p: &mut Progress) -> Option<End>
    requires ready { IsGoing (whole k.old p.old) }
    requires wanted { is_taken_now (whole k.old p.old) ≡ true }
    requires steps { p.old.steps < 2 ^ 50 }
    ensures stepped { HasStepped (whole k.old p.old) (whole k.new p.new) None }
    ensures end { result ≡ p.new.end }
    ensures flash { k.new.mote.flash ≡ k.old.mote.flash }
    ensures layout { k.new.layout ≡ k.old.layout }
{
    let owed = match p.owed {
        None => return None,
        Some(owed) => owed,
    };
    match interrupt(k, owed.target) {
        Taken::Nothing => None,
        Taken::Vector(target) => {
            p.owed = Some(Owed { target, stub: None });
            p.due = false;
            p.at = target;
            p.steps += 1;
            None
        }
        Taken::Stopped(stop) => {
            let end = Some(End::Stopped(stop));
            p.end = end;
            end
        }
    }
}
