//! Which operation is to fail next, among listed numbers.

ghost use Rattle.std.specs.Prelude.{◌<◌};
ghost use Rattle.flash_words.specs.Failing.{never, IsNextListed};

/// An operation that was refused.
#[derive(Clone, Copy, PartialEq, Eq)]
pub struct FlashStop {
    /// Its number. The first operation of a new or renewed flash has number 1.
    pub op: u64,
    /// Its page, 0 to 511.
    pub page: u16,
}

/// Why a page was not rewritten.
#[derive(Clone, Copy)]
pub struct RewriteStop {
    /// The number of the operation that was refused.
    pub op: u64,
    /// Whether the page was erased before it, so that it lacks its words.
    pub erased: bool,
}

/// Stands for a number where no operation is to fail any more.
const NEVER: u64 = u64::MAX;

/// The least listed number behind this one, `NEVER` where there is none. The numbers may have any order.
pub(crate) fn next_listed(failing: &[u32], op: u64) -> u64
    requires room { op < never }
    ensures next { IsNextListed failing.now op result }
{
    let mut next = NEVER;
    'numbers: for number in failing {
        let number = u64::from(*number);
        if op < number && number < next {
            next = number;
        }
    }
    next
}
