//! The bytes that passed a stream, for proofs alone.
ghost use Rattle.std.specs.Prelude.{◌≡◌, ℕ, List, Option, [], ◌++◌};
ghost use Rattle.std.specs.Borrow.{ftrue};

use std::marker::Model;

/// The bytes that passed a stream since it was made. It takes no memory, and its methods do nothing when they run: a clause
/// reads the bytes, and only one that says which call gave them makes them mean anything.
#[derive(Drop)]
pub(crate) struct Passed {
    /// What the other side told before.
    pub ghost before: { Option (List ℕ) },
    pub ghost bytes: { List ℕ },
}

impl Model for Passed {
    ghost also_owns = { λ _. ftrue };
}

impl Passed {
    /// No byte has passed to or from this side yet.
    pub(crate) fn none<E>(_side: &E) -> Passed
        ghost told: { Option (List ℕ) }
        ensures { (result.before ≡ told) × (result.bytes ≡ []) }
    {
        Passed {}
    }

    /// And then these bytes.
    pub(crate) fn and(&self, _piece: &&[u8]) -> Passed
        ensures { (result.before ≡ self.now.before) × (result.bytes ≡ self.now.bytes ++ _piece.now.now) }
    {
        Passed {}
    }
}
