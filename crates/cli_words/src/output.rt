//! A text of any length that is put as it is.
ghost use Rattle.std.specs.Prelude.{◌≡◌, ℕ, List};

use std::marker::Model;

/// A text that is put as it is.
#[derive(Drop)]
pub struct Output {
    bytes: Vec<u8>,
}

// Clauses see the bytes.
impl Model for Output {
    ghost Value = { List ℕ };

    ghost view = { λ output. output.bytes.items };
}

impl Output {
    /// The text of these bytes.
    pub fn new(bytes: Vec<u8>) -> Output
        ensures bytes { result ≡ bytes.items }
    {
        Output { bytes }
    }

    /// Its bytes.
    pub fn bytes(&self) -> &[u8]
        ensures bytes { result.now ≡ self.now }
    {
        self.bytes.as_slice()
    }
}
