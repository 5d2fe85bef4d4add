//! A part of a text.
ghost use Rattle.std.specs.Prelude.{◌≡◌};

use std::marker::Model;

/// A part of a text, which contracts see as the list of its bytes.
#[derive(Drop)]
pub struct Bytes<'a> {
    text: &'a [u8],
}

impl<'a> Model for Bytes<'a> {
    ghost use Rattle.std.specs.Prelude.{List, ℕ};

    ghost Value = { List ℕ };

    ghost view = { λ b. b.text.now };
}

impl<'a> Bytes<'a> {
    pub fn new(text: &'a [u8]) -> Bytes<'a>
        ensures { result ≡ text.now }
    {
        Bytes { text }
    }

    pub fn as_slice(&self) -> &'a [u8]
        ensures { result.now ≡ self.now }
    {
        self.text
    }
}
