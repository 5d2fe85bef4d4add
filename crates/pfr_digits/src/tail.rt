//! The end of a text.
ghost use Rattle.std.specs.Prelude.{◌≡◌, ◌+◌, ◌<◌, ◌≤◌, ◌^◌, ◌++◌, [], length};
ghost use Rattle.std.specs.Fmt.{decimal};

use crate::digits::write_digits;
use std::marker::Model;

/// The greatest length of a text.
const ROOM: usize = 160;

/// The end of a text of at most 160 bytes.
#[derive(Drop)]
pub struct Tail {
    /// The text stands at the end.
    bytes: [u8; ROOM],
    start: usize,
}

impl Model for Tail {
    ghost use Rattle.std.specs.Prelude.{◌≤◌, List, ℕ, drop};

    ghost Value = { List ℕ };

    ghost view = { λ t. drop t.start t.bytes };

    ghost invariant = { λ t. t.start ≤ 160 };
}

impl Tail {
    /// The empty text.
    #[inline]
    pub fn new() -> Tail
        ensures { result ≡ [] }
    {
        Tail {
            bytes: [0; ROOM],
            start: ROOM,
        }
    }

    /// The text so far.
    #[inline]
    pub fn as_slice(&self) -> &[u8]
        ensures { result.now ≡ self.now }
    {
        &self.bytes[self.start..]
    }

    /// Puts a word before the text so far.
    #[inline(always)]
    pub fn put_word(&mut self, word: &[u8])
        requires room { length word.now + length self.old ≤ 160 }
        ensures text { self.new ≡ word.now ++ self.old }
        ensures long { length self.new ≡ length word.now + length self.old }
    {
        let end = self.start;
        let start = end - word.len();
        self.bytes[start..end].copy_from_slice(word);
        self.start = start;
    }

    /// Puts the decimal digits of a number before the text so far.
    #[inline]
    pub fn put_number(&mut self, number: u64)
        requires room { 20 + length self.old ≤ 160 }
        ensures text { self.new ≡ decimal number ++ self.old }
        ensures long { length self.new ≤ 20 + length self.old }
        // numbers of 32, 16 and 8 bits are below these bounds
        ensures short { number < 10 ^ 10 → length self.new ≤ 10 + length self.old }
        ensures shorter { number < 10 ^ 5 → length self.new ≤ 5 + length self.old }
        ensures shortest { number < 10 ^ 3 → length self.new ≤ 3 + length self.old }
    {
        self.start = write_digits(number, &mut self.bytes, self.start);
    }
}
