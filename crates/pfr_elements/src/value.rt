//! The values of macros.
ghost use Rattle.std.specs.Prelude.{◌≡◌, ◌<◌, ◌++◌, ◌∷◌, OnOk, Ok};
ghost use Rattle.pfr_elements.specs.Values as spec;
ghost use Rattle.pfr_elements.specs.declared.value.Value.TheVariants.{Text, TooLong};

use crate::definition::Taken;
use pfr_items::Items;
use pfr_words::cutting::is_blank;
use std::alloc::{AllocError, Global};

/// The most bytes that the value of a macro may have if it holds the values of others.
pub const LONGEST_VALUE: usize = 1048576;

/// The most bytes of macros' values that others may hold, all together.
pub const MOST_SPLICED: usize = 4194304;

/// The value of a macro.
#[derive(Drop)]
pub enum Value {
    /// Its words, as text.
    Text(Items<u8>),
    /// More bytes than a value may have; and whether it begins a list.
    TooLong(bool),
}

/// The value of a macro that is being defined, and how many bytes of others' values all definitions hold so far.
#[derive(Drop)]
pub struct Draft {
    pub value: Value,
    pub spliced: usize,
}

/// The first byte that is no blank, or 0 if there is none.
fn first_byte(text: &[u8]) -> u8
    ensures { result ≡ spec.first_byte text.now }
{
    for byte in text {
        if !is_blank(*byte) {
            return *byte;
        }
    }
    0
}

fn begins_list(text: &[u8]) -> bool
    ensures { result ≡ spec.begins_list text.now }
{
    first_byte(text) == b'{'
}

/// Whether the text of a macro may still be put behind another.
fn fits(before: &[u8], text: &[u8], spliced: usize) -> bool
    ensures { result ≡ spec.fits before.now text.now spliced }
{
    before.len() + text.len() <= LONGEST_VALUE
        && text.len() <= MOST_SPLICED
        && spliced <= MOST_SPLICED - text.len()
}

/// Puts a text behind another, with a blank between them.
fn put_behind(before: &mut Items<u8>, text: &[u8]) -> Result<(), AllocError>
    ensures { OnOk result (before.new ≡ before.old ++ 32 ∷ text.now) }
{
    before.push(b' ')?;
    before.extend_from_slice(text)
}

/// Whether a text with a value behind it that is too long begins a list.
fn is_long_list(before: &[u8], is_list: bool) -> bool
    ensures { result ≡ spec.is_long_list before.now is_list }
{
    if first_byte(before) == 0 {
        is_list
    } else {
        begins_list(before)
    }
}

impl Draft {
    /// Puts a quoted text or a plain word behind what is there.
    #[tactic(auto, unfolding(crate::specs::Values::with_text))]
    pub fn add_text(&mut self, text: &[u8]) -> Result<(), AllocError>
        ensures { OnOk result (self.new ≡ spec.with_text text.now self.old) }
    {
        match &mut self.value {
            Value::Text(before) => put_behind(before, text),
            Value::TooLong(_) => Ok(()),
        }
    }

    /// Puts the text of a macro behind what is there.
    #[tactic(auto, unfolding(crate::specs::Values::with_macro))]
    fn add_macro(&mut self, text: &[u8]) -> Result<(), AllocError>
        ensures { OnOk result (self.new ≡ spec.with_macro (Text text.now) self.old) }
    {
        let Value::Text(before) = &mut self.value else {
            return Ok(());
        };
        if fits(before.as_slice(), text, self.spliced) {
            self.spliced += text.len();
            put_behind(before, text)
        } else {
            let is_list = is_long_list(before.as_slice(), begins_list(text));
            self.value = Value::TooLong(is_list);
            Ok(())
        }
    }

    /// Puts a value that is too long behind what is there.
    #[tactic(auto, unfolding(crate::specs::Values::with_macro))]
    fn add_too_long(&mut self, is_list: bool)
        ensures { self.new ≡ spec.with_macro (TooLong is_list) self.old }
    {
        if let Value::Text(before) = &self.value {
            self.value = Value::TooLong(is_long_list(before.as_slice(), is_list));
        }
    }

    /// Puts what the use of a macro stands for behind what is there.
    pub fn add_taken(&mut self, taken: &Taken<'_>) -> Result<(), AllocError>
        ensures { OnOk result (self.new ≡ spec.with_taken taken.now self.old) }
    {
        match taken {
            Taken::Whole(text) => self.add_macro(text.get().bytes.as_slice()),
            Taken::Word(word) => self.add_macro(word.as_slice()),
            Taken::TooLong(is_list) => {
                self.add_too_long(*is_list);
                Ok(())
            }
        }
    }
}
