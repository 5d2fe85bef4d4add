//! Words that name something.
use pfr_words::Bytes;

/// A word that names something, and its line.
#[derive(Drop)]
pub struct Name<'a> {
    pub line: usize,
    pub text: Bytes<'a>,
}

/// The use of a macro, `$NAME`, with what follows it without a blank from a `:` or `/` on, and its line.
#[derive(Drop)]
pub struct MacroUse<'a> {
    pub line: usize,
    pub name: Bytes<'a>,
    pub suffix: Bytes<'a>,
}

/// An item, or the use of a macro that stands for items.
#[derive(Drop)]
pub enum Written<'a, T> {
    Item(T),
    Macro(MacroUse<'a>),
}
