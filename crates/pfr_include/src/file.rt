//! The files that a ruleset may name.
ghost use Rattle.std.specs.Prelude.{◌≡◌};
ghost use Rattle.pfr_include.specs.Files as spec;

use pfr_words::spelling::token_of;
use pfr_words::{Bytes, Token};

/// A file that a ruleset may name.
#[derive(Drop)]
pub struct File<'a> {
    /// As statements name it, without quotes.
    pub name: Bytes<'a>,
    pub text: Bytes<'a>,
}

/// A file that was found by its name.
#[derive(Drop)]
pub(crate) struct Found<'a> {
    /// From 1.
    pub number: usize,
    pub text: Bytes<'a>,
}

/// The first file of a name.
fn file_of<'a>(files: &[File<'a>], name: &[u8]) -> Option<Found<'a>>
    ensures { result ≡ spec.file_from 0 name.now files.now }
{
    for (before, file) in files.iter().enumerate() {
        if file.name.as_slice() == name {
            return Some(Found {
                number: before + 1,
                text: Bytes::new(file.text.as_slice()),
            });
        }
    }
    None
}

/// The name that a piece of a text gives: a plain word, or what stands between two quotes.
#[tactic(auto, unfolding(crate::specs::Files::name_of))]
pub(crate) fn name_of(piece: &[u8]) -> Option<Bytes<'_>>
    ensures { result ≡ spec.name_of piece.now }
{
    if piece.is_empty() {
        return None;
    }
    let token = token_of(piece)?;
    match token {
        Token::Plain(name) => Some(name),
        Token::Quoted(name) => Some(name),
        _ => None,
    }
}

/// The file that a piece of a text names.
#[tactic(auto, unfolding(crate::specs::Files::named_file))]
pub(crate) fn named_file<'a>(files: &[File<'a>], piece: &[u8]) -> Option<Found<'a>>
    ensures { result ≡ spec.named_file files.now piece.now }
{
    let name = name_of(piece)?;
    file_of(files, name.as_slice())
}
