//! What is written for words.
ghost use Rattle.std.specs.Prelude.{◌≡◌, ◌∷◌, ◌++◌, [], length, OnOk};
ghost use Rattle.pfr_given.specs.Entries as spec;

use pfr_items::Items;
use std::alloc::{AllocError, Global};

/// What a word of a ruleset names.
#[derive(Clone, Copy, Debug, PartialEq, Eq)]
pub enum Subject {
    /// A host or an interface in the place of an address.
    Address,
    /// An interface or a group of interfaces.
    Interface,
    /// A port by its name.
    Service,
    /// A table by its name.
    Table,
}

/// What is written for a word.
#[derive(Drop)]
pub struct Entry {
    pub subject: Subject,
    pub word: Items<u8>,
    pub text: Items<u8>,
}

/// What is written for the words of a ruleset.
#[derive(Drop)]
pub struct Given {
    /// In the order in which they were added: a word may have several.
    pub entries: Items<Entry>,
}

/// Whether two subjects are the same.
#[tactic(auto, unfolding(crate::specs::Entries::is_same))]
fn is_same(subject: Subject, other: Subject) -> bool
    ensures { result ≡ spec.is_same subject other }
{
    subject == other
}

/// Whether a text is these two, one behind the other.
fn is_both(text: &[u8], front: &[u8], back: &[u8]) -> bool
    ensures { result ≡ spec.is_both text.now front.now back.now }
{
    let (before, behind) = text.split_at(front.len().min(text.len()));
    before == front && behind == back
}

/// Whether an entry is for `word` followed by `suffix`, as this subject.
#[tactic(auto, using(crate::proofs::EntryLemmas::both_is))]
pub(crate) fn is_for(entry: &Entry, subject: Subject, word: &[u8], suffix: &[u8]) -> bool
    ensures { result ≡ spec.is_for subject (word.now ++ suffix.now) entry.now }
{
    is_same(subject, entry.subject) && is_both(entry.word.as_slice(), word, suffix)
}

impl Given {
    /// No entries.
    pub fn new(alloc: Global) -> Given
        ensures { result.entries ≡ [] }
    {
        Given {
            entries: Items::new(alloc),
        }
    }

    /// Puts an entry at the end, for `word` followed by `suffix`.
    pub(crate) fn add(
        &mut self,
        alloc: Global,
        subject: Subject,
        word: &[u8],
        suffix: &[u8],
        text: &[u8],
    ) -> Result<(), AllocError>
        ensures { OnOk result (self.new.entries ≡ self.old.entries ++ spec.entry subject (word.now ++ suffix.now) text.now ∷ []) }
    {
        let mut both = Items::copied(alloc, word)?;
        both.extend_from_slice(suffix)?;
        let text = Items::copied(alloc, text)?;
        self.entries.push(Entry {
            subject,
            word: both,
            text,
        })
    }

    /// Adds an interface to a group of interfaces.
    pub fn add_member(&mut self, alloc: Global, group: &[u8], name: &[u8]) -> Result<(), AllocError>
        ensures { OnOk result (self.new.entries ≡ self.old.entries ++ spec.entry Subject.Interface group.now name.now ∷ []) }
    {
        self.add(alloc, Subject::Interface, group, b"", name)
    }
}

/// How many texts stand for `word` followed by `suffix` (`em1` and `:network`), as this subject.
#[tactic(auto, unfolding(crate::specs::Entries::texts_of))]
pub fn count_of(given: &Given, subject: Subject, word: &[u8], suffix: &[u8]) -> usize
    ensures { result ≡ length (spec.texts_of given.now subject (word.now ++ suffix.now)) }
{
    let mut count: usize = 0;
    for entry in given.entries.as_slice() {
        if is_for(entry, subject, word, suffix) {
            count += 1;
        }
    }
    count
}
