//! The lines and words of texts.
ghost use Rattle.std.specs.Prelude.{◌≡◌, ◌<◌, ◌≤◌, ◌∷◌, [], length, IfSome, MatchOption};
ghost use Rattle.std.specs.List.{position_or_len, before_first, after_first};
ghost use Rattle.pfr_given.specs.Texts as spec;

/// What part of a text is meant.
#[derive(Clone, Copy)]
pub(crate) enum Part {
    /// A line.
    Line,
    /// A word, or nothing between two blanks.
    Word,
    /// What stands before a comment of hosts(5) or services(5).
    Plain,
    /// What stands before a comment in the file of a table.
    PlainOfTable,
}

/// Whether a byte separates words.
fn is_blank(byte: u8) -> bool
    ensures { result ≡ spec.is_blank byte }
{
    byte == b' ' || byte == b'\t' || byte == b'\n' || byte == b'\r'
}

/// Whether a byte ends a part of a text.
fn ends(part: Part, byte: u8) -> bool
    ensures { result ≡ spec.ends part byte }
{
    match part {
        Part::Line => byte == b'\n',
        Part::Word => is_blank(byte),
        Part::Plain => byte == b'#',
        Part::PlainOfTable => byte == b'#' || byte == b';',
    }
}

/// How many bytes the part at the front of a text has.
fn part_len(part: Part, text: &[u8]) -> usize
    ensures value { result ≡ position_or_len (spec.ends part) text.now }
    ensures within { result ≤ length text.now }
{
    for (before, byte) in text.iter().enumerate() {
        if ends(part, *byte) {
            return before;
        }
    }
    text.len()
}

/// The part at the front of a text.
pub(crate) fn front_of(part: Part, text: &[u8]) -> &[u8]
    ensures { result.now ≡ before_first (spec.ends part) text.now }
{
    let (front, _) = text.split_at(part_len(part, text));
    front
}

/// The part at the front of a text, and what stands behind the byte that ends it.
pub(crate) fn cut_at(part: Part, text: &[u8]) -> (&[u8], &[u8])
    ensures front { result.0.now ≡ before_first (spec.ends part) text.now }
    ensures behind { result.1.now ≡ after_first (spec.ends part) text.now }
    ensures shorter { 0 < length text.now → length result.1.now < length text.now }
{
    let len = part_len(part, text);
    let (front, _) = text.split_at(len);
    let (_, behind) = text.split_at((len + 1).min(text.len()));
    (front, behind)
}

/// The first word of a text, and what stands behind it.
pub(crate) fn first_word(text: &[u8]) -> Option<(&[u8], &[u8])>
    ensures words { MatchOption result (spec.words text.now ≡ []) (λ found. spec.words text.now ≡ found.0.now ∷ spec.words found.1.now) }
    ensures shorter { IfSome result (λ found. length found.1.now < length text.now) }
{
    let mut rest = text;
    while !rest.is_empty() {
        let (word, behind) = cut_at(Part::Word, rest);
        if !word.is_empty() {
            return Some((word, behind));
        }
        rest = behind;
    }
    None
}
