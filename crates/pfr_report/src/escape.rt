//! Texts of files within a page.
ghost use Rattle.std.specs.Prelude.{◌≡◌, ◌++◌, OnOk, length};
ghost use Rattle.std.specs.List.{flat_map, repeat};
ghost use Rattle.std.specs.Str.{chars};
ghost use Rattle.std.specs.List.{list_all};
ghost use Rattle.std.specs.Prelude.{List, ℕ, true};
ghost use Rattle.pfr_report.specs.Escapes as spec;

use std::alloc::AllocError;

/// U+FFFD, which stands for what is no character.
const REPLACEMENT: &[u8] = b"\xef\xbf\xbd";

/// Whether a character may stand in a page as it is: no control character other than a tab, no byte order mark, and no code that
/// Unicode gives to no character.
fn is_shown(character: char) -> bool
    ensures { result ≡ spec.is_shown character }
{
    let code = u32::from(character);
    let is_control = (code < 32 && code != 9) || (127 <= code && code < 160);
    let is_none = (0xfdd0 <= code && code < 0xfdf0) || code % 0x10000 >= 0xfffe;
    !is_control && !is_none && code != 0xfeff
}

/// Appends a character, or what stands for it.
fn append_character(text: &mut Vec<u8>, character: char) -> Result<(), AllocError>
    ensures { OnOk result (text.new.items ≡ text.old.items ++ spec.escaped character) }
{
    match character {
        '&' => text.extend_from_slice(b"&amp;"),
        '<' => text.extend_from_slice(b"&lt;"),
        '>' => text.extend_from_slice(b"&gt;"),
        '"' => text.extend_from_slice(b"&quot;"),
        '\'' => text.extend_from_slice(b"&#39;"),
        other if !is_shown(other) => text.extend_from_slice(REPLACEMENT),
        other => {
            let mut room = [0; 4];
            text.extend_from_slice(other.encode_utf8(&mut room).as_bytes())
        }
    }
}

/// Appends characters, or what stands for them.
fn append_characters(text: &mut Vec<u8>, characters: &str) -> Result<(), AllocError>
    ensures { OnOk result (text.new.items ≡ text.old.items ++ flat_map spec.escaped (chars characters.now)) }
{
    for character in characters.chars() {
        append_character(text, character)?;
    }
    Ok(())
}

/// Appends for each of some bytes what stands for no character.
fn append_replacements(text: &mut Vec<u8>, bytes: &[u8]) -> Result<(), AllocError>
    ensures { OnOk result (text.new.items ≡ text.old.items ++ repeat (length bytes.now) spec.replacement) }
{
    for _byte in bytes {
        text.extend_from_slice(REPLACEMENT)?;
    }
    Ok(())
}

/// Appends a text that a file holds, so that it is read as this text and nothing else: what is appended opens no tag and closes none,
/// and ends no attribute. A byte of no character of UTF-8, and a control character other than a tab, becomes U+FFFD.
pub fn append_text(text: &mut Vec<u8>, bytes: &[u8]) -> Result<(), AllocError>
    ensures { OnOk result (text.new.items ≡ text.old.items ++ spec.shown bytes.now) }
{
    for chunk in bytes.utf8_chunks() {
        append_characters(text, chunk.valid())?;
        append_replacements(text, chunk.invalid())?;
    }
    Ok(())
}

/// Whatever the bytes of a file, what stands for them opens no tag, closes none, and ends no attribute.
pub fn every_text_is_harmless()
    ensures { (bytes : List ℕ) → list_all spec.is_harmless (spec.shown bytes) ≡ true }
{}
