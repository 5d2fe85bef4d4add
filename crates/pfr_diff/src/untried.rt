//! How differences are told that no packet tried.
use pfr_asked::{Idle, Kind, Place, Unasked, Untried, Which};
use pfr_texts::append_number;
use std::alloc::AllocError;

/// The word for a kind of rules, with what stands behind it.
fn kind_word(kind: Kind) -> &'static [u8] {
    match kind {
        Kind::Nat => b"nat: ",
        Kind::Rdr => b"rdr: ",
        Kind::Binat => b"binat: ",
        Kind::Filter => b"",
    }
}

/// Appends `LLINE of OLD` or `LLINE of NEW`.
fn append_place(text: &mut Vec<u8>, place: &Place) -> Result<(), AllocError> {
    text.extend_from_slice(b"L")?;
    append_number(text, place.line as u64)?;
    text.extend_from_slice(match place.which {
        Which::Old => b" of OLD",
        Which::New => b" of NEW",
    })
}

/// Appends rules that couldn't be asked: a line for each kind and each reason.
fn append_unasked(text: &mut Vec<u8>, unasked: &[Unasked]) -> Result<(), AllocError> {
    let mut before: Option<&Unasked> = None;
    for one in unasked {
        match before {
            Some(last) if last.kind == one.kind && last.why == one.why => {
                text.extend_from_slice(b", ")?;
            }
            Some(last) => {
                append_why(text, last)?;
                text.extend_from_slice(b"not judged: ")?;
            }
            None => text.extend_from_slice(b"not judged: ")?,
        }
        append_place(text, &one.place)?;
        before = Some(one);
    }
    match before {
        Some(last) => append_why(text, last),
        None => Ok(()),
    }
}

/// Appends why rules couldn't be asked, behind their places.
fn append_why(text: &mut Vec<u8>, unasked: &Unasked) -> Result<(), AllocError> {
    text.extend_from_slice(b": ")?;
    text.extend_from_slice(kind_word(unasked.kind))?;
    unasked.why.append(text)?;
    text.extend_from_slice(b"\n")
}

/// Appends the line of an option.
fn append_idle(text: &mut Vec<u8>, idle: &Idle) -> Result<(), AllocError> {
    text.extend_from_slice(b"not judged: ")?;
    idle.append_option(text)?;
    text.extend_from_slice(b": ")?;
    idle.append_why(text)?;
    text.extend_from_slice(b"\n")
}

/// Appends the line of the rules that no packet met, if there are any.
fn append_unmet(text: &mut Vec<u8>, unmet: &[Place]) -> Result<(), AllocError> {
    let Some((first, others)) = unmet.split_first() else {
        return Ok(());
    };
    text.extend_from_slice(b"met by no packet: ")?;
    append_place(text, first)?;
    for place in others {
        text.extend_from_slice(b", ")?;
        append_place(text, place)?;
    }
    text.extend_from_slice(b"\n")
}

/// Appends a line for each kind of rule and each reason, one for each option, and one for all rules that no packet met.
pub(crate) fn append_untried(text: &mut Vec<u8>, untried: &Untried) -> Result<(), AllocError> {
    append_unasked(text, untried.unasked.as_slice())?;
    for idle in untried.idle.as_slice() {
        append_idle(text, idle)?;
    }
    append_unmet(text, untried.unmet.as_slice())
}
