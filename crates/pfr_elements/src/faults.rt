//! Faults that what a list holds may have.
ghost use Rattle.std.specs.Prelude.{◌≡◌, IfOk};
ghost use Rattle.pfr_terms.specs.Input as input;
ghost use Rattle.pfr_elements.specs.Elements as spec;

use pfr_items::Items;
use pfr_terms::error::LeftOutName;
use pfr_terms::{ConfError, ConfErrorKind};
use std::alloc::{AllocError, Global};

/// The fault of a word on this line that doesn't belong where it stands.
pub(crate) fn unknown_word(line: usize) -> ConfError
    ensures { result ≡ input.unknown_word line }
{
    ConfError {
        line,
        kind: ConfErrorKind::UnknownWord,
    }
}

/// The same fault on this line.
pub(crate) fn at_line(line: usize, fault: ConfError) -> ConfError
    ensures { result ≡ spec.at_line line fault }
{
    ConfError {
        line,
        kind: fault.kind,
    }
}

/// The fault on this line that something is left out, under this name.
pub(crate) fn left_out(alloc: Global, line: usize, name: &[u8]) -> Result<ConfError, AllocError>
    ensures { IfOk result (λ e. e ≡ input.left_out_at line name.now) }
{
    let name = Items::copied(alloc, name)?;
    Ok(ConfError {
        line,
        kind: ConfErrorKind::LeftOut(LeftOutName { name }),
    })
}

/// The fault of a table on this line that isn't defined.
pub(crate) fn undefined_table(line: usize) -> ConfError
    ensures { result ≡ spec.undefined_table line }
{
    ConfError {
        line,
        kind: ConfErrorKind::UndefinedTable,
    }
}

fn copied_kind(alloc: Global, kind: &ConfErrorKind) -> Result<ConfErrorKind, AllocError>
    ensures { IfOk result (λ made. made ≡ kind.now) }
{
    Ok(match kind {
        ConfErrorKind::BadByte => ConfErrorKind::BadByte,
        ConfErrorKind::Unterminated => ConfErrorKind::Unterminated,
        ConfErrorKind::UnknownWord => ConfErrorKind::UnknownWord,
        ConfErrorKind::LeftOut(left_out) => ConfErrorKind::LeftOut(LeftOutName {
            name: Items::copied(alloc, left_out.name.as_slice())?,
        }),
        ConfErrorKind::BadNumber => ConfErrorKind::BadNumber,
        ConfErrorKind::BadAddress => ConfErrorKind::BadAddress,
        ConfErrorKind::OutOfOrder => ConfErrorKind::OutOfOrder,
        ConfErrorKind::TooDeep => ConfErrorKind::TooDeep,
        ConfErrorKind::Memory => ConfErrorKind::Memory,
        ConfErrorKind::UndefinedMacro => ConfErrorKind::UndefinedMacro,
        ConfErrorKind::UndefinedTable => ConfErrorKind::UndefinedTable,
        ConfErrorKind::TooMany => ConfErrorKind::TooMany,
        ConfErrorKind::Clash => ConfErrorKind::Clash,
    })
}

/// A copy of a fault, on this line.
pub(crate) fn copied_at(
    alloc: Global,
    line: usize,
    fault: &ConfError,
) -> Result<ConfError, AllocError>
    ensures { IfOk result (λ made. made ≡ spec.at_line line fault.now) }
{
    Ok(ConfError {
        line,
        kind: copied_kind(alloc, &fault.kind)?,
    })
}

/// What is meant, or a copy of its fault on this line.
pub(crate) fn copied_on<T: Copy>(
    alloc: Global,
    line: usize,
    meant: &Result<T, ConfError>,
) -> Result<Result<T, ConfError>, AllocError>
    ensures { IfOk result (λ made. made ≡ spec.fault_on line meant.now) }
{
    match meant {
        Ok(meant) => Ok(Ok(*meant)),
        Err(fault) => Ok(Err(copied_at(alloc, line, fault)?)),
    }
}
