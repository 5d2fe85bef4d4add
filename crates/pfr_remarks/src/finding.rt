//! What pfctl(8) refuses of a text.
ghost use Rattle.std.specs.Prelude.{◌≡◌, ◌++◌, OnOk, IfOk};
ghost use Rattle.pfr_remarks.specs.Finding as spec;

use crate::before::Before;
use crate::remark::{Remark, remark_at};
use crate::why::Why;
use pfr_items::Items;
use pfr_marks::braces::are_closed;
use pfr_marks::mark::{Mark, marks};
use std::alloc::{AllocError, Global};

/// Puts what is said at a mark behind the remarks so far.
fn put<'a>(
    found: &mut Items<Remark<'a>>,
    mark: &Mark<'a>,
    why: Option<Why>,
) -> Result<(), AllocError>
    ensures { OnOk result (found.new ≡ found.old ++ spec.remark_in mark.now why) }
{
    if let Some(why) = why {
        found.push(remark_at(mark, why))?;
    }
    Ok(())
}

/// Puts what is said at the first of these marks behind the remarks so far, and answers what stands before the next
/// one.
fn step<'a>(
    found: &mut Items<Remark<'a>>,
    before: Before,
    marks: &[Mark<'a>],
) -> Result<Before, AllocError>
    ensures found { OnOk result (found.new ≡ found.old ++ spec.remarks_at before marks.now) }
    ensures behind { IfOk result (λ behind. behind ≡ spec.behind_first before marks.now) }
{
    let Some(mark) = marks.first() else {
        return Ok(before);
    };
    let more = &marks[1..];
    let why = before.said_at(mark, more);
    put(found, mark, why)?;
    Ok(before.behind(mark, more, why))
}

/// What pfctl refuses of the words of a text.
fn remarks_of<'a>(alloc: Global, marks: &[Mark<'a>]) -> Result<Items<Remark<'a>>, AllocError>
    ensures { IfOk result (λ found. found ≡ spec.remarks_from (spec.at_first) marks.now) }
{
    let mut found = Items::new(alloc);
    let mut before = Before::beginning();
    for at in 0..marks.len() {
        before = step(&mut found, before, &marks[at..])?;
    }
    Ok(found)
}

/// What pfctl refuses of a text, in the order of the text: nothing if a brace isn't closed, or closes nothing, since
/// then it isn't known where a statement ends. Of a rule each [`Why`] is said once, at the first word.
#[tactic(auto, unfolding(crate::specs::Finding::remarks))]
pub fn remarks<'a>(alloc: Global, text: &'a [u8]) -> Result<Items<Remark<'a>>, AllocError>
    ensures { IfOk result (λ found. found ≡ spec.remarks text.now) }
{
    let marks = marks(alloc, text)?;
    if are_closed(marks.as_slice()) {
        remarks_of(alloc, marks.as_slice())
    } else {
        Ok(Items::new(alloc))
    }
}
