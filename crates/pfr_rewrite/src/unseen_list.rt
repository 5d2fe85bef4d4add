//! Lists of addresses of which nothing is left, since macros stand for what no packet has.
ghost use Rattle.std.specs.Prelude.{◌≡◌, IfOk};
ghost use Rattle.pfr_rewrite.specs.UnseenLists as spec;

use crate::unseen::unseen_value;
use pfr_marks::mark::{Mark, is};
use pfr_phrases::options::{Group, element_len};
use pfr_phrases::reason::Reason;
use pfr_spelling::known::Known;
use std::alloc::{AllocError, Global};

/// Why an element is left out, and how many marks it has.
#[derive(Clone, Copy)]
struct Why {
    reason: Reason,
    count: usize,
}

/// Why the element at the front is left out for its own words, if it is.
#[tactic(auto, unfolding(crate::specs::UnseenLists::own_why))]
fn own_why(marks: &[Mark<'_>]) -> Option<Why>
    ensures { result ≡ spec.own_why marks.now }
{
    let address = element_len(Group::Inet6, marks);
    if 0 < address {
        return Some(Why {
            reason: Reason::Inet6,
            count: address,
        });
    }
    let other = element_len(Group::Unseen, marks);
    if 0 < other {
        Some(Why {
            reason: Reason::Criterion,
            count: other,
        })
    } else {
        None
    }
}

/// Why the element at the front is left out, if it is: for its own words, or for the value of its macro, of at most
/// `left` bytes.
#[tactic(auto, unfolding(crate::specs::UnseenLists::element_why))]
fn element_why(
    alloc: Global,
    known: &Known,
    left: usize,
    marks: &[Mark<'_>],
) -> Result<Option<Why>, AllocError>
    ensures { IfOk result (λ why. why ≡ spec.element_why known.now left marks.now) }
{
    if let Some(why) = own_why(marks) {
        return Ok(Some(why));
    }
    match unseen_value(alloc, known, left, marks)? {
        Some(reason) => Ok(Some(Why { reason, count: 1 })),
        None => Ok(None),
    }
}

/// What is known of a list before a mark.
#[derive(Clone, Copy)]
struct Seen {
    /// How many marks belong to an element before.
    passed: usize,
    /// How many bytes of macros' values may still be read.
    left: usize,
    /// Why its elements are left out, if it has any.
    reason: Option<Reason>,
}

/// How a list goes on behind a mark.
#[derive(Clone, Copy)]
enum Step {
    Goes(Seen),
    Ends(Option<Reason>),
}

/// Why two parts of a list are left out.
fn reason_of_both(before: Option<Reason>, here: Reason) -> Option<Reason>
    ensures { result ≡ spec.reason_of_both before here }
{
    match before {
        Some(Reason::Inet6) | None => Some(here),
        Some(other) => Some(other),
    }
}

/// Whether a mark stands between elements or before one, and belongs to none.
fn is_between(mark: &Mark<'_>) -> bool
    ensures { result ≡ spec.is_between mark.now }
{
    is(mark, b",") || is(mark, b"\n") || is(mark, b"!")
}

impl Seen {
    /// What is known behind a mark of an element before.
    fn behind_part(self) -> Seen
        ensures { result ≡ spec.behind_part self }
    {
        Seen {
            passed: self.passed.saturating_sub(1),
            left: self.left,
            reason: self.reason,
        }
    }

    /// What is known behind the first mark of an element.
    fn behind_element(self, why: Why, value_len: usize) -> Seen
        ensures { result ≡ spec.behind_element self why value_len }
    {
        Seen {
            passed: why.count.saturating_sub(1),
            left: self.left.saturating_sub(value_len),
            reason: reason_of_both(self.reason, why.reason),
        }
    }
}

/// How a list goes on behind the element at the front. If the element isn't left out, the list ends.
#[tactic(auto, unfolding(crate::specs::UnseenLists::element_step))]
fn element_step(
    alloc: Global,
    known: &Known,
    seen: Seen,
    marks: &[Mark<'_>],
) -> Result<Step, AllocError>
    ensures { IfOk result (λ step. step ≡ spec.element_step known.now seen marks.now) }
{
    match element_why(alloc, known, seen.left, marks)? {
        Some(why) => Ok(Step::Goes(seen.behind_element(why, known.value_len(marks)))),
        None => Ok(Step::Ends(None)),
    }
}

/// How a list goes on behind the mark at the front. Without a mark it ends with nothing known.
#[tactic(auto, unfolding(crate::specs::UnseenLists::list_step))]
fn list_step(
    alloc: Global,
    known: &Known,
    seen: Seen,
    marks: &[Mark<'_>],
) -> Result<Step, AllocError>
    ensures { IfOk result (λ step. step ≡ spec.list_step known.now seen marks.now) }
{
    let Some(first) = marks.first() else {
        return Ok(Step::Ends(None));
    };
    if 0 < seen.passed {
        return Ok(Step::Goes(seen.behind_part()));
    }
    if is(first, b"}") {
        return Ok(Step::Ends(seen.reason));
    }
    if is_between(first) {
        return Ok(Step::Goes(seen));
    }
    element_step(alloc, known, seen, marks)
}

/// Why all elements of a list are left out, if they are and there is one. At the front stands the first mark behind the
/// list's brace.
pub(crate) fn unseen_list(
    alloc: Global,
    known: &Known,
    left: usize,
    marks: &[Mark<'_>],
) -> Result<Option<Reason>, AllocError>
    ensures { IfOk result (λ reason. reason ≡ spec.unseen_list known.now left marks.now) }
{
    let mut seen = Seen {
        passed: 0,
        left,
        reason: None,
    };
    for at in 0..marks.len() {
        match list_step(alloc, known, seen, &marks[at..])? {
            Step::Goes(next) => seen = next,
            Step::Ends(reason) => return Ok(reason),
        }
    }
    Ok(None)
}
