//! A slab of values, each at a place of its own.
ghost use Rattle.std.specs.Prelude.{◌≡◌, ◌≤◌, ◌<◌, ℕ, true, is_some, slice_set, Some, None, length, drop, IfOk};
ghost use Rattle.std.specs.Option.{option_copied};
ghost use Rattle.pfr_places.specs.Places.{first, value_of};
ghost use Rattle.pfr_places.specs.Standing.{held, placed_of, standing};

use crate::order::Ordered;
use crate::place::Place;
use std::alloc::AllocError;

/// How many places a slab has at most. Two indexes of 32 bits stay free, with which callers can say that there is no
/// place.
const MOST: usize = 4294967294;

/// What stands at a place.
#[inline]
pub(crate) fn value_at<T: Copy>(values: &[Option<T>], place: Place) -> Option<&T>
    ensures { option_copied result ≡ held values.now place.0 }
{
    match values.get(place.0 as usize) {
        Some(Some(value)) => Some(value),
        _ => None,
    }
}

/// Puts another value at a place; if nothing stands there, nothing changes.
#[inline]
pub(crate) fn replace<T: Copy>(values: &mut Vec<Option<T>>, place: Place, value: T)
    ensures there { is_some (held values.old.items place.0) ≡ true → values.new.items ≡ slice_set values.old.items place.0 (Some value) }
    ensures nothing { held values.old.items place.0 ≡ None → values.new.items ≡ values.old.items }
{
    if let Some(standing) = values.get_mut(place.0 as usize) {
        if standing.is_some() {
            *standing = Some(value);
        }
    }
}

/// The value at the place of an entry, if there is one.
fn value_of_entry<'a, T: Copy>(values: &'a [Option<T>], entry: &Ordered) -> Option<&'a T>
    ensures { option_copied result ≡ value_of (placed_of (held values.now) entry.now) }
{
    match entry.place {
        Some(place) => value_at(values, place),
        None => None,
    }
}

/// The first value that stands at the place of an entry, of the entries from index `from` on.
pub(crate) fn first_value<'a, T: Copy>(
    values: &'a [Option<T>],
    order: &[Ordered],
    from: usize,
) -> Option<&'a T>
    ensures { option_copied result ≡ value_of (first (standing (held values.now) (drop from order.now))) }
{
    let mut at = from;
    while at < order.len() {
        let value = value_of_entry(values, &order[at]);
        if value.is_some() {
            return value;
        }
        at += 1;
    }
    None
}

/// Whether a slab has this place, and nothing stands there.
fn is_vacant<T: Copy>(values: &[Option<T>], place: Place) -> bool
    ensures there { result ≡ true → place.0 < length values.now }
    ensures vacant { result ≡ true → held values.now place.0 ≡ None }
{
    match values.get(place.0 as usize) {
        Some(value) => value.is_none(),
        None => false,
    }
}

/// A place where nothing stands: the last one that was given up, or else a new one behind all others. A new one is
/// refused if the slab has as many places as an index of 32 bits tells apart.
pub(crate) fn make_vacant<T: Copy>(
    values: &mut Vec<Option<T>>,
    vacant: &mut Vec<Place>,
) -> Result<Place, AllocError>
    requires { length values.old.items ≤ 4294967294 }
    ensures same { (index : ℕ) → held values.new.items index ≡ held values.old.items index }
    ensures few { length values.new.items ≤ 4294967294 }
    ensures there { IfOk result (λ place. place.0 < length values.new.items) }
    ensures vacant { IfOk result (λ place. held values.old.items place.0 ≡ None) }
{
    if let Some(place) = vacant.pop() {
        if is_vacant(values, place) {
            return Ok(place);
        }
    }
    let count = values.len();
    if count >= MOST {
        return Err(AllocError);
    }
    values.push(None)?;
    Ok(Place(count as u32))
}
