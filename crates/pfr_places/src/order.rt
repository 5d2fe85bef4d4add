//! Numbers in rising order, each with the place of its value.
ghost use Rattle.std.specs.Prelude.{◌≡◌, ◌<◌, true, length, IfOk, IfErr, IfSome, IfNone, OnErr, OnOk};
ghost use Rattle.std.specs.List.{list_all};
ghost use Rattle.pfr_places.specs.Standing.{is_below, numbers_rise, IsFrom, IsGone, IsPut, IsRankFor, IsRankOf, IsTaken};

use crate::place::Place;
use std::alloc::AllocError;

/// A number with the place of its value, or with none once that value is gone.
#[derive(Clone, Copy)]
pub(crate) struct Ordered {
    pub(crate) number: u64,
    pub(crate) place: Option<Place>,
}

/// Whether a number is above those of all entries.
fn is_last(order: &[Ordered], number: u64) -> bool
    requires { numbers_rise order.now ≡ true }
    ensures { result ≡ true → list_all (is_below number) order.now ≡ true }
{
    match order.last() {
        Some(last) => last.number < number,
        None => true,
    }
}

/// The index of the entry of a number, or else the index before which an entry of that number belongs.
pub(crate) fn search(order: &[Ordered], number: u64) -> Result<usize, usize>
    requires { numbers_rise order.now ≡ true }
    ensures found { IfOk result (λ at. IsRankOf number at order.now) }
    ensures absent { IfErr result (λ at. IsRankFor number at order.now) }
{
    // New numbers are mostly greater than all others.
    if is_last(order, number) {
        return Err(order.len());
    }
    let at = order.partition_point(|entry| entry.number < number);
    match order.get(at) {
        Some(entry) => {
            if entry.number == number {
                Ok(at)
            } else {
                Err(at)
            }
        }
        None => Err(at),
    }
}

/// Gives a place to a number that has none. If memory is refused, nothing changes.
pub(crate) fn put(order: &mut Vec<Ordered>, number: u64, place: Place) -> Result<(), AllocError>
    requires { numbers_rise order.old.items ≡ true }
    ensures done { OnOk result (IsPut number place order.old.items order.new.items) }
    ensures few { length order.new.items < 18446744073709551616 }
    ensures kept { OnErr result (order.new.items ≡ order.old.items) }
{
    let entry = Ordered {
        number,
        place: Some(place),
    };
    match search(order, number) {
        Ok(at) => {
            order[at] = entry;
            Ok(())
        }
        Err(at) => {
            order.insert(at, entry)?;
            Ok(())
        }
    }
}

/// Takes the place of a number away, if it has one. Its entry stays.
pub(crate) fn take(order: &mut Vec<Ordered>, number: u64) -> Option<Place>
    requires { numbers_rise order.old.items ≡ true }
    ensures taken { IfSome result (λ place. IsTaken number place order.old.items order.new.items) }
    ensures gone { IfNone result (IsGone number order.old.items) }
    ensures kept { IfNone result (order.new.items ≡ order.old.items) }
{
    match search(order, number) {
        Ok(at) => match order[at].place {
            Some(place) => {
                order[at] = Ordered {
                    number,
                    place: None,
                };
                Some(place)
            }
            None => None,
        },
        Err(_) => None,
    }
}

/// The index from which on the entries have numbers above `number`.
pub(crate) fn start_above(order: &[Ordered], number: u64) -> usize
    requires { numbers_rise order.now ≡ true }
    ensures { IsFrom number result order.now }
{
    match search(order, number) {
        Ok(at) => at + 1,
        Err(at) => at,
    }
}
