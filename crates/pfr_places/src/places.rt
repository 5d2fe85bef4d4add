//! Values by rising numbers, each at a place of its own where it stays until it is removed.
ghost use Rattle.std.specs.Prelude.{◌≡◌, ◌<◌, true, [], length, None, IfOk, OnErr};
ghost use Rattle.std.specs.Option.{option_copied};
ghost use Rattle.pfr_places.specs.Places as spec;

use crate::order::{Ordered, put, search, start_above, take};
use crate::place::Place;
use crate::slab::{first_value, make_vacant, replace, value_at};
use std::alloc::{AllocError, Global};
use std::marker::Model;

/// Values by rising numbers, each at a place of its own where it stays until it is removed. Contracts see the list of
/// the values in the order of their numbers.
#[derive(Drop)]
pub struct Places<T: Copy> {
    // What stands at each place.
    values: Vec<Option<T>>,
    // Places that were given up, the last one last. They are mere hints: each is looked at before it is used.
    vacant: Vec<Place>,
    // The numbers, each with its place. A number whose value was removed stays, with no place, until the list is swept.
    order: Vec<Ordered>,
    // How many values there are.
    count: usize,
}

impl<T: Copy> Model for Places<T> {
    ghost use Rattle.std.specs.Prelude.{List};
    ghost use Rattle.pfr_places.specs.Places.{Placed};
    ghost use Rattle.pfr_places.specs.Standing.{held, standing, AreStanding};

    ghost Value = { List (Placed T) };

    ghost view = { λ s. standing (held s.values.items) s.order.items };

    ghost invariant = { λ s. AreStanding s.values.items s.order.items s.count };
}

impl<T: Copy> Places<T> {
    /// No values. It takes memory only once values are put in.
    pub fn new(alloc: Global) -> Places<T>
        ensures { result ≡ [] }
    {
        Places {
            values: Vec::new(alloc),
            vacant: Vec::new(alloc),
            order: Vec::new(alloc),
            count: 0,
        }
    }

    /// How many values there are.
    pub fn len(&self) -> usize
        ensures count { result ≡ length self.now }
        ensures in_order { spec.rise self.now ≡ true }
        ensures own_places { spec.have_own_places self.now ≡ true }
    {
        self.count
    }

    /// The value at a place.
    #[inline]
    pub fn get(&self, place: Place) -> Option<&T>
        ensures { option_copied result ≡ spec.value_of (spec.at place self.now) }
    {
        value_at(&self.values, place)
    }

    /// The place of the value with a number.
    pub fn place_of(&self, number: u64) -> Option<Place>
        ensures { result ≡ spec.place_of (spec.of_number number self.now) }
    {
        match search(&self.order, number) {
            Ok(at) => self.order[at].place,
            Err(_) => None,
        }
    }

    /// The value with the least number.
    pub fn first(&self) -> Option<&T>
        ensures { option_copied result ≡ spec.value_of (spec.first self.now) }
    {
        first_value(&self.values, &self.order, 0)
    }

    /// The value with the least number above `number`.
    pub fn after(&self, number: u64) -> Option<&T>
        ensures { option_copied result ≡ spec.value_of (spec.after number self.now) }
    {
        let from = start_above(&self.order, number);
        first_value(&self.values, &self.order, from)
    }

    /// Drops the numbers whose values are gone, if the list of numbers is full and at least half of its values are
    /// gone.
    fn sweep(&mut self)
        ensures { self.new ≡ self.old }
    {
        if self.order.len() == self.order.capacity() && self.count <= self.order.len() / 2 {
            self.order.retain(|entry| entry.place.is_some());
        }
    }

    /// Takes the memory for one more number, and for the hint that its place was given up.
    fn reserve(&mut self) -> Result<(), AllocError>
        ensures { self.new ≡ self.old }
    {
        self.order.reserve(1)?;
        let places = self.values.len().saturating_add(1);
        self.vacant
            .reserve(places.saturating_sub(self.vacant.len()))
    }

    /// Puts a value with a new number at a place of its own. If memory is refused, nothing changes. It is refused as
    /// well if 4294967294 places are taken, as many as an index of 32 bits has room for.
    // A call would copy the value once more.
    #[inline(always)]
    pub fn insert(&mut self, number: u64, value: T) -> Result<Place, AllocError>
        requires { spec.of_number number self.old ≡ None }
        ensures done { IfOk result (λ place. self.new ≡ spec.with_placed (record { number = number; place = place; value = value }) self.old) }
        ensures fresh { IfOk result (λ place. spec.at place self.old ≡ None) }
        ensures within { IfOk result (λ place. place.0 < 4294967294) }
        ensures kept { OnErr result (self.new ≡ self.old) }
    {
        self.sweep();
        self.reserve()?;
        let place = make_vacant(&mut self.values, &mut self.vacant)?;
        // There is room for the number, so no place is lost to a refusal here.
        put(&mut self.order, number, place)?;
        self.values[place.0 as usize] = Some(value);
        self.count += 1;
        Ok(place)
    }

    /// Puts another value at a place; if nothing stands there, nothing changes.
    #[inline]
    pub fn set(&mut self, place: Place, value: T)
        ensures { self.new ≡ spec.with_value place value self.old }
    {
        replace(&mut self.values, place, value);
    }

    /// Takes the value with a number out, if there is one. It takes no memory.
    pub fn remove(&mut self, number: u64)
        ensures { self.new ≡ spec.without number self.old }
    {
        if let Some(place) = take(&mut self.order, number) {
            self.values[place.0 as usize] = None;
            self.count -= 1;
            // There is room for the hint since values were put in, for as many as there are places. Without the hint
            // the place would only never be used again.
            let _ = self.vacant.push(place);
        }
    }
}
