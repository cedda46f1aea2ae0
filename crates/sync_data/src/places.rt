ghost use Rattle.std.specs.Prelude.{◌≡◌, IfOk, IsOk, ◌↔◌, ◌<◌, ◌≤◌};
ghost use Rattle.sync_data.specs.Spot.{Spot};

use std::marker::Model;

/// Why two numbers are no place: the place lies beyond the list.
#[derive(Clone, Copy, Debug, PartialEq, Eq)]
pub struct BadPlace;

/// The place of an element of a list, counted from 0, with the length of the list: `place < prior`.
#[derive(Clone, Copy, PartialEq, Eq)]
pub struct Inside {
    place: u32,
    prior: u32,
}

impl Model for Inside {
    ghost use Rattle.std.specs.Prelude.{ℕ, ◌<◌};
    ghost use Rattle.sync_data.specs.Spot.{Spot};

    ghost Value = { Spot };

    ghost view = { λ a. record { place = a.place; prior = a.prior } };

    ghost invariant = { λ a. a.place < a.prior };

    ghost inverse = { λ d. record { place = d.place; prior = d.prior } };
}

impl Inside {
    /// That place in a list of that length. It takes no memory.
    pub fn new(place: u32, prior: u32) -> Result<Inside, BadPlace>
        ensures ok { IfOk result (λ spot. spot ≡ record { place = place; prior = prior }) }
        ensures good { IsOk result ↔ (place < prior) }
    {
        if place >= prior {
            return Err(BadPlace);
        }
        Ok(Inside { place, prior })
    }

    /// The place.
    pub fn place(&self) -> u32
        ensures value { result ≡ self.now.place }
        ensures inside { result < self.now.prior }
    {
        self.place
    }

    /// The length of the list.
    pub fn prior(&self) -> u32
        ensures value { result ≡ self.now.prior }
    {
        self.prior
    }
}

/// A gap of a list, by the number of elements before it, with the length of the list: `place <= prior`.
#[derive(Clone, Copy, PartialEq, Eq)]
pub struct Between {
    place: u32,
    prior: u32,
}

impl Model for Between {
    ghost use Rattle.std.specs.Prelude.{ℕ, ◌≤◌};
    ghost use Rattle.sync_data.specs.Spot.{Spot};

    ghost Value = { Spot };

    ghost view = { λ a. record { place = a.place; prior = a.prior } };

    ghost invariant = { λ a. a.place ≤ a.prior };

    ghost inverse = { λ d. record { place = d.place; prior = d.prior } };
}

impl Between {
    /// That place in a list of that length. It takes no memory.
    pub fn new(place: u32, prior: u32) -> Result<Between, BadPlace>
        ensures ok { IfOk result (λ spot. spot ≡ record { place = place; prior = prior }) }
        ensures good { IsOk result ↔ (place ≤ prior) }
    {
        if place > prior {
            return Err(BadPlace);
        }
        Ok(Between { place, prior })
    }

    /// The place.
    pub fn place(&self) -> u32
        ensures value { result ≡ self.now.place }
        ensures between { result ≤ self.now.prior }
    {
        self.place
    }

    /// The length of the list.
    pub fn prior(&self) -> u32
        ensures value { result ≡ self.now.prior }
    {
        self.prior
    }
}
