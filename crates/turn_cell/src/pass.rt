// A pass: the right to take turns under one number.
ghost use Rattle.std.specs.Prelude.{◌≡◌};
ghost use Rattle.turn_cell.specs.Turns.{number_of, left_of};

use crate::cell::Place;
use crate::rule::Stands;

/// The right to take turns at one cell, under a number of its own.
#[derive(Drop)]
pub struct Pass<S: Stands> {
    pub(crate) seat: Place<S, S::Entry>,
    pub(crate) number: u32,
    pub(crate) left: u64,
}

impl<S: Stands> Pass<S> {
    /// The number under which the entries of this pass stand.
    pub fn number(&self) -> u32
        ensures { result ≡ number_of self.now }
    {
        self.number
    }

    /// How many turns this pass may still take.
    pub fn left(&self) -> u64
        ensures { result ≡ left_of self.now }
    {
        self.left
    }

    pub(crate) fn into_seat(self) -> Place<S, S::Entry>
        ensures { result ≡ self.seat }
    {
        let Self {
            seat,
            number: _,
            left: _,
        } = self;
        seat
    }
}
