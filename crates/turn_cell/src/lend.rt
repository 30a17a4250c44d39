// The value of a turn, lent. Its clause names the row of `Turn`, which the file of `Turn` cannot import.
ghost use Rattle.std.specs.Prelude.{◌≡◌};
ghost use Rattle.std.specs.Borrow.{sem};
ghost use Rattle.turn_cell.specs.Lending.{LendsValue};
ghost use Rattle.turn_cell.specs.Turns.{value_of};

use crate::rule::Stands;
use crate::turn::Turn;

impl<'c, 'p, S: Stands> Turn<'c, 'p, S> {
    /// The value of the cell.
    pub fn value(&mut self) -> &mut S
        ensures* writes_back { sem 𝓛 (LendsValue S.row S.Entry.row S.Stands self.entry result) }
        ensures value { result.now ≡ value_of self.old }
    {
        &mut self.value
    }
}
