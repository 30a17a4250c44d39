// The plainest value of a cell: a list of marks, one for each turn.
ghost use Rattle.std.specs.Prelude.{◌≡◌, ◌+◌, ◌<◌, ◌++◌, ◌∷◌, [], false, OnOk, IfErr};
ghost use Rattle.turn_cell.specs.Turns.{IsPassOf, Refused, mine, number_of, left_of};

use crate::{Busy, Pass, Stands, TurnCell};
use std::sync::Wait;

/// The entry of a turn: the number of the pass that took it, and which of that pass's turns it is.
#[derive(Clone, Copy, Debug, PartialEq, Drop)]
pub struct Mark {
    pub by: u32,
    pub round: u32,
}

/// The marks of all turns, in their order, unless there was no room for one.
#[derive(Drop)]
pub struct Marks {
    pub marks: Vec<Mark>,
    pub full: bool,
}

impl Stands for Marks {
    type Entry = Mark;

    ghost stands = { λ m h. m.full ≡ false → m.marks.items ≡ h };

    ghost caller = { λ e. e.by };

    ghost same_root = { λ a b. Unit {0} };
}

impl Marks {
    /// Adds a mark, or notes that there is no room for it.
    pub fn add(&mut self, mark: Mark)
        ensures { self.new.full ≡ false → (self.old.full ≡ false) × (self.new.marks.items ≡ self.old.marks.items ++ mark ∷ []) }
    {
        if self.marks.len() < self.marks.capacity() {
            self.marks.push_reserved(mark);
        } else {
            self.full = true;
        }
    }
}

/// Takes one turn, which leaves the mark.
pub fn leave_mark<R: Wait>(rt: &R, cell: &TurnCell<Marks>, pass: &mut Pass<Marks>, mark: Mark)
    requires own { IsPassOf cell.now pass.old }
    requires left { 0 < left_of pass.old }
    requires names { mark.by ≡ number_of pass.old }
    ensures own { IsPassOf cell.now pass.new }
    ensures left { (number_of pass.new ≡ number_of pass.old) × (left_of pass.new + 1 ≡ left_of pass.old) }
    ensures mine { mine (λ e. e.by) pass.new ≡ mine (λ e. e.by) pass.old ++ mark ∷ [] }
{
    let mut turn = cell.turn(rt, pass);
    turn.value().add(mark);
    turn.finish(&mark);
}

/// The same without waiting.
pub fn try_to_leave_mark(
    cell: &TurnCell<Marks>,
    pass: &mut Pass<Marks>,
    mark: Mark,
) -> Result<(), Busy>
    requires own { IsPassOf cell.now pass.old }
    requires left { 0 < left_of pass.old }
    requires names { mark.by ≡ number_of pass.old }
    ensures own { IsPassOf cell.now pass.new }
    ensures number { number_of pass.new ≡ number_of pass.old }
    ensures taken { OnOk result ((left_of pass.new + 1 ≡ left_of pass.old) × (mine (λ e. e.by) pass.new ≡ mine (λ e. e.by) pass.old ++ mark ∷ [])) }
    ensures refused { IfErr result (λ b. Refused cell.now pass.old pass.new b) }
{
    let mut taken = pass.try_turn(cell)?;
    taken.value().add(mark);
    taken.finish(&mark);
    Ok(())
}
