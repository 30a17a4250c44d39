// How a cell is closed.
ghost use Rattle.std.specs.Prelude.{◌≡◌, ◌+◌, ◌<◌, ◌≤◌, [], IfOk, IfErr, vec_len, None};
ghost use Rattle.std.specs.List.{All};
ghost use Rattle.turn_cell.specs.Rules.{IsLast};
ghost use Rattle.turn_cell.specs.Turns.{IsPassOf, IsGathered, Closed, root_of, passes_of};

use crate::cell::{Place, TurnCell};
use crate::pass::Pass;
use crate::rule::{Kept, Merge, Stands};
use crate::spare::free_spares;

const SERVING: usize = 1;

/// What a closed cell leaves: its value, and the length of its history.
#[derive(Drop)]
pub struct ClosedCell<S> {
    pub value: S,
    pub turns: u64,
}

/// Passes are missing: all is handed back, with the number of passes that were made.
#[derive(Drop)]
pub struct CloseNo<S: Stands> {
    pub cell: TurnCell<S>,
    pub passes: Vec<Pass<S>>,
    pub made: u32,
}

impl<S: Stands> TurnCell<S> {
    /// Ends the cell where no pass is missing; else all comes back.
    pub fn close(self, passes: Vec<Pass<S>>) -> Result<ClosedCell<S>, CloseNo<S>>
        requires own { All (IsPassOf self) passes.items }
        ensures closed { IfOk result (λ c. (passes_of self ≤ vec_len passes) × Closed S.stands S.caller S.same_root self passes.items c) }
        ensures refused { IfErr result (λ n. (vec_len passes < passes_of self) × (n.cell ≡ self) × (n.passes ≡ passes) × (n.made ≡ passes_of self)) }
    {
        if passes.len() < self.passes as usize {
            let made = self.passes;
            return Err(CloseNo {
                cell: self,
                passes,
                made,
            });
        }
        let seat = self.gather(passes);
        Ok(self.end(seat))
    }

    // Joins all passes into one seat.
    fn gather(&self, mut passes: Vec<Pass<S>>) -> Place<S, S::Entry>
        requires own { All (IsPassOf self.now) passes.items }
        requires some { 0 < vec_len passes }
        ensures own { result.table_id ≡ self.now.table.shared.table_id }
        ensures all { IsGathered passes.items [] result.me }
    {
        let Some(pass) = passes.pop() else {
            unreachable!()
        };
        let mut seat = pass.into_seat();
        while let Some(pass) = passes.pop() {
            self.table
                .shared
                .join_seat::<Merge>(&mut seat, pass.into_seat());
        }
        passes.destroy_empty();
        seat
    }

    // Ends the table with the seat that has every part.
    fn end(self, seat: Place<S, S::Entry>) -> ClosedCell<S>
        requires own { seat.table_id ≡ self.table.shared.table_id }
        requires last { (seat.me.0.ticket ≡ None) × (passes_of self ≤ seat.me.0.parts) }
        ensures { IsLast S.stands S.caller S.same_root (root_of self) (passes_of self) seat.me.0 result.value result.turns }
    {
        let TurnCell { table, passes: _ } = self;
        let mut closed = table.close_with(seat);
        let turns = closed.word(SERVING);
        let kept = closed.take(0);
        free_spares(closed);
        match kept {
            Some(Kept { value, last: _ }) => ClosedCell { value, turns },
            None => unreachable!(),
        }
    }
}
