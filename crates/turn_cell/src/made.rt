// How a cell is made with its passes.
ghost use Rattle.std.specs.Prelude.{◌≡◌, ◌+◌, ◌-◌, ◌*◌, ◌<◌, ◌≤◌, [], IfOk, vec_len, vec_capacity};
ghost use Rattle.turn_cell.specs.Rules.{IsOrigin};
ghost use Rattle.turn_cell.specs.Turns.{AreFresh, root_of, passes_of};

use crate::cell::{Place, TurnCell};
use crate::pass::Pass;
use crate::rule::{About, Cut, Kept, Numbers, Stands};
use crate::spare::row;
use atomic_table::Table;
use gate_io::Want;
use std::alloc::Global;
use std::snapshot::Snapshot;

// The word that counts the numbers given to passes.
const MADE: usize = 2;

/// Three words are used. The others keep the words of two cells out of one line of the processor's cache.
const WORDS: usize = 16;

/// The turns that a pass may take.
const TURNS: u64 = 281_474_976_710_655;

impl<S: Stands + Drop> TurnCell<S> {
    /// A cell with this value, and its passes, numbered from 0. Memory is taken here alone.
    pub fn new(alloc: Global, value: S, passes: u32) -> Result<(TurnCell<S>, Vec<Pass<S>>), Want>
        requires count { (0 < passes) × (passes < 32768) }
        requires stands { S.stands value [] × S.same_root value value }
        ensures cell { IfOk result (λ r. (root_of r.0 ≡ value) × (passes_of r.0 ≡ passes)) }
        ensures passes { IfOk result (λ r. (vec_len r.1 ≡ passes) × AreFresh r.0 r.1.items) }
    {
        let Ok(room) = Vec::with_capacity(alloc, passes as usize) else {
            return Err(Want);
        };
        let (cell, seat) = match TurnCell::first(alloc, value, passes) {
            Ok(made) => made,
            Err(want) => {
                room.destroy_empty();
                return Err(want);
            }
        };
        let passes = cell.deal(seat, room)?;
        Ok((cell, passes))
    }

    // The table, with the seat from which passes are split.
    fn first(
        alloc: Global,
        value: S,
        passes: u32,
    ) -> Result<(TurnCell<S>, Place<S, S::Entry>), Want>
        requires count { (0 < passes) × (passes < 32768) }
        requires stands { S.stands value [] × S.same_root value value }
        ensures cell { IfOk result (λ r. (root_of r.0 ≡ value) × (passes_of r.0 ≡ passes)) }
        ensures seat { IfOk result (λ r. (r.1.table_id ≡ r.0.table.shared.table_id) × IsOrigin value passes passes r.1.me) }
    {
        let about = About {
            root: Snapshot::of(&value),
            passes,
        };
        let slots = row(alloc, Kept { value, last: None })?;
        match Table::new(alloc, &[0; WORDS], slots, &about) {
            Ok((table, seat)) => Ok((TurnCell { table, passes }, seat)),
            Err(_) => Err(Want),
        }
    }

    // Splits the passes off and numbers them.
    fn deal(
        &self,
        mut seat: Place<S, S::Entry>,
        mut room: Vec<Pass<S>>,
    ) -> Result<Vec<Pass<S>>, Want>
        requires seat { (seat.table_id ≡ self.now.table.shared.table_id) × IsOrigin (root_of self.now) (passes_of self.now) (passes_of self.now) seat.me }
        requires room { (room.items ≡ []) × (passes_of self.now ≤ vec_capacity room) }
        ensures { IfOk result (λ v. (vec_len v ≡ passes_of self.now) × AreFresh self.now v.items) }
    {
        let shared = &self.table.shared;
        let mut number = 0;
        while number < self.passes {
            let mut part = shared.split_seat::<Cut>(&mut seat);
            let made = number as u64;
            let found = shared.compare_exchange::<Numbers>(&mut part, MADE, made, made + 1);
            if found != made {
                return Err(Want);
            }
            room.push_reserved(Pass {
                seat: part,
                number,
                left: TURNS,
            });
            number += 1;
        }
        Ok(room)
    }
}
