// Turns: how one begins, by waiting or by a try, and how it ends.
ghost use Rattle.std.specs.Prelude.{◌≡◌, ◌<◌, ◌++◌, ◌∷◌, [], IfOk, IfErr, false, Some};
ghost use Rattle.std.specs.Borrow.{sem, RestsIfErr};
ghost use Rattle.turn_cell.specs.contracts.pass.Pass.{the_row};
ghost use Rattle.turn_cell.specs.Rules.{IsEntered};
ghost use Rattle.turn_cell.specs.Turns.{IsPassOf, IsInTurn, Turned, Refused, Finished, root_of, seen, number_of, left_of, cell_of, pass_of, value_of};

use crate::cell::{Place, TurnCell};
use crate::pass::Pass;
use crate::rule::{Draws, Kept, Looks, PassesOn, Stands, Tries};
use std::snapshot::Snapshot;
use std::sync::Wait;

// The word whose value is the next ticket to be drawn.
const NEXT: usize = 0;

// The word whose value is the ticket that is served, which is the number of turns that ended.
const SERVING: usize = 1;

/// Another caller had the turn, or waited for it: `next` was seen above `serving`.
#[derive(Clone, Copy, Debug, PartialEq, Eq)]
pub struct Busy {
    pub serving: u64,
    pub next: u64,
}

/// A turn: its pass may change the value, until `finish`. It is not `Drop`, so it has to be finished.
pub struct Turn<'c, 'p, S: Stands> {
    pub(crate) cell: &'c TurnCell<S>,
    pub(crate) pass: &'p mut Pass<S>,
    pub(crate) value: S,
}

impl<S: Stands> TurnCell<S> {
    // Waits until the ticket drawn is served.
    fn wait_seat<W: Wait>(&self, rt: &W, seat: &mut Place<S, S::Entry>, ticket: u64)
        requires own { seat.old.table_id ≡ self.now.table.shared.table_id }
        requires waits { (seat.old.me.0.ticket ≡ Some ticket) × (seat.old.me.0.in_turn ≡ false) × (seat.old.me.1 ≡ []) }
        ensures own { seat.new.table_id ≡ seat.old.table_id }
        ensures entered { IsEntered S.stands S.caller S.same_root seat.old.me seat.new.me }
    {
        let shared = &self.table.shared;
        for _ in rt.forever() {
            let found = shared.load::<Looks<S>>(seat, SERVING);
            if found == ticket {
                break;
            }
            shared.park(rt, SERVING, (found & 0xffff_ffff) as u32);
        }
    }

    // Draws a ticket, and takes the value once it is served.
    fn wait_turn<W: Wait>(&self, rt: &W, pass: &mut Pass<S>) -> S
        requires own { IsPassOf self.now pass.old }
        requires left { 0 < left_of pass.old }
        ensures { Turned S.stands S.caller S.same_root self.now pass.old pass.new result }
    {
        let shared = &self.table.shared;
        let ticket = shared.fetch_add::<Draws>(&mut pass.seat, NEXT, 1);
        pass.left -= 1;
        self.wait_seat(rt, &mut pass.seat, ticket);
        match shared.exchange(&mut pass.seat, 0, None) {
            Some(Kept { value, last: _ }) => value,
            None => unreachable!(),
        }
    }

    // Draws the ticket that is served, if nobody has drawn it, and takes the value.
    fn try_for_turn(&self, pass: &mut Pass<S>) -> Result<S, Busy>
        requires own { IsPassOf self.now pass.old }
        requires left { 0 < left_of pass.old }
        ensures turn { IfOk result (λ y. Turned S.stands S.caller S.same_root self.now pass.old pass.new y) }
        ensures busy { IfErr result (λ b. Refused self.now pass.old pass.new b) }
    {
        let shared = &self.table.shared;
        let serving = shared.load::<Looks<S>>(&mut pass.seat, SERVING);
        let next = shared.compare_exchange::<Tries<S>>(&mut pass.seat, NEXT, serving, serving + 1);
        if next != serving {
            return Err(Busy { serving, next });
        }
        pass.left -= 1;
        match shared.exchange(&mut pass.seat, 0, None) {
            Some(Kept { value, last: _ }) => Ok(value),
            None => unreachable!(),
        }
    }

    // Puts the value back beside the entry, and passes the turn on.
    fn give_back(&self, pass: &mut Pass<S>, value: S, entry: &S::Entry)
        requires turn { IsInTurn self.now pass.old }
        requires stands { S.stands value (seen pass.old ++ entry.now ∷ []) }
        requires root { S.same_root (root_of self.now) value }
        requires names { S.caller entry.now ≡ number_of pass.old }
        ensures { Finished S.caller self.now pass.old pass.new entry.now }
    {
        let shared = &self.table.shared;
        let last = Some(Snapshot::of(entry));
        match shared.exchange(&mut pass.seat, 0, Some(Kept { value, last })) {
            None => {}
            Some(_) => unreachable!(),
        }
        let served = shared.fetch_add::<PassesOn>(&mut pass.seat, SERVING, 1);
        self.wake_waiting(served);
    }

    // Wakes those that wait, once the turn with this number is over. A waiter draws its number before
    // it looks at `serving`, so `next` shows it here, and an uncontended turn makes no system call.
    fn wake_waiting(&self, served: u64) {
        let shared = &self.table.shared;
        if shared.peek(NEXT).wrapping_sub(served) != 1 {
            shared.wake_all(SERVING);
        }
    }
}

impl<S: Stands> TurnCell<S> {
    /// Waits for the turn of this pass. Turns come in the order in which their callers drew a number; when, is not promised.
    pub fn turn<'c, 'p, W: Wait>(&'c self, rt: &W, pass: &'p mut Pass<S>) -> Turn<'c, 'p, S>
        requires own { IsPassOf self.now pass.old }
        requires left { 0 < left_of pass.old }
        ensures same_reference { result.pass.ghost_name ≡ pass.entry.ghost_name }
        ensures cell { cell_of result ≡ self.now }
        ensures turn { Turned S.stands S.caller S.same_root self.now pass.old (pass_of result) (value_of result) }
    {
        let value = self.wait_turn(rt, pass);
        Turn {
            cell: self,
            pass,
            value,
        }
    }
}

impl<S: Stands> Pass<S> {
    /// The turn of this pass, where no other has one or waits for one: one load and one exchange, and no waiting.
    pub fn try_turn<'c, 'p>(&'p mut self, cell: &'c TurnCell<S>) -> Result<Turn<'c, 'p, S>, Busy>
        requires own { IsPassOf cell.now self.old }
        requires left { 0 < left_of self.old }
        ensures* refused { sem 𝓛 (RestsIfErr (the_row S.row S.Entry.row) self.entry (λ t. t.pass.ghost_name) result (λ p. IfErr result (λ b. Refused cell.now self.old p b))) }
        ensures same_reference { IfOk result (λ t. t.pass.ghost_name ≡ self.entry.ghost_name) }
        ensures cell { IfOk result (λ t. cell_of t ≡ cell.now) }
        ensures turn { IfOk result (λ t. Turned S.stands S.caller S.same_root cell.now self.old (pass_of t) (value_of t)) }
        ensures busy { IfErr result (λ b. b.serving < b.next) }
    {
        let value = cell.try_for_turn(self)?;
        Ok(Turn {
            cell,
            pass: self,
            value,
        })
    }
}

impl<'c, 'p, S: Stands> Turn<'c, 'p, S> {
    /// Ends the turn with its entry, and lets the next caller in.
    pub fn finish(self, entry: &S::Entry)
        requires turn { IsInTurn (cell_of self) (pass_of self) }
        requires stands { S.stands (value_of self) (seen (pass_of self) ++ entry.now ∷ []) }
        requires root { S.same_root (root_of (cell_of self)) (value_of self) }
        requires names { S.caller entry.now ≡ number_of (pass_of self) }
        ensures { Finished S.caller (cell_of self.entry) (pass_of self.entry) self.exit.1.0.now entry.now }
    {
        let Turn { cell, pass, value } = self;
        cell.give_back(pass, value, entry);
    }
}
