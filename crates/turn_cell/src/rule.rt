// What holds of a cell between any two steps, and what a step tells.
ghost use Rattle.std.specs.Prelude.{ℕ, List};

use atomic_table::{Join, Play, Split, TableRule};
use std::collections::LinkedList;
use std::marker::PhantomData;
use std::snapshot::Snapshot;

/// A value that turns change, and the entries that they leave.
pub trait Stands {
    type Entry;

    // The value is what these entries, in this order, have made.
    ghost stands: { Self → List Self.Entry → Type 0 };

    // The number of the pass that an entry names.
    ghost caller: { Self.Entry → ℕ };

    // The second value has the root of the first, the data that no turn changes.
    ghost same_root: { Self → Self → Type 0 };
}

/// What lies in the slot: the value, and the entry of the turn that put it there.
#[derive(Drop)]
pub struct Kept<S, E> {
    pub value: S,
    pub last: Option<Snapshot<E>>,
}

// What a seat knows. No value of it is made.
pub struct View<S, E> {
    pub root: Option<S>,
    pub passes: u32,
    pub number: Option<u32>,
    pub seen: LinkedList<E>,
    pub ticket: Option<u64>,
    pub in_turn: bool,
    pub looks: u64,
    pub looked: u64,
    pub tries: u64,
    pub tried: u64,
    pub taken: LinkedList<(u32, LinkedList<E>)>,
    pub parts: u32,
    pub left: u64,
}

/// The rule that every step of a seat keeps.
pub struct Law;

/// What is fixed when the cell is made.
#[derive(Drop)]
pub struct About<S> {
    pub root: Snapshot<S>,
    pub passes: u32,
}

impl<S: Stands> TableRule<Option<Kept<S, S::Entry>>, View<S, S::Entry>, About<S>> for Law {
    ghost use Rattle.turn_cell.specs.Rules.{Rule, newcomer};

    ghost holds = { λ about. Rule S.stands S.caller S.same_root about.root.value about.passes };

    ghost first = { λ about. newcomer about.root.value about.passes };
}

/// A new seat takes one part, and the turns of one pass.
pub(crate) struct Cut;

impl<S, E> Split<View<S, E>> for Cut {
    ghost use Rattle.turn_cell.specs.Rules.{cut_from, cut};

    ghost left = { cut_from };

    ghost right = { cut };
}

// One seat takes another in.
pub(crate) struct Merge;

impl<S, E> Join<View<S, E>> for Merge {
    ghost use Rattle.turn_cell.specs.Rules.{merged, spent};

    ghost both = { merged };

    ghost spent = { spent };
}

// A seat gets its number.
pub(crate) struct Numbers;

impl<S, E> Play<Option<Kept<S, E>>, View<S, E>> for Numbers {
    ghost use Rattle.turn_cell.specs.Rules.{numbered};

    ghost then = { numbered };
}

// A seat draws its ticket.
pub(crate) struct Draws;

impl<S, E> Play<Option<Kept<S, E>>, View<S, E>> for Draws {
    ghost use Rattle.turn_cell.specs.Rules.{drew};

    ghost then = { drew };
}

// A seat looks at the ticket that is served, and enters at its own.
pub(crate) struct Looks<S> {
    of: PhantomData<S>,
}

impl<S: Stands> Play<Option<Kept<S, S::Entry>>, View<S, S::Entry>> for Looks<S> {
    ghost use Rattle.turn_cell.specs.Rules.{looked};

    ghost then = { looked S.stands S.caller S.same_root };
}

// A seat in a turn puts the slot back and serves the next ticket.
pub(crate) struct PassesOn;

impl<S, E> Play<Option<Kept<S, E>>, View<S, E>> for PassesOn {
    ghost use Rattle.turn_cell.specs.Rules.{passed};

    ghost then = { passed };
}

// A seat draws and enters in one, where the ticket served is the next to be drawn.
pub(crate) struct Tries<S> {
    of: PhantomData<S>,
}

impl<S: Stands> Play<Option<Kept<S, S::Entry>>, View<S, S::Entry>> for Tries<S> {
    ghost use Rattle.turn_cell.specs.Rules.{tried};

    ghost then = { tried S.stands S.caller S.same_root };
}
