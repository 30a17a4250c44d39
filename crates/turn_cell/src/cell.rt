// The cell.
ghost use Rattle.std.specs.Prelude.{◌≡◌, ◌<◌};

use crate::rule::{About, Kept, Law, Stands, View};
use atomic_table::{Seat, Table};
use std::alloc::Global;

/// A value that callers with passes change in turns.
#[derive(Drop)]
pub struct TurnCell<S: Stands> {
    pub(crate) table: Table<Option<Kept<S, S::Entry>>, View<S, S::Entry>, About<S>, Law, Global>,
    pub(crate) passes: u32,
    pub(crate) ghost sized: { (table.shared.table_id.words ≡ 16) × (table.shared.table_id.slots ≡ 4) },
    pub(crate) ghost counted: { (table.shared.key.passes ≡ passes) × (0 < passes) × (passes < 32768) },
}

pub(crate) type Place<S, E> = Seat<Option<Kept<S, E>>, View<S, E>>;
