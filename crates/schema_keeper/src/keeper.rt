ghost use Rattle.std.specs.Prelude.{◌≡◌, ℕ, List, IfOk, OnOk, OnErr};
ghost use Rattle.schema_keeper.specs.declared.row.SchemaRow.{SchemaRow as Row};
ghost use Rattle.schema_keeper.specs.Keeper.{CountsFaults, IsAbove, IsSafe, LeavesNoMore, LeavesOneMore, HadBefore, HadOrGot, with_row};

use crate::row::{KeepNo, SchemaRow};
use gate_io::Items;
use std::alloc::Global;

/// What keeps the rows of a schema table, in order, for good.
///
/// A keeper that can't know what it holds tells nothing; the clauses on rows speak of those that it tells.
pub trait Keeper {
    /// The keeper tells that it holds these rows.
    ghost tells: { Self → List Row → Type 0 };

    /// All that was written so far has been read as it was written.
    ghost honest: { Self → Type 0 };

    /// How often a call has failed.
    ghost faults: { Self → ℕ };

    /// A crash at this moment may leave what loads as these rows.
    ghost after_crash: { Self → List Row → Type 0 };

    /// All rows, in order. It leaves them as they were, also where it fails.
    fn load(&mut self, alloc: Global) -> Result<Items<SchemaRow>, KeepNo>
        ensures value { (rows : List Row) → tells self.new rows → IfOk result (λ loaded. loaded ≡ rows) }

        // What is told was told before. All that was told before still is, where the keeper is honest.
        ensures told { (rows : List Row) → tells self.new rows → tells self.old rows }
        ensures telling { OnOk result (honest self.new → (rows : List Row) → tells self.old rows → tells self.new rows) }

        ensures honesty { honest self.new → honest self.old }
        ensures crash { honest self.new → LeavesNoMore (after_crash self.old) (after_crash self.new) }
        ensures safe { OnOk result (IsSafe (tells self.new) (after_crash self.new)) }

        ensures counts { CountsFaults (faults self.old) (faults self.new) result };

    /// Puts a row behind the others. Where it fails, the row may be there or not.
    fn add(&mut self, alloc: Global, id: u32, canonical: &str) -> Result<(), KeepNo>
        requires { (rows : List Row) → tells self.old rows → IsAbove id rows }

        // What is told are the rows that were told before and, after an Ok, this one behind them.
        ensures ok { OnOk result ((rows : List Row) → tells self.new rows → HadBefore (tells self.old) rows id canonical.now) }
        ensures err { OnErr result ((rows : List Row) → tells self.new rows → HadOrGot (tells self.old) rows id canonical.now) }
        ensures telling { OnOk result (honest self.new → (rows : List Row) → tells self.old rows
            → tells self.new (with_row rows id canonical.now)) }

        ensures honesty { honest self.new → honest self.old }
        ensures crash { honest self.new
            → LeavesOneMore (tells self.old) (after_crash self.old) (after_crash self.new) id canonical.now }
        ensures safe { OnOk result (IsSafe (tells self.new) (after_crash self.new)) }

        ensures counts { CountsFaults (faults self.old) (faults self.new) result };
}
