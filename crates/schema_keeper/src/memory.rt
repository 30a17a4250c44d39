ghost use Rattle.std.specs.Prelude.{⊤, ◌≡◌, ◌≤◌, ◌↔◌, [], List, IsTrue, IfOk};
ghost use Rattle.gate_io.specs.Counts.{Rose};
ghost use Rattle.schema_keeper.specs.Keeper.{CountsFaults, IsAbove};
ghost use Rattle.schema_keeper.specs.Memory.{AddEnds, IsOneCall, LoadEnds, fails_at};

use crate::keeper::Keeper;
use crate::row::{KeepNo, SchemaRow};
use gate_io::{Items, Text, Want};
use std::alloc::Global;
use std::marker::Model;

/// The call of that number fails, before its effect or after it. Calls are numbered from 0.
#[derive(Clone, Copy, Debug)]
pub struct KeepFail {
    pub call: u64,
    pub after: bool,
}

/// A keeper of rows in memory. Its calls fail where a script says so, and else for want of memory alone.
#[derive(Debug, Drop)]
pub struct MemKeeper {
    rows: Items<SchemaRow>,
    fails: Vec<KeepFail>,
    calls: u64,
    faults: u64,
}

impl Model for MemKeeper {
    ghost use Rattle.gate_io.specs.Counts.{Rose};
    ghost use Rattle.schema_keeper.specs.Keeper.{CountsFaults, IsAbove};
    ghost use Rattle.schema_keeper.specs.Memory.{Kept};

    ghost Value = { Kept };

    ghost view = { λ k. record { rows = k.rows; fails = k.fails.items; calls = k.calls; faults = k.faults } };
}

fn copy_of(alloc: Global, rows: &[SchemaRow]) -> Result<Items<SchemaRow>, Want>
    ensures { IfOk result (λ copy. copy ≡ rows.now) }
{
    let mut copy = Items::new(alloc);
    for row in rows {
        let Ok(canonical) = Text::from_str(alloc, row.canonical.as_str()) else {
            return Err(Want);
        };
        let one = SchemaRow {
            id: row.id,
            canonical,
        };
        if copy.push(one).is_err() {
            return Err(Want);
        }
    }
    Ok(copy)
}

fn fails_at(fails: &[KeepFail], call: u64, after: bool) -> bool
    ensures { result ≡ fails_at fails.now call after }
{
    fails
        .iter()
        .any(|fail| fail.call == call && fail.after == after)
}

impl MemKeeper {
    /// A keeper of these rows, without a script.
    pub fn new(alloc: Global, rows: Vec<SchemaRow>) -> Result<MemKeeper, Want>
        ensures value { IfOk result (λ k. k ≡ record { rows = rows.items; fails = []; calls = 0; faults = 0 }) }
    {
        Ok(MemKeeper {
            rows: Items::from_vec(rows),
            fails: Vec::new(alloc),
            calls: 0,
            faults: 0,
        })
    }

    /// Lets these calls fail, and no others.
    pub fn script(&mut self, fail: Vec<KeepFail>)
        ensures value { self.new ≡ record { rows = self.old.rows; fails = fail.items; calls = self.old.calls; faults = self.old.faults } }
    {
        self.fails = fail;
    }

    /// The id is above those of the rows, as an `add` needs it.
    pub fn is_above(&self, id: u32) -> bool
        ensures { IsTrue result ↔ IsAbove id self.now.rows }
    {
        self.rows.as_slice().iter().all(|row| row.id < id)
    }

    /// Counts a fault.
    fn fail(&mut self) -> KeepNo
        ensures value { result ≡ KeepNo.Fault }
        ensures rows { self.new.rows ≡ self.old.rows }
        ensures script { (self.new.fails ≡ self.old.fails) × (self.new.calls ≡ self.old.calls) }
        ensures faults { Rose self.old.faults self.new.faults }
        ensures later { self.old.faults ≤ self.new.faults }
    {
        self.faults = self.faults.saturating_add(1);
        KeepNo::Fault
    }
}

impl Keeper for MemKeeper {
    ghost tells = { λ k rows. rows ≡ k.rows };

    ghost honest = { λ _. ⊤ };

    ghost faults = { λ k. k.faults };

    ghost after_crash = { λ k kept. kept ≡ k.rows };

    fn load(&mut self, alloc: Global) -> Result<Items<SchemaRow>, KeepNo>
        ensures value { IfOk result (λ loaded. loaded ≡ self.old.rows) }
        ensures fails { LoadEnds self.old result }
        ensures rows { self.new.rows ≡ self.old.rows }
        ensures script { IsOneCall self.old self.new }
        ensures counts { CountsFaults self.old.faults self.new.faults result }
    {
        let fails = self.fails.as_slice();
        let fails = fails_at(fails, self.calls, false) || fails_at(fails, self.calls, true);
        self.calls = self.calls.saturating_add(1);
        if fails {
            return Err(self.fail());
        }
        match copy_of(alloc, self.rows.as_slice()) {
            Ok(rows) => Ok(rows),
            Err(Want) => Err(KeepNo::Want),
        }
    }

    fn add(&mut self, alloc: Global, id: u32, canonical: &str) -> Result<(), KeepNo>
        ensures rows { AddEnds self.old self.new id canonical.now result }
        ensures script { IsOneCall self.old self.new }
        ensures counts { CountsFaults self.old.faults self.new.faults result }
    {
        let before = fails_at(self.fails.as_slice(), self.calls, false);
        let after = fails_at(self.fails.as_slice(), self.calls, true);
        self.calls = self.calls.saturating_add(1);
        if before {
            return Err(self.fail());
        }
        let Ok(canonical) = Text::from_str(alloc, canonical) else {
            return Err(KeepNo::Want);
        };
        if self.rows.push(SchemaRow { id, canonical }).is_err() {
            return Err(KeepNo::Want);
        }
        if after {
            return Err(self.fail());
        }
        Ok(())
    }
}
