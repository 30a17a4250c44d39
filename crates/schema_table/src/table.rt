//! The table over a keeper.

ghost use Rattle.std.specs.Prelude.{◌≡◌, ◌≢◌, ◌⊎◌, ◌<◌, ◌≤◌, ℕ, List, [], ◌∷◌, ◌++◌, length, Ok, IsOk, IsErr, true, false, IfOk, IfErr, OnOk, OnErr, IfSome, IfNone};
ghost use Rattle.gate_io.specs.Counts.{Rose};
ghost use Rattle.avro_schema.specs.Canonical.{canonical_form};
ghost use Rattle.avro_schema.specs.Nodes.{tree_of};
ghost use Rattle.schema_keeper.specs.declared.row.SchemaRow.{SchemaRow as Row};
ghost use Rattle.schema_keeper.specs.Keeper.{CountsFaults, HadBefore, HadOrGot, IsAbove, IsSafe};
ghost use Rattle.schema_table.specs.Table.{BeginsWith, Grew, HasForm, HasId, IsFull, IsSchemaOf, Lacks, ToldOn, Unfit, rows_of};

use crate::known::News;
use crate::load::{put_text, take_loaded};
use crate::schemas::{Schemas, drop_last};
use avro_schema::Schema;
use gate_io::Items;
use schema_keeper::{KeepNo, Keeper, SchemaRow};
use std::alloc::Global;

/// Why a call of a table has no answer.
#[derive(Clone, Copy, Debug, PartialEq, Eq)]
pub enum TableNo {
    /// The keeper failed, or the rows that it gave are no table or don't begin with those of the table.
    KeepFault,
    /// The next id would pass 2,147,483,647.
    Full,
    /// Out of memory.
    Want,
}

/// Why a table doesn't start, with the keeper.
#[derive(Drop)]
pub struct StartNo<P: Keeper + Drop> {
    pub why: TableNo,
    pub keeper: P,
}

/// The greatest id that is drawn.
const MOST: usize = 2_147_483_647;

/// A table of schemas over what keeps its rows. It is `stale` if the keeper's last call failed, or if rows that it loaded weren't
/// taken; then it loads again before it says anything new.
#[derive(Drop)]
pub struct Table<P: Keeper + Drop> {
    pub keeper: P,
    pub schemas: Schemas,
    pub stale: bool,
    pub ghost kept: { (rows : List Row) → P.tells keeper rows → BeginsWith (rows_of schemas) rows },
    pub ghost fresh: { stale ≡ false → (rows : List Row) → P.tells keeper rows → rows ≡ rows_of schemas },
    pub ghost safe: { stale ≡ false → (rows left : List Row) → P.tells keeper rows → P.after_crash keeper left → BeginsWith rows left },
}

impl<P: Keeper + Drop> Table<P> {
    /// A table of the rows that the keeper has. A keeper that the table can't start over is handed back.
    pub fn start(alloc: Global, keeper: P) -> Result<Table<P>, StartNo<P>>
        ensures fresh { IfOk result (λ t. t.stale ≡ false) }
        ensures rows { IfOk result (λ t. P.honest t.keeper → (rows : List Row) → P.tells keeper rows → rows ≡ rows_of t.schemas) }
        ensures told { IfOk result (λ t. ToldOn (P.tells keeper) (P.tells t.keeper)) }

        ensures fault { IfErr result (λ n. n.why ≡ TableNo.KeepFault
            → Rose (P.faults keeper) (P.faults n.keeper) ⊎ Unfit [] (P.tells n.keeper)) }
        ensures full { IfErr result (λ n. n.why ≢ TableNo.Full) }
        ensures back { IfErr result (λ n. ToldOn (P.tells keeper) (P.tells n.keeper)) }
        ensures faults { IfErr result (λ n. P.faults keeper ≤ P.faults n.keeper) }
    {
        let mut table = Table {
            keeper,
            schemas: Schemas::new(alloc),
            stale: true,
        };
        let mut news = News::new(alloc);
        match table.refresh(alloc, &mut news) {
            Ok(()) => Ok(table),
            Err(why) => Err(StartNo {
                why,
                keeper: table.close(),
            }),
        }
    }

    /// Loads again if the table is stale, and takes the rows that it lacks; else does nothing. Each row that is taken goes to the news.
    pub fn refresh(&mut self, alloc: Global, news: &mut News) -> Result<(), TableNo>
        ensures fresh { OnOk result (self.new.stale ≡ false) }
        ensures grew { Grew self.old.schemas self.new.schemas news.old.rows news.new.rows }
        ensures idle { self.old.stale ≡ false → (self.new ≡ self.old) × IsOk result }
        ensures rows { OnOk result (P.honest self.new.keeper → (rows : List Row) → P.tells self.old.keeper rows → rows ≡ rows_of self.new.schemas) }

        ensures fault { IfErr result (λ e. e ≡ TableNo.KeepFault
            → Rose (P.faults self.old.keeper) (P.faults self.new.keeper) ⊎ Unfit self.old.schemas (P.tells self.new.keeper)) }
        ensures full { IfErr result (λ e. e ≢ TableNo.Full) }
        ensures told { ToldOn (P.tells self.old.keeper) (P.tells self.new.keeper) }
        ensures faults { P.faults self.old.keeper ≤ P.faults self.new.keeper }
    {
        if !self.stale {
            return Ok(());
        }
        match pull(&mut self.keeper, alloc, &mut self.schemas, &mut news.rows) {
            Ok(()) => {
                self.stale = false;
                Ok(())
            }
            Err(e) => Err(e),
        }
    }

    /// The id of a schema: that of its canonical form. The table first loads again if it is stale, and the schema is added if the table
    /// lacks it. After a fault it may be in the keeper and have no answer; no id ever names two schemas.
    pub fn id_of(&mut self, alloc: Global, schema: &Schema, news: &mut News) -> Result<u32, TableNo>
        ensures id { IfOk result (λ id. HasId self.new.schemas id (canonical_form (tree_of schema.now))) }
        ensures grew { Grew self.old.schemas self.new.schemas news.old.rows news.new.rows }
        ensures safe { OnOk result ((rows left : List Row) → P.tells self.new.keeper rows → P.after_crash self.new.keeper left
            → BeginsWith (rows_of self.new.schemas) left) }

        ensures fault { IfErr result (λ e. e ≡ TableNo.KeepFault
            → Rose (P.faults self.old.keeper) (P.faults self.new.keeper) ⊎ Unfit self.old.schemas (P.tells self.new.keeper)) }
        ensures full { IfErr result (λ e. e ≡ TableNo.Full → IsFull self.new.schemas (canonical_form (tree_of schema.now))) }
        ensures room { self.old.stale ≡ false → IsFull self.old.schemas (canonical_form (tree_of schema.now)) → IsErr result }
        ensures told { ToldOn (P.tells self.old.keeper) (P.tells self.new.keeper) }
        ensures faults { P.faults self.old.keeper ≤ P.faults self.new.keeper }
    {
        match self.refresh(alloc, news) {
            Ok(()) => {}
            Err(e) => return Err(e),
        }
        let Ok(text) = schema.canonical(alloc) else {
            return Err(TableNo::Want);
        };
        match self.schemas.find(text.as_str()) {
            Some(id) => Ok(id),
            None => self.add(alloc, text.as_str(), news),
        }
    }

    /// Adds a schema that the table lacks.
    fn add(&mut self, alloc: Global, text: &str, news: &mut News) -> Result<u32, TableNo>
        requires fresh { self.old.stale ≡ false }
        requires lacks { Lacks self.old.schemas text.now }
        requires form { HasForm text.now }
        ensures id { IfOk result (λ id. HasId self.new.schemas id text.now) }
        ensures fresh { OnOk result (self.new.stale ≡ false) }
        ensures grew { Grew self.old.schemas self.new.schemas news.old.rows news.new.rows }

        ensures fault { IfErr result (λ e. e ≡ TableNo.KeepFault → Rose (P.faults self.old.keeper) (P.faults self.new.keeper)) }
        ensures full { IfErr result (λ e. e ≡ TableNo.Full → IsFull self.new.schemas text.now) }
        ensures room { IsFull self.old.schemas text.now → IsErr result }
        ensures told { ToldOn (P.tells self.old.keeper) (P.tells self.new.keeper) }
        ensures faults { P.faults self.old.keeper ≤ P.faults self.new.keeper }
    {
        if self.schemas.len() >= MOST {
            return Err(TableNo::Full);
        }
        match put_text(alloc, text, &mut self.schemas, &mut news.rows) {
            Ok(()) => {}
            Err(e) => return Err(e),
        }
        let id = self.schemas.len() as u32;
        match keep(
            &mut self.keeper,
            alloc,
            id,
            text,
            &mut self.schemas,
            &mut news.rows,
        ) {
            Ok(()) => Ok(id),
            Err(e) => {
                self.stale = true;
                Err(because(e))
            }
        }
    }

    /// The schema that has the id.
    pub fn schema(&self, id: u32) -> Option<&Schema>
        ensures some { IfSome result (λ s. IsSchemaOf self.now.schemas id (tree_of s.now)) }
        ensures none { IfNone result ((id ≡ 0) ⊎ (length self.now.schemas < id)) }
    {
        self.schemas.schema(id)
    }

    /// The keeper, with which the table is gone.
    pub fn close(self) -> P
        ensures { result ≡ self.keeper }
    {
        let Table { keeper, .. } = self;
        keeper
    }
}

/// Loads, and takes the rows that the schemas lack.
fn pull<P: Keeper>(
    keeper: &mut P,
    alloc: Global,
    schemas: &mut Schemas,
    news: &mut Items<SchemaRow>,
) -> Result<(), TableNo>
    ensures rows { OnOk result ((rows : List Row) → P.tells keeper.new rows → rows ≡ rows_of schemas.new) }
    ensures telling { OnOk result (P.honest keeper.new → (rows : List Row) → P.tells keeper.old rows → P.tells keeper.new rows) }
    ensures safe { OnOk result (IsSafe (P.tells keeper.new) (P.after_crash keeper.new)) }
    ensures grew { Grew schemas.old schemas.new news.old news.new }

    ensures fault { IfErr result (λ e. e ≡ TableNo.KeepFault
        → Rose (P.faults keeper.old) (P.faults keeper.new) ⊎ Unfit schemas.old (P.tells keeper.new)) }
    ensures full { IfErr result (λ e. e ≢ TableNo.Full) }
    ensures front { (rows : List Row) → P.tells keeper.new rows → BeginsWith (rows_of schemas.old) rows → BeginsWith (rows_of schemas.new) rows }
    ensures told { (rows : List Row) → P.tells keeper.new rows → P.tells keeper.old rows }
    ensures faults { P.faults keeper.old ≤ P.faults keeper.new }
{
    match keeper.load(alloc) {
        Ok(rows) => take_loaded(alloc, rows.as_slice(), schemas, news),
        Err(e) => Err(because(e)),
    }
}

/// Has the keeper add the row of the last schema. If it fails, the schema and its row in the news are taken back.
fn keep<P: Keeper>(
    keeper: &mut P,
    alloc: Global,
    id: u32,
    text: &str,
    schemas: &mut Schemas,
    news: &mut Items<SchemaRow>,
) -> Result<(), KeepNo>
    requires { (rows : List Row) → P.tells keeper.old rows → IsAbove id rows }
    ensures same { OnOk result ((schemas.new ≡ schemas.old) × (news.new ≡ news.old)) }
    ensures schemas { OnErr result ((texts : List (List ℕ)) (last : List ℕ) → schemas.old ≡ texts ++ last ∷ [] → schemas.new ≡ texts) }
    ensures news { OnErr result ((rows : List Row) (last : Row) → news.old ≡ rows ++ last ∷ [] → news.new ≡ rows) }
    ensures ok { OnOk result ((rows : List Row) → P.tells keeper.new rows → HadBefore (P.tells keeper.old) rows id text.now) }
    ensures err { OnErr result ((rows : List Row) → P.tells keeper.new rows → HadOrGot (P.tells keeper.old) rows id text.now) }
    ensures safe { OnOk result (IsSafe (P.tells keeper.new) (P.after_crash keeper.new)) }
    ensures counts { CountsFaults (P.faults keeper.old) (P.faults keeper.new) result }
{
    match keeper.add(alloc, id, text) {
        Ok(()) => Ok(()),
        Err(e) => {
            schemas.pop();
            drop_last(news);
            Err(e)
        }
    }
}

fn because(e: KeepNo) -> TableNo
    ensures fault { result ≡ TableNo.KeepFault → e ≡ KeepNo.Fault }
    ensures full { result ≢ TableNo.Full }
{
    match e {
        KeepNo::Fault => TableNo::KeepFault,
        KeepNo::Want => TableNo::Want,
    }
}
