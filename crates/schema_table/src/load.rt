//! How loaded rows come into a table.

ghost use Rattle.std.specs.Prelude.{◌≡◌, ◌≢◌, ◌<◌, ◌+◌, ℕ, List, [], ◌∷◌, ◌++◌, length, true, IsTrue, ◌↔◌, IfOk, IfErr, OnOk, OnErr, IfSome, IfNone};
ghost use Rattle.avro_schema.specs.Nodes.{tree_of};
ghost use Rattle.schema_keeper.specs.declared.row.SchemaRow.{SchemaRow as Row};
ghost use Rattle.schema_keeper.specs.Keeper.{Begins, row_of};
ghost use Rattle.schema_table.specs.Index.{texts_of};
ghost use Rattle.schema_table.specs.Table.{BeginsWith, Grew, HasForm, IsForm, IsNext, IsTable, Lacks, rows_of};

use crate::known::Known;
use crate::schemas::{Schemas, drop_last};
use crate::table::TableNo;
use avro_schema::{Schema, SchemaNo};
use gate_io::{Items, Text, Want};
use schema_keeper::SchemaRow;
use std::alloc::Global;

/// The schema of which a text is the canonical form. It is a fault if there is none.
fn read_form(alloc: Global, text: &str) -> Result<Schema, TableNo>
    ensures ok { IfOk result (λ s. IsForm text.now (tree_of s)) }
    ensures unfit { IfErr result (λ e. e ≡ TableNo.KeepFault → HasForm text.now → ⊥) }
    ensures full { IfErr result (λ e. e ≢ TableNo.Full) }
{
    let schema = match Schema::read_canonical(alloc, text) {
        Ok(schema) => schema,
        Err(SchemaNo::Want) => return Err(TableNo::Want),
        Err(_) => return Err(TableNo::KeepFault),
    };
    let Ok(form) = schema.canonical(alloc) else {
        return Err(TableNo::Want);
    };
    if form.as_str() == text {
        Ok(schema)
    } else {
        Err(TableNo::KeepFault)
    }
}

fn row_for(alloc: Global, id: u32, text: &str) -> Result<SchemaRow, Want>
    ensures { IfOk result (λ row. row ≡ row_of id text.now) }
{
    match Text::from_str(alloc, text) {
        Ok(canonical) => Ok(SchemaRow { id, canonical }),
        Err(_) => Err(Want),
    }
}

/// Puts a schema behind the others, and its row behind the news. A refusal leaves both.
fn put(
    alloc: Global,
    text: &str,
    schema: Schema,
    schemas: &mut Schemas,
    news: &mut Items<SchemaRow>,
) -> Result<(), Want>
    requires few { length schemas.old < 4294967295 }
    requires lacks { Lacks schemas.old text.now }
    requires form { IsForm text.now (tree_of schema) }
    ensures schemas { OnOk result (schemas.new ≡ schemas.old ++ text.now ∷ []) }
    ensures news { OnOk result (news.new ≡ news.old ++ row_of (length schemas.old + 1) text.now ∷ []) }
    ensures stays { OnErr result ((schemas.new ≡ schemas.old) × (news.new ≡ news.old)) }
{
    let id = schemas.len() as u32 + 1;
    let row = match row_for(alloc, id, text) {
        Ok(row) => row,
        Err(Want) => return Err(Want),
    };
    let Ok(copy) = Text::from_str(alloc, text) else {
        return Err(Want);
    };
    if news.push(row).is_err() {
        return Err(Want);
    }
    match schemas.push(alloc, copy, schema) {
        Ok(()) => Ok(()),
        Err(Want) => {
            drop_last(news);
            Err(Want)
        }
    }
}

/// Puts the schema of a canonical form behind the others, and its row behind the news. A text that is none is a fault. A refusal
/// leaves both.
pub(crate) fn put_text(
    alloc: Global,
    text: &str,
    schemas: &mut Schemas,
    news: &mut Items<SchemaRow>,
) -> Result<(), TableNo>
    requires few { length schemas.old < 4294967295 }
    requires lacks { Lacks schemas.old text.now }
    ensures form { OnOk result (HasForm text.now) }
    ensures schemas { OnOk result (schemas.new ≡ schemas.old ++ text.now ∷ []) }
    ensures news { OnOk result (news.new ≡ news.old ++ row_of (length schemas.old + 1) text.now ∷ []) }

    ensures unfit { IfErr result (λ e. e ≡ TableNo.KeepFault → HasForm text.now → ⊥) }
    ensures full { IfErr result (λ e. e ≢ TableNo.Full) }
    ensures stays { OnErr result ((schemas.new ≡ schemas.old) × (news.new ≡ news.old)) }
{
    let schema = match read_form(alloc, text) {
        Ok(schema) => schema,
        Err(e) => return Err(e),
    };
    match put(alloc, text, schema, schemas, news) {
        Ok(()) => Ok(()),
        Err(Want) => Err(TableNo::Want),
    }
}

/// Takes a loaded row, which has to be the next of the table. A refusal leaves schemas and news.
fn take(
    alloc: Global,
    row: &SchemaRow,
    schemas: &mut Schemas,
    news: &mut Items<SchemaRow>,
) -> Result<(), TableNo>
    ensures next { OnOk result (IsNext schemas.old row.now) }
    ensures schemas { OnOk result (schemas.new ≡ schemas.old ++ row.now.canonical ∷ []) }
    ensures news { OnOk result (news.new ≡ news.old ++ row_of (length schemas.old + 1) row.now.canonical ∷ []) }

    ensures unfit { IfErr result (λ e. e ≡ TableNo.KeepFault → IsNext schemas.old row.now → ⊥) }
    ensures full { IfErr result (λ e. e ≢ TableNo.Full) }
    ensures stays { OnErr result ((schemas.new ≡ schemas.old) × (news.new ≡ news.old)) }
{
    if row.id as usize != schemas.len() + 1 {
        return Err(TableNo::KeepFault);
    }
    let text = row.canonical.as_str();
    match schemas.find(text) {
        Some(_) => Err(TableNo::KeepFault),
        None => put_text(alloc, text, schemas, news),
    }
}

/// Takes loaded rows that go on behind those of the table, up to the first that can't be the next.
fn take_all(
    alloc: Global,
    rows: &[SchemaRow],
    schemas: &mut Schemas,
    news: &mut Items<SchemaRow>,
) -> Result<(), TableNo>
    ensures all { OnOk result (rows_of schemas.new ≡ rows_of schemas.old ++ rows.now) }
    ensures grew { Grew schemas.old schemas.new news.old news.new }
    ensures front { Begins (rows_of schemas.new) (rows_of schemas.old ++ rows.now) }

    ensures unfit { IfErr result (λ e. e ≡ TableNo.KeepFault → IsTable (rows_of schemas.old ++ rows.now) → ⊥) }
    ensures full { IfErr result (λ e. e ≢ TableNo.Full) }
{
    for row in rows {
        match take(alloc, row, schemas, news) {
            Ok(()) => {}
            Err(e) => return Err(e),
        }
    }
    Ok(())
}

/// The row is that of a text at this place.
fn is_row(row: &SchemaRow, place: usize, text: &str) -> bool
    ensures yes { IsTrue result → row.now ≡ row_of (place + 1) text.now }
    ensures no { row.now ≡ row_of (place + 1) text.now → IsTrue result }
{
    (row.id as usize).checked_sub(1) == Some(place) && row.canonical.as_str() == text
}

/// What stands behind the rows of these schemas, if the rows begin with theirs.
fn behind<'a>(rows: &'a [SchemaRow], known: &[Known]) -> Option<&'a [SchemaRow]>
    ensures some { IfSome result (λ left. rows.now ≡ rows_of (texts_of known.now) ++ left.now) }
    ensures none { IfNone result (Begins (rows_of (texts_of known.now)) rows.now → ⊥) }
{
    let mut left = rows;
    let mut place = 0_usize;
    for one in known {
        let [row, rest @ ..] = left else {
            return None;
        };
        if !is_row(row, place, one.text.as_str()) {
            return None;
        }
        left = rest;
        place += 1;
    }
    Some(left)
}

/// Takes the rows that were loaded and aren't in the table yet.
pub(crate) fn take_loaded(
    alloc: Global,
    rows: &[SchemaRow],
    schemas: &mut Schemas,
    news: &mut Items<SchemaRow>,
) -> Result<(), TableNo>
    ensures all { OnOk result (rows_of schemas.new ≡ rows.now) }
    ensures grew { Grew schemas.old schemas.new news.old news.new }
    ensures front { Begins (rows_of schemas.old) rows.now → Begins (rows_of schemas.new) rows.now }

    ensures unfit { IfErr result (λ e. e ≡ TableNo.KeepFault → IsTable rows.now → Begins (rows_of schemas.old) rows.now → ⊥) }
    ensures full { IfErr result (λ e. e ≢ TableNo.Full) }
{
    match behind(rows, schemas.known.as_slice()) {
        Some(left) => take_all(alloc, left, schemas, news),
        None => Err(TableNo::KeepFault),
    }
}
