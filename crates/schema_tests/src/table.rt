//! The expected values are written by hand. Each test is a constant table, which one walker walks.

use avro_schema::Schema;
use gate_io::Text;
use schema_keeper::{KeepFail, Keeper, MemKeeper, SchemaRow};
use schema_table::{News, Table, TableNo};
use std::alloc::Global;
use std::process::Abort;
use std::test::Fail;

/// A call of a table.
#[derive(Clone, Copy)]
enum Call {
    /// Asks the id of a schema.
    Id(&'static str),
    Refresh,
    /// Asks the schema of an id.
    Schema(u32),
}

fn word(e: TableNo) -> &'static str {
    match e {
        TableNo::KeepFault => "fault",
        TableNo::Full => "full",
        TableNo::Want => "want",
    }
}

fn text(alloc: Global, text: &str) -> Result<String, Fail> {
    Ok(String::from_str(alloc, text)?)
}

/// The id, and how many rows are news.
fn told(alloc: Global, answer: Result<u32, TableNo>, news: usize) -> Result<String, Fail> {
    match answer {
        Ok(id) => Ok(format!(in alloc; "{id}, {news} new")?),
        Err(e) => text(alloc, word(e)),
    }
}

fn schema(alloc: Global, text: &str) -> Result<Schema, Fail> {
    match Schema::read(alloc, text) {
        Ok(schema) => Ok(schema),
        Err(_) => Err(Fail::new("this is no schema")),
    }
}

fn ask<P: Keeper + Drop>(
    alloc: Global,
    table: &mut Table<P>,
    news: &mut News,
    schema: &Schema,
) -> Result<u32, TableNo> {
    table.id_of(alloc, schema, news)
}

fn id<P: Keeper + Drop>(
    alloc: Global,
    table: &mut Table<P>,
    news: &mut News,
    text: &str,
) -> Result<String, Fail> {
    let schema = schema(alloc, text)?;
    let answer = ask(alloc, table, news, &schema);
    told(alloc, answer, news.rows.len())
}

fn refresh<P: Keeper + Drop>(
    alloc: Global,
    table: &mut Table<P>,
    news: &mut News,
) -> Result<String, Fail> {
    match table.refresh(alloc, news) {
        Ok(()) => Ok(format!(in alloc; "{} new", news.rows.len())?),
        Err(e) => text(alloc, word(e)),
    }
}

fn shown<P: Keeper + Drop>(alloc: Global, table: &Table<P>, id: u32) -> Result<String, Fail> {
    match table.schema(id) {
        Some(schema) => match schema.canonical(alloc) {
            Ok(text) => Ok(text),
            Err(_) => Err(Fail::new("there was no memory")),
        },
        None => text(alloc, "none"),
    }
}

fn answer(
    alloc: Global,
    table: &mut Table<MemKeeper>,
    news: &mut News,
    call: Call,
) -> Result<String, Fail> {
    match call {
        Call::Id(text) => id(alloc, table, news, text),
        Call::Refresh => refresh(alloc, table, news),
        Call::Schema(number) => shown(alloc, table, number),
    }
}

/// Each call, one after the other, is answered so.
fn answers(
    rt: &impl Abort,
    alloc: Global,
    table: &mut Table<MemKeeper>,
    calls: &[(Call, &str)],
) -> Result<(), Fail> {
    let mut news = News::new(alloc);
    for (call, wanted) in calls {
        let told = answer(alloc, table, &mut news, *call)?;
        assert_eq!(rt; told.as_str(), *wanted);
    }
    Ok(())
}

fn rows(alloc: Global, texts: &[(u32, &str)]) -> Result<Vec<SchemaRow>, Fail> {
    let mut rows = Vec::new(alloc);
    for (id, text) in texts {
        rows.push(SchemaRow {
            id: *id,
            canonical: Text::from_str(alloc, text)?,
        })?;
    }
    Ok(rows)
}

fn keeper(alloc: Global, texts: &[(u32, &str)], fail: &[KeepFail]) -> Result<MemKeeper, Fail> {
    let Ok(mut keeper) = MemKeeper::new(alloc, rows(alloc, texts)?) else {
        return Err(Fail::new("there was no memory"));
    };
    keeper.script(Vec::from_slice(alloc, fail)?);
    Ok(keeper)
}

fn start<P: Keeper + Drop>(alloc: Global, keeper: P) -> Result<Table<P>, Fail> {
    match Table::start(alloc, keeper) {
        Ok(table) => Ok(table),
        Err(no) => Err(Fail::new(word(no.why))),
    }
}

/// A table over a keeper of these rows and this script answers these calls so.
fn story(
    rt: &impl Abort,
    alloc: Global,
    texts: &[(u32, &str)],
    fail: &[KeepFail],
    calls: &[(Call, &str)],
) -> Result<(), Fail> {
    let mut table = start(alloc, keeper(alloc, texts, fail)?)?;
    answers(rt, alloc, &mut table, calls)
}

/// The keeper of a table that answered the first calls, opened again, answers the others so.
fn story_of_two(
    rt: &impl Abort,
    alloc: Global,
    first: &[(Call, &str)],
    second: &[(Call, &str)],
) -> Result<(), Fail> {
    let mut table = start(alloc, keeper(alloc, &[], &[])?)?;
    answers(rt, alloc, &mut table, first)?;
    let mut table = start(alloc, table.close())?;
    answers(rt, alloc, &mut table, second)
}

const FIRST: [(Call, &str); 7] = [
    (Call::Id("\"long\""), "1, 1 new"),
    (Call::Id("\"string\""), "2, 2 new"),
    (Call::Id("{\"type\":\"long\"}"), "1, 2 new"),
    (Call::Schema(0), "none"),
    (Call::Schema(1), "\"long\""),
    (Call::Schema(2), "\"string\""),
    (Call::Schema(3), "none"),
];

const REOPENED: [(Call, &str); 4] = [
    (Call::Schema(1), "\"long\""),
    (Call::Id("\"bytes\""), "3, 1 new"),
    (Call::Id("\"string\""), "2, 1 new"),
    (Call::Refresh, "1 new"),
];

#[test]
fn ids_are_drawn_by_canonical_form_and_stay_over_a_reopening(rt: HostRuntime) -> Result<(), Fail> {
    story_of_two(&rt, rt.alloc(), &FIRST, &REOPENED)
}

const BEFORE: [KeepFail; 2] = [
    KeepFail {
        call: 1,
        after: false,
    },
    KeepFail {
        call: 2,
        after: false,
    },
];

// The row never came: its id is drawn again.
const LOST: [(Call, &str); 5] = [
    (Call::Id("\"long\""), "fault"),
    (Call::Id("\"string\""), "fault"),
    (Call::Schema(1), "none"),
    (Call::Id("\"string\""), "1, 1 new"),
    (Call::Id("\"long\""), "2, 2 new"),
];

#[test]
fn an_add_that_failed_before_its_effect_leaves_the_id_free(rt: HostRuntime) -> Result<(), Fail> {
    story(&rt, rt.alloc(), &[], &BEFORE, &LOST)
}

const AFTER: [KeepFail; 2] = [
    KeepFail {
        call: 1,
        after: true,
    },
    KeepFail {
        call: 2,
        after: false,
    },
];

// The row came without an answer: it keeps its id.
const FOUND: [(Call, &str); 6] = [
    (Call::Id("\"long\""), "fault"),
    (Call::Refresh, "fault"),
    (Call::Schema(1), "none"),
    (Call::Id("\"string\""), "2, 2 new"),
    (Call::Schema(1), "\"long\""),
    (Call::Id("\"long\""), "1, 2 new"),
];

#[test]
fn an_add_that_failed_after_its_effect_keeps_the_id(rt: HostRuntime) -> Result<(), Fail> {
    story(&rt, rt.alloc(), &[], &AFTER, &FOUND)
}

const UNFIT: [(&str, &[(u32, &str)]); 6] = [
    ("a single row with id 2", &[(2, "\"long\"")]),
    ("a gap", &[(1, "\"long\""), (3, "\"int\"")]),
    ("an id twice", &[(1, "\"long\""), (1, "\"int\"")]),
    ("a text twice", &[(1, "\"long\""), (2, "\"long\"")]),
    ("no schema", &[(1, "\"long\""), (2, "long")]),
    ("no canonical form", &[(1, "{\"type\":\"long\"}")]),
];

fn start_word(alloc: Global, texts: &[(u32, &str)]) -> Result<&'static str, Fail> {
    match Table::start(alloc, keeper(alloc, texts, &[])?) {
        Ok(_) => Ok("started"),
        Err(no) => Ok(word(no.why)),
    }
}

/// No table starts over a keeper of these rows.
fn are_unfit(rt: &impl Abort, alloc: Global, cases: &[(&str, &[(u32, &str)])]) -> Result<(), Fail> {
    for (name, texts) in cases {
        assert_eq!(rt; start_word(alloc, texts)?, "fault", "{name}");
    }
    Ok(())
}

#[test]
fn rows_that_are_no_table_are_a_fault(rt: HostRuntime) -> Result<(), Fail> {
    are_unfit(&rt, rt.alloc(), &UNFIT)
}
