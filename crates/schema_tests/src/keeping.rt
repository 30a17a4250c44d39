//! The expected values are written by hand. Each test is a constant table, which one walker walks.

ghost use Rattle.std.specs.Prelude.{List};
ghost use Rattle.schema_keeper.specs.declared.row.SchemaRow.{SchemaRow as Row};
ghost use Rattle.schema_keeper.specs.Keeper.{IsAbove};

use gate_io::{Items, Text};
use schema_keeper::{KeepFail, KeepNo, Keeper, MemKeeper, SchemaRow};
use std::alloc::Global;
use std::process::Abort;
use std::test::Fail;

/// A call of a keeper.
#[derive(Clone, Copy)]
enum Call {
    Load,
    Add(u32, &'static str),
}

/// What a call answers, as a text.
fn word(answer: Result<(), KeepNo>) -> &'static str {
    match answer {
        Ok(()) => "ok",
        Err(KeepNo::Fault) => "fault",
        Err(KeepNo::Want) => "want",
    }
}

/// The rows in order, each as its id and its text.
fn list(alloc: Global, rows: &[SchemaRow]) -> Result<String, Fail> {
    let mut told = String::new(alloc);
    for row in rows {
        let text = row.canonical.as_str();
        told.push_str(format!(in alloc; "{} {text};", row.id)?.as_str())?;
    }
    Ok(told)
}

fn tell(alloc: Global, answer: Result<Items<SchemaRow>, KeepNo>) -> Result<String, Fail> {
    match answer {
        Ok(rows) => list(alloc, rows.as_slice()),
        Err(e) => Ok(String::from_str(alloc, word(Err(e)))?),
    }
}

fn load<P: Keeper>(alloc: Global, keeper: &mut P) -> Result<Items<SchemaRow>, KeepNo> {
    keeper.load(alloc)
}

fn add<P: Keeper>(alloc: Global, keeper: &mut P, id: u32, text: &str) -> Result<(), KeepNo>
    requires { (rows : List Row) → P.tells keeper.old rows → IsAbove id rows }
{
    keeper.add(alloc, id, text)
}

/// What an add answers, or that the id isn't above the others.
fn add_if_above(alloc: Global, keeper: &mut MemKeeper, id: u32, text: &str) -> &'static str {
    if keeper.is_above(id) {
        word(add(alloc, keeper, id, text))
    } else {
        "not above"
    }
}

/// What a keeper answers to a call, which is made through the trait.
fn answer(alloc: Global, keeper: &mut MemKeeper, call: Call) -> Result<String, Fail> {
    match call {
        Call::Load => tell(alloc, load(alloc, keeper)),
        Call::Add(id, text) => Ok(String::from_str(alloc, add_if_above(alloc, keeper, id, text))?),
    }
}

fn rows(alloc: Global, texts: &[(u32, &str)]) -> Result<Vec<SchemaRow>, Fail> {
    let mut rows = Vec::new(alloc);
    for (id, text) in texts {
        rows.push(SchemaRow {
            id: *id,
            canonical: Text::from_str(alloc, text)?,
        })?;
    }
    Ok(rows)
}

fn keeper(alloc: Global, texts: &[(u32, &str)], fail: &[KeepFail]) -> Result<MemKeeper, Fail> {
    let Ok(mut keeper) = MemKeeper::new(alloc, rows(alloc, texts)?) else {
        return Err(Fail::new("there was no memory"));
    };
    keeper.script(Vec::from_slice(alloc, fail)?);
    Ok(keeper)
}

/// Each call, one after the other, is answered so.
fn answers(
    rt: &impl Abort,
    alloc: Global,
    keeper: &mut MemKeeper,
    calls: &[(Call, &str)],
) -> Result<(), Fail> {
    for (call, wanted) in calls {
        let told = answer(alloc, keeper, *call)?;
        assert_eq!(rt; told.as_str(), *wanted);
    }
    Ok(())
}

/// A keeper of these rows and this script answers these calls so.
fn story(
    rt: &impl Abort,
    alloc: Global,
    texts: &[(u32, &str)],
    fail: &[KeepFail],
    calls: &[(Call, &str)],
) -> Result<(), Fail> {
    let mut keeper = keeper(alloc, texts, fail)?;
    answers(rt, alloc, &mut keeper, calls)
}

const TWO: [(u32, &str); 2] = [(1, "\"long\""), (2, "\"string\"")];

const KEPT: [(Call, &str); 6] = [
    (Call::Load, "1 \"long\";2 \"string\";"),
    (Call::Add(3, "\"bytes\""), "ok"),
    (Call::Load, "1 \"long\";2 \"string\";3 \"bytes\";"),
    (Call::Add(9, "\"int\""), "ok"),
    (Call::Add(9, "\"null\""), "not above"),
    (Call::Load, "1 \"long\";2 \"string\";3 \"bytes\";9 \"int\";"),
];

#[test]
fn rows_are_loaded_in_order_and_put_behind_the_others(rt: HostRuntime) -> Result<(), Fail> {
    story(&rt, rt.alloc(), &TWO, &[], &KEPT)
}

const FAILS: [KeepFail; 4] = [
    KeepFail {
        call: 0,
        after: false,
    },
    KeepFail {
        call: 1,
        after: false,
    },
    KeepFail {
        call: 3,
        after: true,
    },
    KeepFail {
        call: 4,
        after: true,
    },
];

const FAILED: [(Call, &str); 6] = [
    (Call::Load, "fault"),
    (Call::Add(1, "\"long\""), "fault"),
    (Call::Load, ""),
    (Call::Add(1, "\"long\""), "fault"),
    (Call::Load, "fault"),
    (Call::Load, "1 \"long\";"),
];

#[test]
fn a_scripted_call_fails_before_its_effect_or_after_it(rt: HostRuntime) -> Result<(), Fail> {
    story(&rt, rt.alloc(), &[], &FAILS, &FAILED)
}
