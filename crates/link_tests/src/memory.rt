//! A link in memory, with a topic "t" of two partitions. The expected values are written by hand.
//! Each test is a story: a constant table of calls with what each tells, which one loop walks.

ghost use Rattle.std.specs.Prelude.{◌≤ℤ◌, ◌<◌, ◌^◌, ◌≡◌, pos, nat_abs, IfOk};

use broker_link::{
    Edge, Fail, FetchFrom, Fetched, Foreign, Link, LinkNo, MemLink, NewRecord, PartPlaced,
    PartRecords, TopicPart,
};
use gate_io::{Items, Text};
use std::alloc::{AllocError, Global};
use std::process::Abort;
use std::test::Fail as Failed;

fn link(alloc: Global) -> Result<MemLink, Failed> {
    let plans = [(Text::from_str(alloc, "t")?, 2)];
    let link = MemLink::new(alloc, &plans)?;
    Ok(link)
}

fn row(alloc: Global, key: &str, value: &str) -> Result<NewRecord, AllocError> {
    Ok(NewRecord {
        key: Some(Items::from_slice(alloc, key.as_bytes())?),
        value: Some(Items::from_slice(alloc, value.as_bytes())?),
    })
}

/// Stores one record.
fn put(
    alloc: Global,
    link: &mut MemLink,
    partition: u16,
    key: &str,
    value: &str,
) -> Result<Items<PartPlaced>, LinkNo> {
    let mut rows = Items::new(alloc);
    rows.push(row(alloc, key, value)?)?;
    let partition = i32::from(partition);
    link.produce(alloc, 0, "t", &[PartRecords { partition, rows }])
}

/// Each record by its partition, key and value.
fn put_all(alloc: Global, link: &mut MemLink, records: &[(u16, &str, &str)]) -> Result<(), Failed> {
    for (partition, key, value) in records {
        put(alloc, link, *partition, key, value)?;
    }
    Ok(())
}

/// Partition 0 has "first", "other", "third", and partition 1 has "x", which has
/// a key of one byte.
const RECORDS: [(u16, &str, &str); 4] = [
    (0, "", "first"),
    (0, "", "other"),
    (0, "", "third"),
    (1, "k", "x"),
];

fn filled(alloc: Global) -> Result<MemLink, Failed> {
    let mut link = link(alloc)?;
    put_all(alloc, &mut link, &RECORDS)?;
    Ok(link)
}

fn ask(alloc: Global, topic: &str, partition: u16, offset: u32) -> Result<FetchFrom, AllocError>
    ensures { IfOk result (λ ask. ask.partition ≡ pos partition) }
{
    Ok(FetchFrom {
        topic: Text::from_str(alloc, topic)?,
        partition: i32::from(partition),
        offset: i64::from(offset),
    })
}

fn fetch(
    alloc: Global,
    link: &mut MemLink,
    topic: &str,
    partition: u16,
    offset: u32,
    max_bytes: u16,
) -> Result<Items<Fetched>, LinkNo> {
    let asks = [ask(alloc, topic, partition, offset)?];
    link.fetch(alloc, &asks, u32::from(max_bytes))
}

/// From the start of both partitions.
fn fetch_both(alloc: Global, link: &mut MemLink, max_bytes: u16) -> Result<Items<Fetched>, LinkNo> {
    let asks = [ask(alloc, "t", 0, 0)?, ask(alloc, "t", 1, 0)?];
    link.fetch(alloc, &asks, u32::from(max_bytes))
}

fn text_of(value: &Option<Items<u8>>) -> &str {
    match value {
        None => "null",
        Some(bytes) => str::from_utf8(bytes.as_slice()).unwrap_or("?"),
    }
}

/// The rows as "offset=value ", and then the end, or "out;".
fn tell_one(alloc: Global, text: &mut String, one: &Fetched) -> Result<(), AllocError> {
    if one.out_of_range {
        return text.push_str("out;");
    }
    for row in one.rows.as_slice() {
        let offset = row.offset;
        let value = text_of(&row.value);
        text.push_str(format!(in alloc; "{offset}={value} ")?.as_str())?;
    }
    let end = one.end;
    text.push_str(format!(in alloc; "end {end};")?.as_str())
}

fn told(alloc: Global, answer: Result<Items<Fetched>, LinkNo>) -> Result<String, Failed> {
    let mut text = String::new(alloc);
    match answer {
        Err(no) => text.push_str(format!(in alloc; "{no:?}")?.as_str())?,
        Ok(fetched) => {
            for one in fetched.as_slice() {
                tell_one(alloc, &mut text, one)?;
            }
        }
    }
    Ok(text)
}

/// "stored", or why not.
fn told_put(
    alloc: Global,
    link: &mut MemLink,
    partition: u16,
    value: &str,
) -> Result<String, Failed> {
    match put(alloc, link, partition, "", value) {
        Ok(_placed) => Ok(String::from_str(alloc, "stored")?),
        Err(no) => Ok(format!(in alloc; "{no:?}")?),
    }
}

/// The offset, or why there is none.
fn told_edge(
    alloc: Global,
    link: &mut MemLink,
    topic: &str,
    partition: u16,
    edge: Edge,
) -> Result<String, Failed> {
    match link.list_offset(alloc, topic, i32::from(partition), edge) {
        Ok(offset) => Ok(format!(in alloc; "{offset}")?),
        Err(no) => Ok(format!(in alloc; "{no:?}")?),
    }
}

/// What a group has committed at partition 0, each offset behind a blank.
fn told_commits(alloc: Global, link: &mut MemLink) -> Result<String, Failed> {
    let topic = Text::from_str(alloc, "t")?;
    let parts = [TopicPart {
        topic,
        partition: 0,
    }];
    let offsets = link.committed(alloc, "g", &parts)?;
    let mut text = String::new(alloc);
    for offset in offsets.as_slice() {
        text.push_str(format!(in alloc; " {offset}")?.as_str())?;
    }
    Ok(text)
}

/// Each topic's name with the number of its partitions.
fn told_topics(alloc: Global, link: &mut MemLink) -> Result<String, Failed> {
    let infos = link.metadata(alloc, None)?;
    let mut text = String::new(alloc);
    for info in infos.as_slice() {
        let (name, parts) = (info.name.as_str(), info.parts.len());
        text.push_str(format!(in alloc; "{name} {parts};")?.as_str())?;
    }
    Ok(text)
}

/// A call of a story.
enum Step {
    /// Stores a value in a partition.
    Put(u16, &'static str),
    /// From a topic's partition and an offset on, so many bytes.
    Fetch(&'static str, u16, u32, u16),
    /// From the start of both partitions, so many bytes.
    FetchBoth(u16),
    Edge(&'static str, u16, Edge),
    Commits,
    Topics,
}

fn told_step(alloc: Global, link: &mut MemLink, step: &Step) -> Result<String, Failed> {
    match step {
        Step::Put(partition, value) => told_put(alloc, link, *partition, value),
        Step::Fetch(topic, partition, offset, bytes) => {
            told(
                alloc,
                fetch(alloc, link, topic, *partition, *offset, *bytes),
            )
        }
        Step::FetchBoth(bytes) => told(alloc, fetch_both(alloc, link, *bytes)),
        Step::Edge(topic, partition, edge) => told_edge(alloc, link, topic, *partition, *edge),
        Step::Commits => told_commits(alloc, link),
        Step::Topics => told_topics(alloc, link),
    }
}

/// Each call tells what stands beside it.
fn tells(
    rt: &impl Abort,
    alloc: Global,
    link: &mut MemLink,
    story: &[(Step, &str)],
) -> Result<(), Failed> {
    for (place, (step, wanted)) in story.iter().enumerate() {
        let text = told_step(alloc, link, step)?;
        assert_eq!(rt; text.as_str(), *wanted, "call {place}");
    }
    Ok(())
}

const FROM_AN_OFFSET: [(Step, &str); 9] = [
    (
        Step::Fetch("t", 0, 0, 100),
        "0=first 1=other 2=third end 3;",
    ),
    (Step::Fetch("t", 0, 1, 100), "1=other 2=third end 3;"),
    (Step::Fetch("t", 0, 3, 100), "end 3;"),
    (Step::Fetch("t", 0, 4, 100), "out;"),
    (Step::Fetch("t", 0, 0, 0), "0=first end 3;"),
    (Step::Fetch("t", 0, 0, 1), "0=first end 3;"),
    (Step::Fetch("t", 0, 0, 10), "0=first 1=other end 3;"),
    (Step::Fetch("t", 0, 0, 14), "0=first 1=other end 3;"),
    (Step::Fetch("t", 0, 0, 15), "0=first 1=other 2=third end 3;"),
];

#[test]
fn fetches_from_an_offset_on(rt: HostRuntime) -> Result<(), Failed> {
    let mut link = filled(rt.alloc())?;
    tells(&rt, rt.alloc(), &mut link, &FROM_AN_OFFSET)
}

const OF_BOTH: [(Step, &str); 5] = [
    (Step::FetchBoth(1), "0=first end 3;end 1;"),
    (Step::FetchBoth(12), "0=first 1=other end 3;end 1;"),
    (Step::FetchBoth(15), "0=first 1=other 2=third end 3;end 1;"),
    (Step::FetchBoth(16), "0=first 1=other 2=third end 3;end 1;"),
    (
        Step::FetchBoth(17),
        "0=first 1=other 2=third end 3;0=x end 1;",
    ),
];

#[test]
fn a_row_that_does_not_fit_ends_the_answer(rt: HostRuntime) -> Result<(), Failed> {
    let mut link = filled(rt.alloc())?;
    tells(&rt, rt.alloc(), &mut link, &OF_BOTH)
}

const EDGES: [(Step, &str); 3] = [
    (Step::Edge("t", 0, Edge::Start), "0"),
    (Step::Edge("t", 0, Edge::End), "3"),
    (Step::Edge("t", 1, Edge::End), "1"),
];

#[test]
fn tells_the_edges_of_a_partition(rt: HostRuntime) -> Result<(), Failed> {
    let mut link = filled(rt.alloc())?;
    tells(&rt, rt.alloc(), &mut link, &EDGES)
}

// Code 3 is UNKNOWN_TOPIC_OR_PARTITION.
const LACKING: [(Step, &str); 4] = [
    (Step::Fetch("u", 0, 0, 9), "Refused(3)"),
    (Step::Fetch("t", 2, 0, 9), "Refused(3)"),
    (Step::Edge("u", 0, Edge::End), "Refused(3)"),
    (Step::Edge("t", 2, Edge::End), "Refused(3)"),
];

#[test]
fn refuses_a_partition_that_it_lacks(rt: HostRuntime) -> Result<(), Failed> {
    let mut link = filled(rt.alloc())?;
    tells(&rt, rt.alloc(), &mut link, &LACKING)
}

const COMMITTED: [(Step, &str); 1] = [(Step::Commits, " -1")];

#[test]
fn no_group_has_committed(rt: HostRuntime) -> Result<(), Failed> {
    let mut link = filled(rt.alloc())?;
    tells(&rt, rt.alloc(), &mut link, &COMMITTED)
}

/// From now on the call of that number fails so.
fn fail_at(
    alloc: Global,
    link: &mut MemLink,
    call: u64,
    after: bool,
    code: i16,
) -> Result<(), Failed> {
    let mut fails = Items::new(alloc);
    fails.push(Fail { call, after, code })?;
    link.script(fails, Items::new(alloc));
    Ok(())
}

const BEFORE: [(Step, &str); 2] = [
    (Step::Put(0, "lost"), "Fault"),
    (Step::Edge("t", 0, Edge::End), "0"),
];

#[test]
fn a_call_fails_before_its_effect(rt: HostRuntime) -> Result<(), Failed> {
    let mut link = link(rt.alloc())?;
    fail_at(rt.alloc(), &mut link, 0, false, 0)?;
    tells(&rt, rt.alloc(), &mut link, &BEFORE)
}

const AFTER: [(Step, &str); 2] = [
    (Step::Put(0, "kept"), "Fault"),
    (Step::Fetch("t", 0, 0, 9), "0=kept end 1;"),
];

#[test]
fn a_call_fails_after_its_effect(rt: HostRuntime) -> Result<(), Failed> {
    let mut link = link(rt.alloc())?;
    fail_at(rt.alloc(), &mut link, 0, true, 0)?;
    tells(&rt, rt.alloc(), &mut link, &AFTER)
}

const UNSCRIPTED: [(Step, &str); 1] = [(Step::Edge("t", 0, Edge::End), "0")];

const NUMBERED: [(Step, &str); 3] = [
    (Step::Edge("t", 0, Edge::End), "0"),
    (Step::Edge("t", 0, Edge::End), "Refused(6)"),
    (Step::Edge("t", 0, Edge::End), "0"),
];

#[test]
fn a_call_is_refused_by_its_number(rt: HostRuntime) -> Result<(), Failed> {
    let mut link = link(rt.alloc())?;
    tells(&rt, rt.alloc(), &mut link, &UNSCRIPTED)?;
    fail_at(rt.alloc(), &mut link, 2, false, 6)?;
    tells(&rt, rt.alloc(), &mut link, &NUMBERED)
}

fn foreign(alloc: Global, call: u64, partition: i32, value: &str) -> Result<Foreign, AllocError> {
    Ok(Foreign {
        call,
        topic: Text::from_str(alloc, "t")?,
        partition,
        row: row(alloc, "", value)?,
    })
}

/// Each row of somebody else before its call, in its partition.
fn others_at(alloc: Global, link: &mut MemLink, rows: &[(u64, i32, &str)]) -> Result<(), Failed> {
    let mut others = Items::new(alloc);
    for (call, partition, value) in rows {
        others.push(foreign(alloc, *call, *partition, value)?)?;
    }
    link.script(Items::new(alloc), others);
    Ok(())
}

const THEIRS: [(u64, i32, &str); 3] = [(1, 0, "theirs"), (1, 2, "lacking"), (1, -1, "lacking")];

const WITH_THEIRS: [(Step, &str); 3] = [
    (Step::Fetch("t", 0, 0, 9), "end 0;"),
    (Step::Fetch("t", 0, 0, 9), "0=theirs end 1;"),
    (Step::Fetch("t", 0, 0, 9), "0=theirs end 1;"),
];

#[test]
fn rows_of_others_come_before_their_call(rt: HostRuntime) -> Result<(), Failed> {
    let mut link = link(rt.alloc())?;
    others_at(rt.alloc(), &mut link, &THEIRS)?;
    tells(&rt, rt.alloc(), &mut link, &WITH_THEIRS)
}

const NAMED: [(Step, &str); 1] = [(Step::Topics, "t 2;")];

#[test]
fn metadata_has_the_topic(rt: HostRuntime) -> Result<(), Failed> {
    let mut link = link(rt.alloc())?;
    tells(&rt, rt.alloc(), &mut link, &NAMED)
}
