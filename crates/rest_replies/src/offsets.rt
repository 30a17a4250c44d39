ghost use Rattle.std.specs.Prelude.{◌≡◌, ◌≢◌, ◌++◌, ◌⊎◌, IfOk, OnOk, ℕ, ℤ, pos, List, [], map, cond, codes, Result, string_bytes};
ghost use Rattle.model.specs.state.Entry.{is_zero};
ghost use Rattle.model.specs.texts.Texts.{placed_text, joined, is_retriable};
ghost use Rattle.rest_replies.specs.Answer.{placed_of, refusal_reply};
ghost use Rattle.rest_replies.specs.Failure.{SaysOrWant};
ghost use Rattle.rest_replies.specs.Offsets.{SaysAnswer, SaysProduced, offsets_text, stored_text, code_text, failed_text};

use crate::failure::{is_retriable, link_failure, refused};
use crate::{ProduceNo, Told};
use gate_io::{Items, Text};
use itoa::Buffer;
use rest_codes::{Media, Reply};
use std::alloc::{AllocError, Global};

fn is_stored(told: &Told) -> bool
    ensures { result ≡ is_zero told.now.code }
{
    told.code == 0
}

/// The kind of an error: 2 where a further try may not meet it, else 1.
fn kind_of(told: &Told) -> &'static str
    ensures { result.now ≡ cond (is_retriable told.now.code) (codes "2") (codes "1") }
{
    if is_retriable(told.code) { "2" } else { "1" }
}

/// Appends the answer to a record that was stored.
#[tactic(auto, unfolding(crate::specs::Offsets::stored_text))]
fn put_stored_at(text: &mut String, partition: u32, offset: u64) -> Result<(), AllocError>
    ensures { OnOk result (string_bytes text.new ≡ string_bytes text.old ++ stored_text partition offset) }
{
    let mut digits = Buffer::new();
    text.push_str("{\"partition\":")?;
    text.push_str(digits.format(partition))?;
    text.push_str(",\"offset\":")?;
    text.push_str(digits.format(offset))?;
    text.push_str(",\"error_code\":null,\"error\":null}")?;
    Ok(())
}

#[tactic(auto, unfolding(crate::specs::Offsets::code_text))]
fn code_text(alloc: Global, told: &Told) -> Result<String, AllocError>
    ensures { IfOk result (λ s. string_bytes s ≡ code_text told.now.code) }
{
    let code = told.code;
    format!(in alloc; "broker code {code}")
}

#[tactic(auto, unfolding(crate::specs::Offsets::failed_text))]
fn failed_text(
    alloc: Global,
    partition: u32,
    kind: &str,
    reason: &str,
) -> Result<String, AllocError>
    ensures { IfOk result (λ s. string_bytes s ≡ failed_text partition kind.now reason.now) }
{
    format!(in alloc;
        "{{\"partition\":{partition},\"offset\":null,\"error_code\":{kind},\"error\":\"{reason}\"}}"
    )
}

/// Appends the answer to a record.
fn put_placed(text: &mut String, alloc: Global, told: &Told) -> Result<(), AllocError>
    ensures { OnOk result (string_bytes text.new ≡ string_bytes text.old ++ placed_text (placed_of told.now)) }
{
    if is_stored(told) {
        return put_stored_at(text, told.partition, told.offset);
    }
    let reason = code_text(alloc, told)?;
    let one = failed_text(alloc, told.partition, kind_of(told), reason.as_str())?;
    text.push_str(one.as_str())?;
    Ok(())
}

fn push_one(text: &mut String, alloc: Global, first: bool, told: &Told) -> Result<(), AllocError>
    ensures { OnOk result (string_bytes text.new ≡ string_bytes text.old ++ (cond first [] (codes ",") ++ placed_text (placed_of told.now))) }
{
    if !first {
        text.push_str(",")?;
    }
    put_placed(text, alloc, told)
}

/// About so many bytes stand around the answers, and in that to one record.
const ROOM: usize = 64;

/// The answers of a produce, in the order of its records.
fn offsets_text(alloc: Global, told: &[Told]) -> Result<String, AllocError>
    ensures { IfOk result (λ s. string_bytes s ≡ offsets_text (map placed_of told.now)) }
{
    let room = told.len().saturating_add(1).saturating_mul(ROOM);
    let mut text = String::with_capacity(alloc, room)?;
    text.push_str("{\"offsets\":[")?;
    for (i, one) in told.iter().enumerate() {
        push_one(&mut text, alloc, i == 0, one)?;
    }
    text.push_str("],\"key_schema_id\":null,\"value_schema_id\":null}")?;
    Ok(text)
}

fn no_answer(alloc: Global, e: ProduceNo) -> Reply
    ensures { SaysOrWant (refusal_reply e) result }
{
    match e {
        ProduceNo::NoTopic => refused(alloc, 40401),
        ProduceNo::NoPartition => refused(alloc, 40402),
        ProduceNo::Link(e) => link_failure(alloc, e),
        ProduceNo::Want => Reply::Want,
    }
}

fn answers(alloc: Global, told: &[Told]) -> Reply
    ensures { SaysProduced (map placed_of told.now) result }
{
    match offsets_text(alloc, told) {
        Ok(text) => Reply::Body {
            media: Media::Plain,
            text: Text::from_string(text),
        },
        Err(AllocError) => Reply::Want,
    }
}

/// The reply to a produce: the answer to each of its records, in their order, or why it has none.
pub fn reply_to(alloc: Global, answer: Result<Items<Told>, ProduceNo>) -> Reply
    ensures { SaysAnswer answer result }
{
    match answer {
        Ok(told) => answers(alloc, told.as_slice()),
        Err(e) => no_answer(alloc, e),
    }
}
