ghost use Rattle.std.specs.Prelude.{◌≡◌, ◌⊎◌, IfOk, ℕ, ℤ, List, string_bytes, true};
ghost use Rattle.model.specs.texts.Bodies.{is_retriable};
ghost use Rattle.model.specs.state.Log.{Row};
ghost use Rattle.model.specs.state.Entry.Reply.{Refused, Broker, LinkFault, Unread};
ghost use Rattle.broker_link.specs.Replies.{link_reply};
ghost use Rattle.rest_codes.specs.declared.response.Reply.TheVariants.{Want as WantReply};
ghost use Rattle.rest_replies.specs.Failure.{Says, SaysOrWant, broker_message, broker_number, is_refusal_code, unread_message};

use broker_link::LinkNo;
use gate_io::{Text, Want};
use rest_codes::{Reply, refusal};
use std::alloc::{AllocError, Global};

/// The refusal by a code of the gateway, with its message.
pub fn refused(alloc: Global, code: u32) -> Reply
    requires { is_refusal_code code ≡ true }
    ensures says { SaysOrWant (Refused code) result }
{
    match refusal(alloc, code) {
        Ok(reply) => reply,
        Err(Want) => Reply::Want,
    }
}

/// A further try may not meet this code (Apache Kafka protocol guide, error codes).
pub(crate) fn is_retriable(code: i16) -> bool
    ensures { result ≡ is_retriable code }
{
    matches!(code, 2 | 3 | 5 | 6 | 7 | 15 | 16)
}

#[tactic(auto, unfolding(crate::specs::Failure::broker_message))]
fn broker_message(alloc: Global, code: i16) -> Result<String, AllocError>
    ensures { IfOk result (λ s. string_bytes s ≡ broker_message code) }
{
    if is_retriable(code) {
        format!(in alloc; "Kafka retriable error: broker code {code}.")
    } else {
        format!(in alloc; "Kafka error: broker code {code}.")
    }
}

fn broker_number(code: i16) -> u32
    ensures { result ≡ broker_number code }
{
    if is_retriable(code) { 50003 } else { 50002 }
}

fn broker_refusal(alloc: Global, code: i16) -> Reply
    ensures says { SaysOrWant (Broker code) result }
{
    match broker_message(alloc, code) {
        Ok(text) => Reply::Error {
            code: broker_number(code),
            text: Text::from_string(text),
        },
        Err(AllocError) => Reply::Want,
    }
}

fn link_fault(alloc: Global) -> Reply
    ensures says { SaysOrWant LinkFault result }
{
    match Text::from_str(alloc, "Kafka retriable error: link.") {
        Ok(text) => Reply::Error { code: 50003, text },
        Err(AllocError) => Reply::Want,
    }
}

/// The reply that a failure of the link stands for.
pub fn link_failure(alloc: Global, e: LinkNo) -> Reply
    ensures says { SaysOrWant (link_reply e) result }
{
    match e {
        LinkNo::Fault => link_fault(alloc),
        LinkNo::Refused(code) => broker_refusal(alloc, code),
        LinkNo::Want => Reply::Want,
    }
}

#[tactic(auto, unfolding(crate::specs::Failure::unread_message))]
fn unread_message(
    alloc: Global,
    topic: &str,
    partition: u32,
    offset: u64,
    reason: u8,
) -> Result<String, AllocError>
    ensures { IfOk result (λ s. string_bytes s ≡ unread_message topic.now partition offset reason) }
{
    format!(in alloc;
        "Record does not read: topic {topic}, partition {partition}, offset {offset}, reason {reason}."
    )
}

/// The refusal of a Records call whose first row doesn't read: where the row stands, and why it doesn't.
/// 2 says that its key or its value isn't a JSON text, nested at most 127 levels deep.
pub fn unread(
    alloc: Global,
    topic: &str,
    partition: u32,
    offset: u64,
    reason: u8,
) -> Result<Reply, AllocError>
    ensures { IfOk result (λ r. (row : Row) → row.offset ≡ offset → Says (Unread (record { at = record { topic = topic.now; partition = partition }; row = row }) reason) r) }
{
    let text = unread_message(alloc, topic, partition, offset, reason)?;
    Ok(Reply::Error {
        code: 50002,
        text: Text::from_string(text),
    })
}
