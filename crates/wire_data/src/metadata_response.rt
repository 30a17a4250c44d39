//! Metadata, version 1, the response.
ghost use Rattle.std.specs.Prelude.{◌≡◌, ◌++◌, map, IfErr, IfOk, OnOk};
ghost use Rattle.wire_layout.specs.Layout.{ReachesOrWants, array, behind_many, each, spelled};
ghost use Rattle.wire_layout.specs.Whole.{IsPlaced, IsWritten, cause_alone};
ghost use Rattle.wire_data.specs.declared.metadata_response.MetadataResponse.{MetadataResponse};
ghost use Rattle.wire_data.specs.MetadataResponse.{AreTold, IsResponseRead, IsTold, as_stored, flag_of, is_set, metadata_response, response_of, stored_of, stored_response, stored_topic, topic_of};

use crate::metadata::{MetadataResponseRow, MetadataResponseRow2Row};
use gate_io::{Items, Text, Want};
use std::alloc::Global;
use wire_layout::{Laid, Message, Put, Refusal, WireNo, refusal_at, refusal_of, write_whole};
use wire_prim::{Cursor, PrimNo, put_count};

/// Brokers and topics. `rows` is `brokers`, `controller` is `controller_id`, `rows2` is `topics`.
#[derive(Drop)]
pub struct MetadataResponse {
    pub rows: Items<MetadataResponseRow>,
    pub controller: i32,
    pub rows2: Items<MetadataResponseRow2>,
}

/// A topic (`MetadataResponseTopic`). `code` is `error_code`, `internal` is `is_internal`, `rows` is `partitions`.
#[derive(Drop)]
pub struct MetadataResponseRow2 {
    pub code: i16,
    pub name: Text,
    pub internal: bool,
    pub rows: Items<MetadataResponseRow2Row>,
}

// Any byte but 0 is true.
fn is_set(flag: i8) -> bool
    ensures { result ≡ is_set flag }
{
    flag != 0
}

fn flag_of(internal: bool) -> i8
    ensures { result ≡ flag_of internal }
{
    if internal { 1 } else { 0 }
}

fn decode_topic(alloc: Global, cursor: &mut Cursor) -> Result<MetadataResponseRow2, PrimNo>
    ensures value { IfOk result (λ m. IsTold topic_of stored_topic m cursor.old cursor.new) }
    ensures answer { ReachesOrWants result (stored_topic.behind cursor.old.left) cursor.new.left }
{
    let code = i16::decode(alloc, cursor)?;
    let name = Text::decode(alloc, cursor)?;
    let flag = i8::decode(alloc, cursor)?;
    let rows = Items::decode(alloc, cursor)?;
    let internal = is_set(flag);
    Ok(MetadataResponseRow2 {
        code,
        name,
        internal,
        rows,
    })
}

fn decode_topics(
    alloc: Global,
    cursor: &mut Cursor,
    count: u32,
) -> Result<Items<MetadataResponseRow2>, PrimNo>
    ensures value { IfOk result (λ rows. AreTold count rows cursor.old cursor.new) }
    ensures answer { ReachesOrWants result (behind_many count stored_topic.behind cursor.old.left) cursor.new.left }
{
    let mut topics = Items::new(alloc);
    for _ in 0..count {
        let topic = match decode_topic(alloc, cursor) {
            Ok(topic) => topic,
            Err(cause) => return Err(cause),
        };
        topics.push(topic)?;
    }
    Ok(topics)
}

// The topics behind their count.
#[tactic(auto, unfolding(wire_layout::specs::Layout::array))]
fn topics(alloc: Global, cursor: &mut Cursor) -> Result<Items<MetadataResponseRow2>, PrimNo>
    ensures value { IfOk result (λ m. IsTold (map topic_of) (array stored_topic) m cursor.old cursor.new) }
    ensures answer { ReachesOrWants result ((array stored_topic).behind cursor.old.left) cursor.new.left }
{
    let count = cursor.count()?;
    decode_topics(alloc, cursor, count)
}

fn response(alloc: Global, cursor: &mut Cursor) -> Result<MetadataResponse, PrimNo>
    ensures value { IfOk result (λ m. IsTold response_of stored_response m cursor.old cursor.new) }
    ensures answer { ReachesOrWants result (stored_response.behind cursor.old.left) cursor.new.left }
{
    let rows = Items::decode(alloc, cursor)?;
    let controller = i32::decode(alloc, cursor)?;
    let rows2 = topics(alloc, cursor)?;
    Ok(MetadataResponse {
        rows,
        controller,
        rows2,
    })
}

fn put_topic(out: &mut Vec<u8>, topic: &MetadataResponseRow2) -> Result<(), Want>
    ensures ok { OnOk result (out.new.items ≡ out.old.items ++ stored_topic.spelling (as_stored topic.now)) }
    ensures fits { OnOk result (stored_topic.fits (as_stored topic.now)) }
{
    topic.code.put(out)?;
    topic.name.put(out)?;
    flag_of(topic.internal).put(out)?;
    topic.rows.put(out)?;
    Ok(())
}

fn put_topics(out: &mut Vec<u8>, topics: &[MetadataResponseRow2]) -> Result<(), Want>
    ensures ok { OnOk result (out.new.items ≡ out.old.items ++ spelled (λ t. stored_topic.spelling (as_stored t)) topics.now) }
    ensures fits { OnOk result (each (λ t. stored_topic.fits (as_stored t)) topics.now) }
{
    for topic in topics {
        put_topic(out, topic)?;
    }
    Ok(())
}

// The topics behind their count.
fn put_array(out: &mut Vec<u8>, topics: &[MetadataResponseRow2]) -> Result<(), Want>
    ensures ok { OnOk result (out.new.items ≡ out.old.items ++ (array stored_topic).spelling (map as_stored topics.now)) }
    ensures fits { OnOk result ((array stored_topic).fits (map as_stored topics.now)) }
{
    if topics.len() > 0x7fff_ffff {
        return Err(Want);
    }
    put_count(out, topics.len() as u32)?;
    put_topics(out, topics)?;
    Ok(())
}

/// A response is what its spelling tells, so one that is written reads back as itself.
pub fn responses_tell_themselves()
    ensures { (m : MetadataResponse) → response_of (stored_of m) ≡ m }
{}

impl MetadataResponse {
    /// Reads a body. A refusal has its place.
    pub fn read_placed(alloc: Global, bytes: &[u8]) -> Result<MetadataResponse, Refusal>
        ensures read { IsResponseRead bytes.now (cause_alone result) }
        ensures place { IfErr result (λ refusal. IsPlaced refusal (stored_response.behind bytes.now) bytes.now) }
    {
        let mut cursor = Cursor::new(bytes);
        let message = match response(alloc, &mut cursor) {
            Ok(message) => message,
            Err(cause) => return Err(refusal_at(refusal_of(cause), bytes.len(), cursor.left())),
        };
        let left = cursor.left();
        if left == 0 {
            Ok(message)
        } else {
            Err(refusal_at(WireNo::Rest(left), bytes.len(), left))
        }
    }

    /// Reads a body.
    pub fn read(alloc: Global, bytes: &[u8]) -> Result<MetadataResponse, WireNo>
        ensures { IsResponseRead bytes.now result }
    {
        match MetadataResponse::read_placed(alloc, bytes) {
            Ok(message) => Ok(message),
            Err(refusal) => Err(refusal.cause),
        }
    }

    /// Writes a body.
    pub fn write(&self, alloc: Global) -> Result<Vec<u8>, Want>
        ensures { IfOk result (λ out. IsWritten metadata_response 4 self.now out.items) }
    {
        write_whole(alloc, 4, self)
    }
}

impl Put for MetadataResponse {
    ghost layout = { metadata_response };

    fn put(&self, out: &mut Vec<u8>) -> Result<(), Want> {
        self.rows.put(out)?;
        self.controller.put(out)?;
        put_array(out, self.rows2.as_slice())?;
        Ok(())
    }
}

impl Message for MetadataResponse {}
