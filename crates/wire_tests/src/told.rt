//! What the calls answer to a test. Each call stands in a function without clauses.
use gate_io::Want;
use std::alloc::Global;
use std::process::Abort;
use std::test::Fail;
use wire_data::{
    ApiVersionsRequest, ApiVersionsResponse, FetchRequest, FetchResponse, ListOffsetsRequest,
    ListOffsetsResponse, MetadataRequest, MetadataResponse, ProduceRequest, ProduceResponse,
    WireNo,
};
use wire_group::{
    Assignment, FindCoordinatorRequest, FindCoordinatorResponse, HeartbeatRequest,
    HeartbeatResponse, JoinGroupRequest, JoinGroupResponse, LeaveGroupRequest, LeaveGroupResponse,
    OffsetCommitRequest, OffsetCommitResponse, OffsetFetchRequest, OffsetFetchResponse,
    Subscription, SyncGroupRequest, SyncGroupResponse,
};
use wire_prim::PrimNo;

/// What a message's reader and then its writer make of some bytes.
#[derive(Clone, Copy, PartialEq, Eq)]
pub(crate) enum Told {
    /// They are written again as they are.
    Same,
    /// They are read, and others are written.
    Another,
    /// They don't read, or what is read isn't written.
    No(WireNo),
}

/// The name of a message.
#[derive(Clone, Copy, Debug)]
pub(crate) enum Message {
    ProduceRequest,
    ProduceResponse,
    FetchRequest,
    FetchResponse,
    ListOffsetsRequest,
    ListOffsetsResponse,
    MetadataRequest,
    MetadataResponse,
    ApiVersionsRequest,
    ApiVersionsResponse,
    FindCoordinatorRequest,
    FindCoordinatorResponse,
    JoinGroupRequest,
    JoinGroupResponse,
    SyncGroupRequest,
    SyncGroupResponse,
    HeartbeatRequest,
    HeartbeatResponse,
    LeaveGroupRequest,
    LeaveGroupResponse,
    OffsetCommitRequest,
    OffsetCommitResponse,
    OffsetFetchRequest,
    OffsetFetchResponse,
    Subscription,
    Assignment,
}

fn again(written: Result<Vec<u8>, Want>, bytes: &[u8]) -> Told {
    match written {
        Ok(written) if written.as_slice() == bytes => Told::Same,
        Ok(_) => Told::Another,
        Err(_) => Told::No(WireNo::Want),
    }
}

macro_rules! told {
    ($message:ident, $alloc:expr, $bytes:expr) => {
        match $message::read($alloc, $bytes) {
            Ok(message) => again(message.write($alloc), $bytes),
            Err(cause) => Told::No(cause),
        }
    };
}

fn produce_request(alloc: Global, bytes: &[u8]) -> Told {
    told!(ProduceRequest, alloc, bytes)
}

fn produce_response(alloc: Global, bytes: &[u8]) -> Told {
    told!(ProduceResponse, alloc, bytes)
}

fn fetch_request(alloc: Global, bytes: &[u8]) -> Told {
    told!(FetchRequest, alloc, bytes)
}

fn fetch_response(alloc: Global, bytes: &[u8]) -> Told {
    told!(FetchResponse, alloc, bytes)
}

fn list_offsets_request(alloc: Global, bytes: &[u8]) -> Told {
    told!(ListOffsetsRequest, alloc, bytes)
}

fn list_offsets_response(alloc: Global, bytes: &[u8]) -> Told {
    told!(ListOffsetsResponse, alloc, bytes)
}

fn metadata_request(alloc: Global, bytes: &[u8]) -> Told {
    told!(MetadataRequest, alloc, bytes)
}

fn metadata_response(alloc: Global, bytes: &[u8]) -> Told {
    told!(MetadataResponse, alloc, bytes)
}

fn api_versions_request(alloc: Global, bytes: &[u8]) -> Told {
    told!(ApiVersionsRequest, alloc, bytes)
}

fn api_versions_response(alloc: Global, bytes: &[u8]) -> Told {
    told!(ApiVersionsResponse, alloc, bytes)
}

fn find_coordinator_request(alloc: Global, bytes: &[u8]) -> Told {
    told!(FindCoordinatorRequest, alloc, bytes)
}

fn find_coordinator_response(alloc: Global, bytes: &[u8]) -> Told {
    told!(FindCoordinatorResponse, alloc, bytes)
}

fn join_group_request(alloc: Global, bytes: &[u8]) -> Told {
    told!(JoinGroupRequest, alloc, bytes)
}

fn join_group_response(alloc: Global, bytes: &[u8]) -> Told {
    told!(JoinGroupResponse, alloc, bytes)
}

fn sync_group_request(alloc: Global, bytes: &[u8]) -> Told {
    told!(SyncGroupRequest, alloc, bytes)
}

fn sync_group_response(alloc: Global, bytes: &[u8]) -> Told {
    told!(SyncGroupResponse, alloc, bytes)
}

fn heartbeat_request(alloc: Global, bytes: &[u8]) -> Told {
    told!(HeartbeatRequest, alloc, bytes)
}

fn heartbeat_response(alloc: Global, bytes: &[u8]) -> Told {
    told!(HeartbeatResponse, alloc, bytes)
}

fn leave_group_request(alloc: Global, bytes: &[u8]) -> Told {
    told!(LeaveGroupRequest, alloc, bytes)
}

fn leave_group_response(alloc: Global, bytes: &[u8]) -> Told {
    told!(LeaveGroupResponse, alloc, bytes)
}

fn offset_commit_request(alloc: Global, bytes: &[u8]) -> Told {
    told!(OffsetCommitRequest, alloc, bytes)
}

fn offset_commit_response(alloc: Global, bytes: &[u8]) -> Told {
    told!(OffsetCommitResponse, alloc, bytes)
}

fn offset_fetch_request(alloc: Global, bytes: &[u8]) -> Told {
    told!(OffsetFetchRequest, alloc, bytes)
}

fn offset_fetch_response(alloc: Global, bytes: &[u8]) -> Told {
    told!(OffsetFetchResponse, alloc, bytes)
}

fn subscription(alloc: Global, bytes: &[u8]) -> Told {
    told!(Subscription, alloc, bytes)
}

fn assignment(alloc: Global, bytes: &[u8]) -> Told {
    told!(Assignment, alloc, bytes)
}

fn told_of_data(alloc: Global, message: Message, bytes: &[u8]) -> Option<Told> {
    match message {
        Message::ProduceRequest => Some(produce_request(alloc, bytes)),
        Message::ProduceResponse => Some(produce_response(alloc, bytes)),
        Message::FetchRequest => Some(fetch_request(alloc, bytes)),
        Message::FetchResponse => Some(fetch_response(alloc, bytes)),
        Message::ListOffsetsRequest => Some(list_offsets_request(alloc, bytes)),
        Message::ListOffsetsResponse => Some(list_offsets_response(alloc, bytes)),
        Message::MetadataRequest => Some(metadata_request(alloc, bytes)),
        Message::MetadataResponse => Some(metadata_response(alloc, bytes)),
        Message::ApiVersionsRequest => Some(api_versions_request(alloc, bytes)),
        Message::ApiVersionsResponse => Some(api_versions_response(alloc, bytes)),
        _ => None,
    }
}

fn told_of_group(alloc: Global, message: Message, bytes: &[u8]) -> Option<Told> {
    match message {
        Message::FindCoordinatorRequest => Some(find_coordinator_request(alloc, bytes)),
        Message::FindCoordinatorResponse => Some(find_coordinator_response(alloc, bytes)),
        Message::JoinGroupRequest => Some(join_group_request(alloc, bytes)),
        Message::JoinGroupResponse => Some(join_group_response(alloc, bytes)),
        Message::SyncGroupRequest => Some(sync_group_request(alloc, bytes)),
        Message::SyncGroupResponse => Some(sync_group_response(alloc, bytes)),
        Message::HeartbeatRequest => Some(heartbeat_request(alloc, bytes)),
        Message::HeartbeatResponse => Some(heartbeat_response(alloc, bytes)),
        Message::LeaveGroupRequest => Some(leave_group_request(alloc, bytes)),
        Message::LeaveGroupResponse => Some(leave_group_response(alloc, bytes)),
        Message::OffsetCommitRequest => Some(offset_commit_request(alloc, bytes)),
        Message::OffsetCommitResponse => Some(offset_commit_response(alloc, bytes)),
        Message::OffsetFetchRequest => Some(offset_fetch_request(alloc, bytes)),
        Message::OffsetFetchResponse => Some(offset_fetch_response(alloc, bytes)),
        Message::Subscription => Some(subscription(alloc, bytes)),
        Message::Assignment => Some(assignment(alloc, bytes)),
        _ => None,
    }
}

fn read_again(alloc: Global, message: Message, bytes: &[u8]) -> Option<Told> {
    match told_of_data(alloc, message, bytes) {
        Some(told) => Some(told),
        None => told_of_group(alloc, message, bytes),
    }
}

/// Each message's bytes are told so.
pub(crate) fn told_so(rt: &impl Abort, alloc: Global, cases: &[(Message, &[u8], Told)]) {
    for (message, bytes, wanted) in cases {
        assert!(rt;
            read_again(alloc, *message, bytes) == Some(*wanted),
            "{message:?}"
        );
    }
}

fn same_again(rt: &impl Abort, alloc: Global, cases: &[(Message, &[u8])]) {
    for (message, bytes) in cases {
        assert!(rt;
            read_again(alloc, *message, bytes) == Some(Told::Same),
            "{message:?}"
        );
    }
}

/// The bytes without the last one.
pub(crate) fn cut(bytes: &[u8]) -> &[u8] {
    match bytes {
        [front @ .., _] => front,
        [] => bytes,
    }
}

fn short(rt: &impl Abort, alloc: Global, cases: &[(Message, &[u8])]) {
    for (message, bytes) in cases {
        let short = Told::No(WireNo::Prim(PrimNo::Short));
        assert!(rt;
            read_again(alloc, *message, cut(bytes)) == Some(short),
            "{message:?}"
        );
    }
}

// What is told of the bytes with one more.
fn told_longer(alloc: Global, message: Message, bytes: &[u8]) -> Result<Option<Told>, Fail> {
    let mut longer = bytes.to_vec(alloc)?;
    longer.push(0)?;
    Ok(read_again(alloc, message, longer.as_slice()))
}

fn longer(rt: &impl Abort, alloc: Global, cases: &[(Message, &[u8])]) -> Result<(), Fail> {
    for (message, bytes) in cases {
        let told = told_longer(alloc, *message, bytes)?;
        assert!(rt; told == Some(Told::No(WireNo::Rest(1))), "{message:?}");
    }
    Ok(())
}

/// Each message's bytes are written again as they are; one less is `Short`, one more is left over.
pub(crate) fn both_ways(
    rt: &impl Abort,
    alloc: Global,
    cases: &[(Message, &[u8])],
) -> Result<(), Fail> {
    same_again(rt, alloc, cases);
    short(rt, alloc, cases);
    longer(rt, alloc, cases)
}

pub(crate) fn same(rt: &impl Abort, written: &[u8], bytes: &[u8]) {
    assert_eq!(rt; written, bytes);
}
