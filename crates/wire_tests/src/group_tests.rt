//! The messages about groups: vectors made by hand from the Kafka protocol guide's tables, one field a line.
use crate::told::{Message, Told, both_ways, told_so};
use gate_io::{Items, Want};
use std::alloc::Global;
use std::process::Abort;
use std::test::Fail;
use wire_group::{Assignment, HeartbeatRequest, Subscription, WireNo};
use wire_layout::Refusal;
use wire_prim::PrimNo;

const FIND_COORDINATOR_REQUEST: &[u8] = &[
    0, 1, b'g', // group
];

const FIND_COORDINATOR_RESPONSE: &[u8] = &[
    0, 0, // code
    0, 0, 0, 1, // node
    0, 4, b'h', b'o', b's', b't', // host
    0, 0, 0x23, 0x84, // port
];

const JOIN_GROUP_REQUEST: &[u8] = &[
    0, 1, b'g', // group
    0, 0, 0x27, 0x10, // session_ms
    0, 0, 0x75, 0x30, // rebalance_ms
    0, 0, // member
    0, 8, b'c', b'o', b'n', b's', b'u', b'm', b'e', b'r', // protocol_type
    0, 0, 0, 1, // one row
    0, 5, b'r', b'a', b'n', b'g', b'e', // name
    0, 0, 0, 2, 7, 8, // metadata
];

const JOIN_GROUP_RESPONSE: &[u8] = &[
    0, 0, 0, 0, // throttle_ms
    0, 0, // code
    0, 0, 0, 1, // generation
    0, 5, b'r', b'a', b'n', b'g', b'e', // protocol
    0, 1, b'l', // leader
    0, 1, b'm', // member
    0, 0, 0, 2, // two rows
    0, 1, b'l', // member
    0, 0, 0, 1, 9, // metadata
    0, 1, b'm', // member
    0, 0, 0, 0, // metadata
];

const SYNC_GROUP_REQUEST: &[u8] = &[
    0, 1, b'g', // group
    0, 0, 0, 1, // generation
    0, 1, b'l', // member
    0, 0, 0, 1, // one row
    0, 1, b'm', // member
    0, 0, 0, 3, 1, 2, 3, // assignment
];

const SYNC_GROUP_RESPONSE: &[u8] = &[
    0, 25, // code
    0, 0, 0, 1, 5, // assignment
];

// The request of a frame whose header names correlation 1 and the client `restgate`.
const HEARTBEAT_REQUEST: &[u8] = &[
    0, 1, 0x67, // group
    0, 0, 0, 2, // generation
    0, 8, 0x6d, 0x65, 0x6d, 0x62, 0x65, 0x72, 0x2d, 0x31, // member
];

const HEARTBEAT_RESPONSE: &[u8] = &[
    0, 0x1b, // code
];

const LEAVE_GROUP_REQUEST: &[u8] = &[
    0, 1, b'g', // group
    0, 1, b'm', // member
];

const LEAVE_GROUP_RESPONSE: &[u8] = &[
    0xff, 0xff, // code -1
];

const OFFSET_COMMIT_REQUEST: &[u8] = &[
    0, 1, b'g', // group
    0xff, 0xff, 0xff, 0xff, // generation -1
    0, 0, // member
    0xff, 0xff, 0xff, 0xff, 0xff, 0xff, 0xff, 0xff, // retention_ms -1
    0, 0, 0, 1, // one row
    0, 1, b't', // name
    0, 0, 0, 2, // two rows
    0, 0, 0, 0, // partition
    0, 0, 0, 0, 0, 0, 1, 0, // offset
    0xff, 0xff, // metadata null
    0, 0, 0, 1, // partition
    0, 0, 0, 0, 0, 0, 0, 0, // offset
    0, 0, // metadata empty
];

const OFFSET_COMMIT_RESPONSE: &[u8] = &[
    0, 0, 0, 1, // one row
    0, 1, b't', // name
    0, 0, 0, 1, // one row
    0, 0, 0, 1, // partition
    0, 22, // code
];

const OFFSET_FETCH_REQUEST: &[u8] = &[
    0, 1, b'g', // group
    0, 0, 0, 1, // one row
    0, 1, b't', // name
    0, 0, 0, 2, // two partitions
    0, 0, 0, 0, // partition
    0, 0, 0, 1, // partition
];

const OFFSET_FETCH_RESPONSE: &[u8] = &[
    0, 0, 0, 1, // one row
    0, 1, b't', // name
    0, 0, 0, 1, // one row
    0, 0, 0, 1, // partition
    0xff, 0xff, 0xff, 0xff, 0xff, 0xff, 0xff, 0xff, // offset -1
    0, 0, // metadata empty
    0, 0, // code
];

const SUBSCRIPTION: &[u8] = &[
    0, 0, // version
    0, 0, 0, 1, // one topic
    0, 1, 0x61, // topic
    0xff, 0xff, 0xff, 0xff, // user null
];

const ASSIGNMENT: &[u8] = &[
    0, 0, // version
    0, 0, 0, 1, // one row
    0, 1, b't', // topic
    0, 0, 0, 2, // two partitions
    0, 0, 0, 0, // partition
    0, 0, 0, 3, // partition
    0, 0, 0, 1, 9, // user
];

const NEWER_SUBSCRIPTION: &[u8] = &[
    0, 1, // version
    0, 0, 0, 1, // one topic
    0, 1, 0x61, // topic
    0xff, 0xff, 0xff, 0xff, // user null
    0, // a further byte
];

// Each message of a group with a vector.
const VECTORS: [(Message, &[u8]); 16] = [
    (Message::FindCoordinatorRequest, FIND_COORDINATOR_REQUEST),
    (Message::FindCoordinatorResponse, FIND_COORDINATOR_RESPONSE),
    (Message::JoinGroupRequest, JOIN_GROUP_REQUEST),
    (Message::JoinGroupResponse, JOIN_GROUP_RESPONSE),
    (Message::SyncGroupRequest, SYNC_GROUP_REQUEST),
    (Message::SyncGroupResponse, SYNC_GROUP_RESPONSE),
    (Message::HeartbeatRequest, HEARTBEAT_REQUEST),
    (Message::HeartbeatResponse, HEARTBEAT_RESPONSE),
    (Message::LeaveGroupRequest, LEAVE_GROUP_REQUEST),
    (Message::LeaveGroupResponse, LEAVE_GROUP_RESPONSE),
    (Message::OffsetCommitRequest, OFFSET_COMMIT_REQUEST),
    (Message::OffsetCommitResponse, OFFSET_COMMIT_RESPONSE),
    (Message::OffsetFetchRequest, OFFSET_FETCH_REQUEST),
    (Message::OffsetFetchResponse, OFFSET_FETCH_RESPONSE),
    (Message::Subscription, SUBSCRIPTION),
    (Message::Assignment, ASSIGNMENT),
];

#[test]
fn messages_of_a_group_go_both_ways(rt: HostRuntime) -> Result<(), Fail> {
    both_ways(&rt, rt.alloc(), &VECTORS)
}

// What reads in another version than it is written in, and what doesn't read.
const VERSIONS: [(Message, &[u8], Told); 3] = [
    (Message::Subscription, NEWER_SUBSCRIPTION, Told::Another),
    (
        Message::Subscription,
        &[0x80, 0],
        Told::No(WireNo::Prim(PrimNo::Negative)),
    ),
    (
        Message::Assignment,
        &[0xff, 0xff],
        Told::No(WireNo::Prim(PrimNo::Negative)),
    ),
];

#[test]
fn a_version_below_0_does_not_read(rt: HostRuntime) {
    told_so(&rt, rt.alloc(), &VERSIONS);
}

#[test]
fn a_heartbeat_has_its_fields(rt: HostRuntime) -> Result<(), Fail> {
    let message = HeartbeatRequest::read(rt.alloc(), HEARTBEAT_REQUEST)?;
    assert_eq!(rt; message.group.as_str(), "g");
    assert_eq!(rt; message.generation, 2);
    assert_eq!(rt; message.member.as_str(), "member-1");
    Ok(())
}

#[test]
fn a_higher_version_is_read_as_version_0(rt: HostRuntime) -> Result<(), Fail> {
    let read = Subscription::read(rt.alloc(), NEWER_SUBSCRIPTION)?;
    assert_eq!(rt; read.version, 0);
    assert_eq!(rt; read.topic.len(), 1);
    Ok(())
}

#[test]
fn another_version_is_not_written(rt: HostRuntime) {
    let newer = Subscription {
        version: 1,
        topic: Items::new(rt.alloc()),
        user: None,
    };
    assert!(rt; newer.write(rt.alloc()).err() == Some(Want));
}

// Bytes of a Subscription or an Assignment that don't read, why, and the place of the item that doesn't.
const UNREADABLE: [(&[u8], WireNo, usize); 5] = [
    // a version that is cut
    (&[0], WireNo::Prim(PrimNo::Short), 0),
    // a version below 0
    (&[0xff, 0xff, 1], WireNo::Prim(PrimNo::Negative), 0),
    // a count that is cut
    (&[0, 0, 0, 0], WireNo::Prim(PrimNo::Short), 2),
    // BYTES past the end
    (
        &[0, 1, 0, 0, 0, 0, 0, 0, 0, 9],
        WireNo::Prim(PrimNo::Short),
        6,
    ),
    // a byte left over
    (
        &[0, 0, 0, 0, 0, 0, 0xff, 0xff, 0xff, 0xff, 7],
        WireNo::Rest(1),
        10,
    ),
];

fn stop_there(rt: &impl Abort, refusal: Option<Refusal>, cause: WireNo, place: usize) {
    match refusal {
        Some(refusal) => {
            assert!(rt; refusal.cause == cause);
            assert_eq!(rt; refusal.place, place);
        }
        None => assert!(rt; false, "read"),
    }
}

fn subscriptions_stop(rt: &impl Abort, alloc: Global, cases: &[(&[u8], WireNo, usize)]) {
    for (bytes, cause, place) in cases {
        stop_there(
            rt,
            Subscription::read_placed(alloc, bytes).err(),
            *cause,
            *place,
        );
    }
}

fn assignments_stop(rt: &impl Abort, alloc: Global, cases: &[(&[u8], WireNo, usize)]) {
    for (bytes, cause, place) in cases {
        stop_there(
            rt,
            Assignment::read_placed(alloc, bytes).err(),
            *cause,
            *place,
        );
    }
}

#[test]
fn a_refusal_of_a_subscription_has_its_place(rt: HostRuntime) {
    subscriptions_stop(&rt, rt.alloc(), &UNREADABLE);
}

#[test]
fn a_refusal_of_an_assignment_has_its_place(rt: HostRuntime) {
    assignments_stop(&rt, rt.alloc(), &UNREADABLE);
}
