//! The messages about records, topics and versions, and the headers: vectors made by hand from the Kafka protocol guide's
//! tables, one field a line.
use crate::told::{Message, Told, both_ways, cut, same, told_so};
use std::alloc::Global;
use std::process::Abort;
use std::test::Fail;
use wire_data::{
    MetadataRequest, MetadataResponse, RequestHeader, ResponseHeader, WireNo,
    responses_tell_themselves,
};
use wire_layout::{length_of, read_whole_placed, write_frame};
use wire_prim::PrimNo;

const PRODUCE_REQUEST: &[u8] = &[
    0xff, 0xff, // transactional_id null
    0xff, 0xff, // acks -1
    0, 0, 0x75, 0x30, // timeout_ms
    0, 0, 0, 1, // one row
    0, 1, b't', // name
    0, 0, 0, 2, // two rows
    0, 0, 0, 0, // partition
    0, 0, 0, 3, 1, 2, 3, // batch
    0, 0, 0, 1, // partition
    0xff, 0xff, 0xff, 0xff, // batch null
];

const PRODUCE_RESPONSE: &[u8] = &[
    0, 0, 0, 1, // one row
    0, 1, b't', // name
    0, 0, 0, 1, // one row
    0, 0, 0, 1, // partition
    0, 3, // code
    0xff, 0xff, 0xff, 0xff, 0xff, 0xff, 0xff, 0xff, // base_offset -1
    0, 0, 0, 0, 0, 0, 0, 9, // append_time
    0, 0, 0, 5, // throttle_ms
];

const FETCH_REQUEST: &[u8] = &[
    0xff, 0xff, 0xff, 0xff, // replica -1
    0, 0, 0, 0, // max_wait_ms
    0, 0, 0, 1, // min_bytes
    0, 1, 0, 0, // max_bytes
    0, // isolation
    0, 0, 0, 1, // one row
    0, 1, b't', // name
    0, 0, 0, 1, // one row
    0, 0, 0, 2, // partition
    0, 0, 0, 0, 0, 0, 0, 7, // offset
    0, 1, 0, 0, // max_bytes
];

const FETCH_RESPONSE: &[u8] = &[
    0, 0, 0, 0, // throttle_ms
    0, 0, 0, 1, // one row
    0, 1, b't', // name
    0, 0, 0, 2, // two rows
    0, 0, 0, 0, // partition
    0, 0, // code
    0, 0, 0, 0, 0, 0, 0, 8, // high_watermark
    0, 0, 0, 0, 0, 0, 0, 8, // stable_offset
    0xff, 0xff, 0xff, 0xff, // rows null
    0, 0, 0, 2, 4, 5, // batches
    0, 0, 0, 1, // partition
    0, 1, // code
    0xff, 0xff, 0xff, 0xff, 0xff, 0xff, 0xff, 0xff, // high_watermark -1
    0xff, 0xff, 0xff, 0xff, 0xff, 0xff, 0xff, 0xff, // stable_offset -1
    0, 0, 0, 1, // one row
    0, 0, 0, 0, 0, 0, 0, 3, // producer
    0, 0, 0, 0, 0, 0, 0, 4, // first
    0xff, 0xff, 0xff, 0xff, // batches null
];

const LIST_OFFSETS_REQUEST: &[u8] = &[
    0xff, 0xff, 0xff, 0xff, // replica -1
    0, 0, 0, 1, // one row
    0, 1, b't', // name
    0, 0, 0, 1, // one row
    0, 0, 0, 2, // partition
    0xff, 0xff, 0xff, 0xff, 0xff, 0xff, 0xff, 0xfe, // timestamp -2
];

const LIST_OFFSETS_RESPONSE: &[u8] = &[
    0, 0, 0, 1, // one row
    0, 1, b't', // name
    0, 0, 0, 1, // one row
    0, 0, 0, 2, // partition
    0, 0, // code
    0xff, 0xff, 0xff, 0xff, 0xff, 0xff, 0xff, 0xff, // timestamp -1
    0, 0, 0, 0, 0, 0, 0, 6, // offset
];

const METADATA_REQUEST: &[u8] = &[
    0, 0, 0, 1, // one topic
    0, 6, 0x6f, 0x72, 0x64, 0x65, 0x72, 0x73, // name
];

const ALL_TOPICS: &[u8] = &[
    0xff, 0xff, 0xff, 0xff, // name null
];

const METADATA_RESPONSE: &[u8] = &[
    0, 0, 0, 1, // one row
    0, 0, 0, 1, // node
    0, 4, b'h', b'o', b's', b't', // host
    0, 0, 0x23, 0x84, // port
    0xff, 0xff, // rack null
    0, 0, 0, 1, // controller
    0, 0, 0, 2, // two rows
    0, 0, // code
    0, 1, b't', // name
    1, // internal
    0, 0, 0, 1, // one row
    0, 9, // code
    0, 0, 0, 0, // partition
    0, 0, 0, 1, // leader
    0, 0, 0, 2, // two replicas
    0, 0, 0, 1, // replica
    0, 0, 0, 2, // replica
    0, 0, 0, 1, // one in sync
    0, 0, 0, 1, // in_sync
    0, 3, // code
    0, 1, b'u', // name
    0, // internal
    0, 0, 0, 0, // no row
];

const NO_BROKER: &[u8] = &[
    0, 0, 0, 0, // no row
    0, 0, 0, 1, // controller
    0, 0, 0, 1, // one row
    0, 0, // code
    0, 0, // name
    0x80, // internal
    0, 0, 0, 0, // no row
];

const API_VERSIONS_RESPONSE: &[u8] = &[
    0, 35, // code
    0, 0, 0, 2, // two rows
    0, 3, // key
    0, 0, // min
    0, 1, // max
    0, 18, // key
    0, 0, // min
    0, 0, // max
];

// The header of a metadata request, and one byte of its body.
const REQUEST_HEADER: &[u8] = &[
    0, 3, // key
    0, 1, // version
    0, 0, 0, 7, // correlation
    0, 8, 0x72, 0x65, 0x73, 0x74, 0x67, 0x61, 0x74, 0x65, // client
    0, // of the body
];

// A metadata request for the topic `orders`.
const FRAME: &[u8] = &[
    0, 0, 0, 0x1e, // size
    0, 3, // key
    0, 1, // version
    0, 0, 0, 7, // correlation
    0, 8, 0x72, 0x65, 0x73, 0x74, 0x67, 0x61, 0x74, 0x65, // client
    0, 0, 0, 1, // one topic
    0, 6, 0x6f, 0x72, 0x64, 0x65, 0x72, 0x73, // name
];

// Each message with a vector, but for the empty body.
const VECTORS: [(Message, &[u8]); 9] = [
    (Message::ProduceRequest, PRODUCE_REQUEST),
    (Message::ProduceResponse, PRODUCE_RESPONSE),
    (Message::FetchRequest, FETCH_REQUEST),
    (Message::FetchResponse, FETCH_RESPONSE),
    (Message::ListOffsetsRequest, LIST_OFFSETS_REQUEST),
    (Message::ListOffsetsResponse, LIST_OFFSETS_RESPONSE),
    (Message::MetadataRequest, METADATA_REQUEST),
    (Message::MetadataResponse, METADATA_RESPONSE),
    (Message::ApiVersionsResponse, API_VERSIONS_RESPONSE),
];

#[test]
fn messages_go_both_ways(rt: HostRuntime) -> Result<(), Fail> {
    both_ways(&rt, rt.alloc(), &VECTORS)
}

// Bodies of other forms.
const FORMS: [(Message, &[u8], Told); 4] = [
    // no list of topics is no empty list
    (Message::MetadataRequest, ALL_TOPICS, Told::Same),
    // a flag is written as 1
    (Message::MetadataResponse, NO_BROKER, Told::Another),
    // an empty body
    (Message::ApiVersionsRequest, &[], Told::Same),
    (Message::ApiVersionsRequest, &[0], Told::No(WireNo::Rest(1))),
];

#[test]
fn bodies_of_other_forms_are_read(rt: HostRuntime) {
    told_so(&rt, rt.alloc(), &FORMS);
}

#[test]
fn any_byte_but_0_is_true(rt: HostRuntime) -> Result<(), Fail> {
    responses_tell_themselves();
    let message = MetadataResponse::read(rt.alloc(), NO_BROKER)?;
    let topic = message.rows2.get(0).ok_or("a topic")?;
    assert!(rt; topic.internal);
    Ok(())
}

#[test]
fn no_list_of_topics_is_null(rt: HostRuntime) -> Result<(), Fail> {
    let all = MetadataRequest::read(rt.alloc(), ALL_TOPICS)?;
    assert!(rt; all.name.is_none());
    Ok(())
}

#[test]
fn a_request_header_is_read_from_the_front(rt: HostRuntime) -> Result<(), Fail> {
    let (header, size) = RequestHeader::read(rt.alloc(), REQUEST_HEADER)?;
    assert_eq!(rt; size, 18);
    assert_eq!(rt; header.key, 3);
    assert_eq!(rt; header.version, 1);
    assert_eq!(rt; header.correlation, 7);
    same(
        &rt,
        header.write(rt.alloc())?.as_slice(),
        cut(REQUEST_HEADER),
    );
    let short = RequestHeader::read(rt.alloc(), cut(cut(REQUEST_HEADER))).err();
    assert!(rt; short == Some(WireNo::Prim(PrimNo::Short)));
    Ok(())
}

#[test]
fn a_response_header_is_read_from_the_front(rt: HostRuntime) -> Result<(), Fail> {
    let (header, size) = ResponseHeader::read(rt.alloc(), &[0, 0, 0, 1, 0, 0x1b])?;
    assert_eq!(rt; size, 4);
    assert_eq!(rt; header.correlation, 1);
    same(&rt, header.write(rt.alloc())?.as_slice(), &[0, 0, 0, 1]);
    Ok(())
}

#[test]
fn a_frame_is_written_in_one_piece(rt: HostRuntime) -> Result<(), Fail> {
    let (header, _) = RequestHeader::read(rt.alloc(), REQUEST_HEADER)?;
    let body = MetadataRequest::read(rt.alloc(), METADATA_REQUEST)?;
    let frame = write_frame(rt.alloc(), &header, &body)?;
    same(&rt, frame.as_slice(), FRAME);
    Ok(())
}

// Bodies of a metadata request that don't read, why, and the place of the item that doesn't.
const UNREADABLE: [(&[u8], WireNo, usize); 5] = [
    // a count that is cut
    (&[0, 0, 0], WireNo::Prim(PrimNo::Short), 0),
    // a count below that of null
    (&[0xff, 0xff, 0xff, 0xfe], WireNo::Prim(PrimNo::Negative), 0),
    // a name past the end
    (&[0, 0, 0, 1, 0, 3, b'a'], WireNo::Prim(PrimNo::Short), 4),
    // a second name that isn't UTF-8
    (
        &[0, 0, 0, 2, 0, 1, b'a', 0, 1, 0xff],
        WireNo::Prim(PrimNo::BadUtf8),
        7,
    ),
    // a byte left over
    (&[0, 0, 0, 0, 9], WireNo::Rest(1), 4),
];

fn stop_there(rt: &impl Abort, alloc: Global, cases: &[(&[u8], WireNo, usize)]) {
    for (bytes, cause, place) in cases {
        match read_whole_placed::<MetadataRequest>(alloc, bytes) {
            Ok(_) => assert!(rt; false, "read"),
            Err(refusal) => {
                assert!(rt; refusal.cause == *cause);
                assert_eq!(rt; refusal.place, *place);
            }
        }
    }
}

#[test]
fn a_refusal_stands_at_the_item_that_does_not_read(rt: HostRuntime) -> Result<(), Fail> {
    stop_there(&rt, rt.alloc(), &UNREADABLE);
    Ok(())
}

#[test]
fn a_header_has_so_many_bytes(rt: HostRuntime) -> Result<(), Fail> {
    let (header, size) = RequestHeader::read(rt.alloc(), REQUEST_HEADER)?;
    assert_eq!(rt; length_of(rt.alloc(), &header)?, size);
    Ok(())
}
