use crate::{Media, Reply, message, refusal, response_bytes, want_response};
use gate_io::Text;
use std::test::Fail;

/// Written out by hand from RFC 9112, section 4, and the table of error codes.
const NOT_FOUND: &[u8] =
    b"HTTP/1.1 404 Not Found\r\nContent-Type: application/vnd.kafka.v2+json\r\nContent-Length: 49\r\n\r\n{\"error_code\":40401,\"message\":\"Topic not found.\"}";

const WANT_CLOSING: &[u8] =
    b"HTTP/1.1 503 Service Unavailable\r\nContent-Type: application/vnd.kafka.v2+json\r\nContent-Length: 47\r\nConnection: close\r\n\r\n{\"error_code\":50390,\"message\":\"Out of memory.\"}";

const SHOWN: &[u8] =
    b"HTTP/1.1 200 OK\r\nContent-Type: application/vnd.kafka.json.v2+json\r\nContent-Length: 2\r\nConnection: close\r\n\r\n[]";

/// The message of a path without the method, with the methods of its places: RFC 9110, section
/// 10.2.1, and the routes of the REST proxy.
const TOPIC_LACKS: &[u8] =
    b"HTTP/1.1 405 Method Not Allowed\r\nContent-Type: application/vnd.kafka.v2+json\r\nContent-Length: 50\r\nAllow: GET, POST\r\n\r\n{\"error_code\":405,\"message\":\"Method not allowed.\"}";

const SUBSCRIPTION_LACKS: &[u8] =
    b"HTTP/1.1 405 Method Not Allowed\r\nContent-Type: application/vnd.kafka.v2+json\r\nContent-Length: 50\r\nAllow: DELETE, GET, POST\r\nConnection: close\r\n\r\n{\"error_code\":405,\"message\":\"Method not allowed.\"}";

const NO_CONTENT: &[u8] = b"HTTP/1.1 204 No Content\r\n\r\n";

#[test]
fn a_refusal_has_the_status_of_its_first_three_digits(rt: HostRuntime) -> Result<(), Fail> {
    let reply = refusal(rt.alloc(), 40401)?;
    let bytes = response_bytes(rt.alloc(), &reply, false)?;
    assert_eq!(rt; bytes.as_slice(), NOT_FOUND);
    Ok(())
}

#[test]
fn a_body_keeps_its_media_type_and_closes(rt: HostRuntime) -> Result<(), Fail> {
    let reply = Reply::Body {
        media: Media::Json,
        text: Text::from_str(rt.alloc(), "[]")?,
    };
    let bytes = response_bytes(rt.alloc(), &reply, true)?;
    assert_eq!(rt; bytes.as_slice(), SHOWN);
    Ok(())
}

#[test]
fn an_empty_reply_has_no_fields(rt: HostRuntime) -> Result<(), Fail> {
    let bytes = response_bytes(rt.alloc(), &Reply::Empty, false)?;
    assert_eq!(rt; bytes.as_slice(), NO_CONTENT);
    Ok(())
}

#[test]
fn a_path_without_the_method_lists_its_methods(rt: HostRuntime) -> Result<(), Fail> {
    let bytes = response_bytes(rt.alloc(), &Reply::NoMethod { allow: 3 }, false)?;
    assert_eq!(rt; bytes.as_slice(), TOPIC_LACKS);
    let bytes = response_bytes(rt.alloc(), &Reply::NoMethod { allow: 13 }, true)?;
    assert_eq!(rt; bytes.as_slice(), SUBSCRIPTION_LACKS);
    Ok(())
}

#[test]
fn want_of_memory_is_answered_without_memory(rt: HostRuntime) -> Result<(), Fail> {
    assert_eq!(rt; want_response(true), WANT_CLOSING);
    let bytes = response_bytes(rt.alloc(), &Reply::Want, true)?;
    assert_eq!(rt; bytes.as_slice(), WANT_CLOSING);
    assert_eq!(rt; message(50390), "Out of memory.");
    Ok(())
}
