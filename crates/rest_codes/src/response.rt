ghost use Rattle.std.specs.Prelude.{◌≡◌, ◌<◌, ◌/◌, ◌++◌, IfOk, OnOk, codes, string_bytes, length, true, false};
ghost use Rattle.json.specs.Print.{quoted};

use crate::methods::methods;
use gate_io::{Text, Want};
use itoa::Buffer;
use serde_json::Value;
use std::alloc::{AllocError, Global};

/// Room for the status line and the fields of a response.
const HEAD_ROOM: usize = 192;

/// The media types that a response names.
#[derive(Clone, Copy, Debug, PartialEq, Eq)]
pub enum Media {
    Plain,
    Binary,
    Json,
    Avro,
}

impl Media {
    ghost use Rattle.rest_codes.specs.Response.{media_name};

    pub fn name(self) -> &'static str
        ensures { result.now ≡ media_name self }
    {
        match self {
            Media::Plain => "application/vnd.kafka.v2+json",
            Media::Binary => "application/vnd.kafka.binary.v2+json",
            Media::Json => "application/vnd.kafka.json.v2+json",
            Media::Avro => "application/vnd.kafka.avro.v2+json",
        }
    }
}

/// What a request is answered. `NoMethod` is the 405 of a path that hasn't the method; `allow` is the
/// number of one of the path's places in the table of the HTTP reference, 1 to 21.
#[derive(Debug, Drop)]
pub enum Reply {
    Empty,
    Body { media: Media, text: Text },
    Error { code: u32, text: Text },
    NoMethod { allow: u8 },
    Want,
}

ghost use Rattle.rest_codes.specs.Response.{reason_of, closing, head_of, with_body, with_methods, error_text, status_of, response_of, media_name, want_text};
ghost use Rattle.rest_codes.specs.Methods.{methods_of, allowing, no_method_text};
ghost use Rattle.rest_codes.specs.declared.response.Reply.TheVariants.{Want as WantReply, Empty as EmptyReply, NoMethod as NoMethodReply};
ghost use Rattle.rest_codes.specs.declared.response.Media.TheVariants.{Plain as PlainMedia};

#[tactic(auto, unfolding(crate::specs::Response::reason_of))]
fn reason(status: u32) -> &'static str
    ensures { result.now ≡ reason_of status }
{
    match status {
        200 => "OK",
        204 => "No Content",
        400 => "Bad Request",
        404 => "Not Found",
        405 => "Method Not Allowed",
        406 => "Not Acceptable",
        409 => "Conflict",
        413 => "Payload Too Large",
        415 => "Unsupported Media Type",
        422 => "Unprocessable Entity",
        431 => "Request Header Fields Too Large",
        503 => "Service Unavailable",
        _ => "Internal Server Error",
    }
}

fn closing_field(close: bool) -> &'static str
    ensures { result.now ≡ closing close }
{
    if close { "Connection: close\r\n" } else { "" }
}

/// Appends the status line and the fields on a body.
#[tactic(auto, unfolding(crate::specs::Response::head_of))]
fn put_head(out: &mut Vec<u8>, status: u32, media: &str, size: usize) -> Result<(), AllocError>
    ensures { OnOk result (out.new.items ≡ out.old.items ++ head_of status media.now size) }
{
    let mut digits = Buffer::new();
    out.extend_from_slice(b"HTTP/1.1 ")?;
    out.extend_from_slice(digits.format(status).as_bytes())?;
    out.extend_from_slice(b" ")?;
    out.extend_from_slice(reason(status).as_bytes())?;
    out.extend_from_slice(b"\r\nContent-Type: ")?;
    out.extend_from_slice(media.as_bytes())?;
    out.extend_from_slice(b"\r\nContent-Length: ")?;
    out.extend_from_slice(digits.format(size).as_bytes())?;
    out.extend_from_slice(b"\r\n")?;
    Ok(())
}

/// A response with a body, in one buffer whose size is known first.
#[tactic(auto, unfolding(crate::specs::Response::with_body))]
fn framed(
    alloc: Global,
    status: u32,
    media: &str,
    body: &str,
    close: bool,
) -> Result<Vec<u8>, AllocError>
    ensures { IfOk result (λ out. out.items ≡ with_body status media.now body.now close) }
{
    let mut out = Vec::with_capacity(alloc, HEAD_ROOM + body.len())?;
    put_head(&mut out, status, media, body.len())?;
    out.extend_from_slice(closing_field(close).as_bytes())?;
    out.extend_from_slice(b"\r\n")?;
    out.extend_from_slice(body.as_bytes())?;
    Ok(out)
}

/// A response without a body.
fn empty(alloc: Global, close: bool) -> Result<Vec<u8>, AllocError>
    ensures { IfOk result (λ out. out.items ≡ response_of EmptyReply close) }
{
    let mut out = Vec::with_capacity(alloc, HEAD_ROOM)?;
    out.extend_from_slice(b"HTTP/1.1 204 No Content\r\n")?;
    out.extend_from_slice(closing_field(close).as_bytes())?;
    out.extend_from_slice(b"\r\n")?;
    Ok(out)
}

/// The text as a JSON string, in quotes and with escapes (RFC 8259, section 7).
pub fn quoted_text(alloc: Global, text: &str) -> Result<String, AllocError>
    ensures { IfOk result (λ s. string_bytes s ≡ quoted text.now) }
{
    let value = Value::try_from_str(alloc, text)?;
    value.to_string(alloc)
}

#[tactic(auto, unfolding(crate::specs::Response::error_text))]
fn error_body(alloc: Global, code: u32, message: &str) -> Result<String, AllocError>
    ensures { IfOk result (λ s. string_bytes s ≡ error_text code message.now) }
{
    let text = quoted_text(alloc, message)?;
    let quoted = text.as_str();
    format!(in alloc; "{{\"error_code\":{code},\"message\":{quoted}}}")
}

fn status(code: u32) -> u32
    ensures { result ≡ status_of code }
{
    if code < 1000 { code } else { code / 100 }
}

fn error(alloc: Global, code: u32, message: &str, close: bool) -> Result<Vec<u8>, AllocError>
    ensures { IfOk result (λ out. out.items ≡ with_body (status_of code) (media_name PlainMedia) (error_text code message.now) close) }
{
    let body = error_body(alloc, code, message)?;
    framed(
        alloc,
        status(code),
        Media::Plain.name(),
        body.as_str(),
        close,
    )
}

/// Appends the methods of a path.
fn put_allow(out: &mut Vec<u8>, allow: u8) -> Result<(), AllocError>
    ensures { OnOk result (out.new.items ≡ out.old.items ++ allowing allow) }
{
    out.extend_from_slice(b"Allow: ")?;
    out.extend_from_slice(methods(allow).as_bytes())?;
    out.extend_from_slice(b"\r\n")?;
    Ok(())
}

/// A response of 405 with a body, which lists the methods of the path.
#[tactic(auto, unfolding(crate::specs::Response::with_methods))]
fn listing(
    alloc: Global,
    allow: u8,
    media: &str,
    body: &str,
    close: bool,
) -> Result<Vec<u8>, AllocError>
    ensures { IfOk result (λ out. out.items ≡ with_methods allow media.now body.now close) }
{
    let mut out = Vec::with_capacity(alloc, HEAD_ROOM + body.len())?;
    put_head(&mut out, 405, media, body.len())?;
    put_allow(&mut out, allow)?;
    out.extend_from_slice(closing_field(close).as_bytes())?;
    out.extend_from_slice(b"\r\n")?;
    out.extend_from_slice(body.as_bytes())?;
    Ok(out)
}

fn no_method_body() -> &'static str
    ensures { result.now ≡ no_method_text }
{
    "{\"error_code\":405,\"message\":\"Method not allowed.\"}"
}

fn no_method(alloc: Global, allow: u8, close: bool) -> Result<Vec<u8>, AllocError>
    ensures { IfOk result (λ out. out.items ≡ response_of (NoMethodReply allow) close) }
{
    listing(alloc, allow, Media::Plain.name(), no_method_body(), close)
}

fn bytes_of(alloc: Global, reply: &Reply, close: bool) -> Result<Vec<u8>, AllocError>
    ensures { IfOk result (λ out. out.items ≡ response_of reply.now close) }
{
    match reply {
        Reply::Empty => empty(alloc, close),
        Reply::Body { media, text } => framed(alloc, 200, media.name(), text.as_str(), close),
        Reply::Error { code, text } => error(alloc, *code, text.as_str(), close),
        Reply::NoMethod { allow } => no_method(alloc, *allow, close),
        Reply::Want => Vec::from_slice(alloc, want_response(close)),
    }
}

/// The bytes of the response. They close the connection where `close` says so.
pub fn response_bytes(alloc: Global, reply: &Reply, close: bool) -> Result<Vec<u8>, Want>
    ensures { IfOk result (λ bytes. bytes.items ≡ response_of reply.now close) }
{
    match bytes_of(alloc, reply, close) {
        Ok(bytes) => Ok(bytes),
        Err(AllocError) => Err(Want),
    }
}

#[tactic(auto, unfolding(crate::specs::Response::with_body))]
fn want_closing() -> &'static str
    ensures { result.now ≡ response_of WantReply true }
{
    "HTTP/1.1 503 Service Unavailable\r\nContent-Type: application/vnd.kafka.v2+json\r\nContent-Length: 47\r\nConnection: close\r\n\r\n{\"error_code\":50390,\"message\":\"Out of memory.\"}"
}

#[tactic(auto, unfolding(crate::specs::Response::with_body))]
fn want_open() -> &'static str
    ensures { result.now ≡ response_of WantReply false }
{
    "HTTP/1.1 503 Service Unavailable\r\nContent-Type: application/vnd.kafka.v2+json\r\nContent-Length: 47\r\n\r\n{\"error_code\":50390,\"message\":\"Out of memory.\"}"
}

fn want_text(close: bool) -> &'static str
    ensures { result.now ≡ response_of WantReply close }
{
    if close { want_closing() } else { want_open() }
}

/// What is sent where building a response finds no memory.
pub fn want_response(close: bool) -> &'static [u8]
    ensures { result.now ≡ response_of WantReply close }
{
    want_text(close).as_bytes()
}
