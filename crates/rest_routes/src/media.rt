ghost use Rattle.std.specs.Prelude.{◌≡◌, ◌<◌, IfSome, length, true};
ghost use Rattle.std.specs.List.{before_first, list_any, position, slice_split};
ghost use Rattle.http_head.specs.Member.{is_comma};
ghost use Rattle.rest_routes.specs.Media.{accepted_by, accepted_formats, accepts, format_in, format_named, has_one, has_records, holds_general, is_acceptable, is_described, is_general, is_in, is_semicolon, is_supported, is_wildcard, names};

use crate::place::{Ask, PartitionAsk, Place, TopicAsk};
use forms::Format;
use gate_io::Items;
use http_conn::Request;
use http_head::{first_member, is_word};

fn semicolon_in(member: &[u8]) -> Option<usize>
    ensures place { result ≡ position is_semicolon member.now }
    ensures within { IfSome result (λ i. i < length member.now) }
{
    member.iter().position(|b| *b == b';')
}

/// The type that a member names, before its parameters.
fn type_in(member: &[u8]) -> &[u8]
    ensures { result.now ≡ before_first is_semicolon member.now }
{
    match semicolon_in(member) {
        Some(place) => &member[..place],
        None => member,
    }
}

/// A member names the type. One that is written just as the type is told at once.
fn names(name: &[u8], member: &[u8]) -> bool
    requires { names name.now name.now ≡ true }
    ensures { result ≡ names name.now member.now }
{
    member == name || is_word(name, type_in(member))
}

#[tactic(auto, unfolding(crate::specs::Media::is_general))]
fn is_general(member: &[u8]) -> bool
    ensures { result ≡ is_general member.now }
{
    names(b"application/vnd.kafka.v2+json", member)
        || names(b"application/vnd.kafka+json", member)
        || names(b"application/json", member)
}

#[tactic(auto, unfolding(crate::specs::Media::is_wildcard))]
fn is_wildcard(member: &[u8]) -> bool
    ensures { result ≡ is_wildcard member.now }
{
    names(b"*/*", member) || names(b"application/*", member)
}

/// What the type of a body or a reply may be: that of records in one of the embedded formats, or
/// `Any`, which stands for no format.
#[derive(Clone, Copy, Debug, PartialEq, Eq)]
pub(crate) enum Kind {
    Any,
    Binary,
    Json,
    Avro,
}

/// The formats of records that a reply may have: those that the request's Accept names, or every
/// one where it names none.
#[derive(Clone, Copy, Debug, PartialEq, Eq)]
pub struct Accepted {
    pub binary: bool,
    pub json: bool,
    pub avro: bool,
}

#[tactic(auto, unfolding(crate::specs::Media::is_in))]
fn is_in(kind: Kind, member: &[u8]) -> bool
    ensures { result ≡ is_in kind member.now }
{
    match kind {
        Kind::Any => is_general(member) || is_wildcard(member),
        Kind::Binary => names(b"application/vnd.kafka.binary.v2+json", member),
        Kind::Json => names(b"application/vnd.kafka.json.v2+json", member),
        Kind::Avro => names(b"application/vnd.kafka.avro.v2+json", member),
    }
}

/// One of the members of Accept is of this kind.
fn has_one(kind: Kind, value: &[u8]) -> bool
    ensures { result ≡ has_one kind value.now }
{
    let mut rest = value;
    while let Some((member, behind)) = first_member(rest) {
        if is_in(kind, member) {
            return true;
        }
        rest = behind;
    }
    is_in(kind, rest)
}

fn has_records(value: &[u8]) -> bool
    ensures { result ≡ has_records value.now }
{
    has_one(Kind::Binary, value) || has_one(Kind::Json, value) || has_one(Kind::Avro, value)
}

/// One of the members of Accept is a type that the reply can have.
fn accepts(records: bool, accept: &Option<Items<u8>>) -> bool
    ensures { result ≡ accepts records accept.now }
{
    match accept {
        Some(value) => {
            has_one(Kind::Any, value.as_slice()) || (records && has_records(value.as_slice()))
        }
        None => true,
    }
}

fn accepted_by(value: &[u8]) -> Accepted
    ensures { result ≡ accepted_by value.now }
{
    if has_one(Kind::Any, value) {
        return Accepted {
            binary: false,
            json: false,
            avro: false,
        };
    }
    Accepted {
        binary: has_one(Kind::Binary, value),
        json: has_one(Kind::Json, value),
        avro: has_one(Kind::Avro, value),
    }
}

/// The formats that an Accept names.
pub fn accepted_formats(accept: &Option<Items<u8>>) -> Accepted
    ensures { result ≡ accepted_formats accept.now }
{
    match accept {
        Some(value) => accepted_by(value.as_slice()),
        None => Accepted {
            binary: false,
            json: false,
            avro: false,
        },
    }
}

/// The reply of the place is of a type that the request accepts.
pub fn is_acceptable(place: &Place, request: &Request) -> bool
    ensures { result ≡ is_acceptable place.now request.now.accept }
{
    match place {
        Place::Instance(_, _, Ask::Records) => accepts(true, &request.accept),
        _ => accepts(false, &request.accept),
    }
}

fn format_named(name: &[u8]) -> Option<Format>
    ensures { result ≡ format_named name.now }
{
    if is_in(Kind::Binary, name) {
        return Some(Format::Binary);
    }
    if is_in(Kind::Json, name) {
        return Some(Format::Json);
    }
    None
}

/// The format of a body's records by its type.
pub fn format_in(content_type: &Option<Items<u8>>) -> Option<Format>
    ensures { result ≡ format_in content_type.now }
{
    match content_type {
        Some(name) => format_named(name.as_slice()),
        None => None,
    }
}

fn holds_general(content_type: &Option<Items<u8>>) -> bool
    ensures { result ≡ holds_general content_type.now }
{
    match content_type {
        Some(name) => is_general(name.as_slice()),
        None => true,
    }
}

fn is_described(body: &[u8], content_type: &Option<Items<u8>>) -> bool
    ensures { result ≡ is_described body.now content_type.now }
{
    body.is_empty() || holds_general(content_type)
}

/// The place reads a body of the type that the request names, and in no encoding.
pub fn is_supported(place: &Place, request: &Request) -> bool
    ensures { result ≡ is_supported place.now request.now }
{
    match place {
        Place::Topic(_, TopicAsk::Produce) | Place::Partition(_, _, PartitionAsk::Produce) => {
            !request.encoded && format_in(&request.content_type).is_some()
        }
        Place::Group(_)
        | Place::Instance(_, _, Ask::Assign | Ask::Seek | Ask::SeekBeginning | Ask::SeekEnd) => {
            !request.encoded && is_described(request.body.as_slice(), &request.content_type)
        }
        _ => true,
    }
}
