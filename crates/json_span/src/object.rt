ghost use Rattle.std.specs.Prelude.{◌≡◌, ◌<◌, List, length};
ghost use Rattle.std.specs.Prelude.{get_or, IfOk, IfErr, false};
ghost use Rattle.json_span.specs.Steps.{At, AtAny, AtName, NamedTo, BehindMember};
ghost use Rattle.json_token.specs.Chars.{content, IsChars, has_backslash};
ghost use Rattle.json_span.specs.Ahead.{Frame};
ghost use Rattle.json_span.specs.Json.{Members};
ghost use Rattle.json_span.specs.Refusals.{Refuses};

use crate::source::{close, object_of, push_byte, push_bytes, push_open};
use crate::state::{MAX_LEVELS, Next, Open};
use crate::tree::{Member, Tree};
use gate_io::Text;
use json_token::{JsonNo, skip_blanks, string_end, unescape};
use std::alloc::Global;

/// The name of a member.
fn name_of(alloc: Global, chars: &[u8], escapes: bool) -> Result<Text, JsonNo>
    requires valid { IsChars chars.now }
    requires plain { escapes ≡ false → has_backslash chars.now ≡ false }
    ensures ok { IfOk result (λ t. t ≡ content chars.now) }
    ensures want { IfErr result (λ e. e ≡ JsonNo.Want) }
{
    if escapes {
        return unescape(alloc, chars);
    }
    let name = unsafe { std::str::from_utf8_unchecked(chars) };
    match Text::from_str(alloc, name) {
        Ok(name) => Ok(name),
        Err(_) => Err(JsonNo::Want),
    }
}

/// A member's name and its colon; where they end.
fn member_name(
    alloc: Global,
    bytes: &[u8],
    place: usize,
    source: &mut Vec<u8>,
) -> Result<(Text, usize), JsonNo>
    requires inside { place < length bytes.now }
    requires quote { get_or bytes.now place 0 ≡ 34 }
    ensures ok { IfOk result (λ r. NamedTo bytes.now place r.1 r.0 source.old.items source.new.items) }
    ensures err { IfErr result (λ e. (frames : List Frame) (front : Members)
        → AtName bytes.now place frames front → Refuses bytes.now e) }
{
    let (end, escapes) = match string_end(bytes, place) {
        Ok(found) => found,
        Err(e) => return Err(e),
    };
    let name = match name_of(alloc, &bytes[place + 1..end - 1], escapes) {
        Ok(name) => name,
        Err(_) => return Err(JsonNo::Want),
    };
    if let Err(e) = push_bytes(source, &bytes[place..end]) {
        return Err(e);
    }
    let at = skip_blanks(bytes, end);
    if at == bytes.len() {
        return Err(JsonNo::Cut);
    }
    if bytes[at] != 58 {
        return Err(JsonNo::BadByte(at));
    }
    match push_byte(source, 58) {
        Ok(()) => Ok((name, at + 1)),
        Err(e) => Err(e),
    }
}

/// The brace that opens an object, and its first name or its end.
pub(crate) fn begin_object(
    alloc: Global,
    bytes: &[u8],
    place: usize,
    tree: &mut Tree,
    opens: &mut Vec<Open>,
) -> Result<(Next, usize), JsonNo>
    requires inside { place < length bytes.now }
    requires brace { get_or bytes.now place 0 ≡ 123 }
    requires at { AtAny bytes.now place tree.old.nodes tree.old.source.items opens.old.items }
    ensures ok { IfOk result (λ r. At bytes.now r.0 r.1
        tree.new.nodes tree.new.source.items opens.new.items) }
    ensures further { IfOk result (λ r. place < r.1) }
    ensures err { IfErr result (Refuses bytes.now) }
{
    if opens.len() >= MAX_LEVELS {
        return Err(JsonNo::TooDeep);
    }
    let start = tree.source.len();
    if let Err(e) = push_byte(&mut tree.source, 123) {
        return Err(e);
    }
    let at = skip_blanks(bytes, place + 1);
    if at == bytes.len() {
        return Err(JsonNo::Cut);
    }
    if bytes[at] == 34 {
        return match member_name(alloc, bytes, at, &mut tree.source) {
            Ok((name, end)) => match push_open(
                opens,
                Open::InObject(start, Vec::new(alloc), name),
            ) {
                Ok(()) => Ok((Next::Value(false), end)),
                Err(e) => Err(e),
            },
            Err(e) => Err(e),
        };
    }
    if bytes[at] != 125 {
        return Err(JsonNo::BadByte(at));
    }
    match close(125, start, object_of(Vec::new(alloc)), tree) {
        Ok(node) => Ok((Next::After(node), at + 1)),
        Err(_) => Err(JsonNo::Want),
    }
}

/// What stands behind a member of an object: a comma and a name, or its end.
pub(crate) fn after_member(
    alloc: Global,
    bytes: &[u8],
    place: usize,
    start: usize,
    members: Vec<Member>,
    tree: &mut Tree,
    opens: &mut Vec<Open>,
) -> Result<(Next, usize), JsonNo>
    requires { BehindMember bytes.now place start members.items tree.old.nodes
        tree.old.source.items opens.old.items }
    ensures ok { IfOk result (λ r. At bytes.now r.0 r.1
        tree.new.nodes tree.new.source.items opens.new.items) }
    ensures further { IfOk result (λ r. place < r.1) }
    ensures err { IfErr result (Refuses bytes.now) }
{
    let at = skip_blanks(bytes, place);
    if at == bytes.len() {
        return Err(JsonNo::Cut);
    }
    if bytes[at] == 44 {
        return next_member(alloc, bytes, at, start, members, tree, opens);
    }
    if bytes[at] != 125 {
        return Err(JsonNo::BadByte(at));
    }
    match close(125, start, object_of(members), tree) {
        Ok(node) => Ok((Next::After(node), at + 1)),
        Err(_) => Err(JsonNo::Want),
    }
}

/// A comma and the name behind it.
fn next_member(
    alloc: Global,
    bytes: &[u8],
    place: usize,
    start: usize,
    members: Vec<Member>,
    tree: &mut Tree,
    opens: &mut Vec<Open>,
) -> Result<(Next, usize), JsonNo>
    requires inside { place < length bytes.now }
    requires comma { get_or bytes.now place 0 ≡ 44 }
    requires at { BehindMember bytes.now place start members.items tree.old.nodes
        tree.old.source.items opens.old.items }
    ensures ok { IfOk result (λ r. At bytes.now r.0 r.1
        tree.new.nodes tree.new.source.items opens.new.items) }
    ensures further { IfOk result (λ r. place < r.1) }
    ensures err { IfErr result (Refuses bytes.now) }
{
    if let Err(e) = push_byte(&mut tree.source, 44) {
        return Err(e);
    }
    let at = skip_blanks(bytes, place + 1);
    if at == bytes.len() {
        return Err(JsonNo::Cut);
    }
    if bytes[at] != 34 {
        return Err(JsonNo::BadByte(at));
    }
    match member_name(alloc, bytes, at, &mut tree.source) {
        Ok((name, end)) => match push_open(opens, Open::InObject(start, members, name)) {
            Ok(()) => Ok((Next::Value(false), end)),
            Err(e) => Err(e),
        },
        Err(e) => Err(e),
    }
}
