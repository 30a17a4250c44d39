ghost use Rattle.std.specs.Prelude.{◌≡◌, ◌+◌, ◌<◌, ◌≤◌, List, length};
ghost use Rattle.std.specs.Prelude.{get_or, IfOk, IfErr, OnOk, true};
ghost use Rattle.json_span.specs.Steps.{At, AtAny, AtValue, BehindItem, AddsItem, PushesItem, ItemFollows};
ghost use Rattle.json_span.specs.Refusals.{Refuses};
ghost use Rattle.json_span.specs.declared.tree.Node.{Node};

use crate::source::{array_of, close, push_byte, push_open};
use crate::state::{MAX_LEVELS, Next, Open};
use crate::tree::Tree;
use json_token::{JsonNo, skip_blanks};
use std::alloc::Global;

/// The bracket that opens an array.
pub(crate) fn begin_array(
    alloc: Global,
    bytes: &[u8],
    place: usize,
    source: &mut Vec<u8>,
    opens: &mut Vec<Open>,
) -> Result<(), JsonNo>
    requires inside { place < length bytes.now }
    requires bracket { get_or bytes.now place 0 ≡ 91 }
    ensures ok { OnOk result ((nodes : List Node)
        → AtAny bytes.now place nodes source.old.items opens.old.items
        → AtValue bytes.now (place + 1) true nodes source.new.items opens.new.items) }
    ensures err { IfErr result (λ e. (nodes : List Node)
        → AtAny bytes.now place nodes source.old.items opens.old.items → Refuses bytes.now e) }
{
    if opens.len() >= MAX_LEVELS {
        return Err(JsonNo::TooDeep);
    }
    let start = source.len();
    if let Err(e) = push_byte(source, 91) {
        return Err(e);
    }
    match push_open(opens, Open::InArray(start, Vec::new(alloc))) {
        Ok(()) => Ok(()),
        Err(e) => Err(e),
    }
}

/// Puts the node behind the items of an open array; false, and nothing done, at an object.
fn add_item(node: u32, top: &mut Open) -> Result<bool, JsonNo>
    ensures ok { IfOk result (AddsItem node top.old top.new) }
    ensures want { IfErr result (λ e. e ≡ JsonNo.Want) }
{
    match top {
        Open::InArray(_, items) => match items.push(node) {
            Ok(()) => Ok(true),
            Err(_) => Err(JsonNo::Want),
        },
        Open::InObject(_, _, _) => Ok(false),
    }
}

/// Puts the node behind the items of the innermost array, in place; false where none is open.
fn push_item(node: u32, opens: &mut Vec<Open>) -> Result<bool, JsonNo>
    ensures ok { IfOk result (PushesItem node opens.old.items opens.new.items) }
    ensures want { IfErr result (λ e. e ≡ JsonNo.Want) }
{
    match opens.last_mut() {
        Some(top) => add_item(node, top),
        None => Ok(false),
    }
}

/// A comma behind an item of the innermost array: the node is put in place. None where no comma follows or no array
/// is open, and then nothing was done.
pub(crate) fn next_item(
    bytes: &[u8],
    place: usize,
    node: u32,
    source: &mut Vec<u8>,
    opens: &mut Vec<Open>,
) -> Result<Option<usize>, JsonNo>
    requires { place ≤ length bytes.now }
    ensures ok { IfOk result (λ found. ItemFollows bytes.now place node source.old.items source.new.items
        opens.old.items opens.new.items found) }
    ensures want { IfErr result (λ e. e ≡ JsonNo.Want) }
{
    let at = skip_blanks(bytes, place);
    if at == bytes.len() || bytes[at] != 44 {
        return Ok(None);
    }
    match push_item(node, opens) {
        Ok(true) => match push_byte(source, 44) {
            Ok(()) => Ok(Some(at + 1)),
            Err(e) => Err(e),
        },
        Ok(false) => Ok(None),
        Err(e) => Err(e),
    }
}

/// What stands behind an item of an array: a comma or its end.
pub(crate) fn after_item(
    bytes: &[u8],
    place: usize,
    start: usize,
    items: Vec<u32>,
    tree: &mut Tree,
    opens: &mut Vec<Open>,
) -> Result<(Next, usize), JsonNo>
    requires { BehindItem bytes.now place start items.items tree.old.nodes
        tree.old.source.items opens.old.items }
    ensures ok { IfOk result (λ r. At bytes.now r.0 r.1
        tree.new.nodes tree.new.source.items opens.new.items) }
    ensures further { IfOk result (λ r. place < r.1) }
    ensures err { IfErr result (Refuses bytes.now) }
{
    let at = skip_blanks(bytes, place);
    if at == bytes.len() {
        return Err(JsonNo::Cut);
    }
    if bytes[at] == 44 {
        if let Err(e) = push_byte(&mut tree.source, 44) {
            return Err(e);
        }
        return match push_open(opens, Open::InArray(start, items)) {
            Ok(()) => Ok((Next::Value(false), at + 1)),
            Err(e) => Err(e),
        };
    }
    if bytes[at] != 93 {
        return Err(JsonNo::BadByte(at));
    }
    match close(93, start, array_of(items), tree) {
        Ok(node) => Ok((Next::After(node), at + 1)),
        Err(_) => Err(JsonNo::Want),
    }
}

/// The end of an array that has just begun.
pub(crate) fn empty_array(
    bytes: &[u8],
    place: usize,
    tree: &mut Tree,
    opens: &mut Vec<Open>,
) -> Result<(Next, usize), JsonNo>
    requires inside { place < length bytes.now }
    requires bracket { get_or bytes.now place 0 ≡ 93 }
    requires at { AtValue bytes.now place true tree.old.nodes tree.old.source.items opens.old.items }
    ensures ok { IfOk result (λ r. At bytes.now r.0 r.1
        tree.new.nodes tree.new.source.items opens.new.items) }
    ensures further { IfOk result (λ r. place < r.1) }
    ensures err { IfErr result (Refuses bytes.now) }
{
    match opens.pop() {
        Some(Open::InArray(start, items)) => match close(93, start, array_of(items), tree) {
            Ok(node) => Ok((Next::After(node), place + 1)),
            Err(e) => Err(e),
        },
        Some(Open::InObject(_, _, _)) => unreachable!(),
        None => unreachable!(),
    }
}
