ghost use Rattle.std.specs.Prelude.{◌≡◌, ◌<◌, ◌≤◌, ℕ, length};
ghost use Rattle.std.specs.Prelude.{get_or, IfOk, IfErr, OnOk, false};
ghost use Rattle.json_span.specs.Steps.{At, AtAny, AtValue, BehindOpen, then_after};
ghost use Rattle.json_token.specs.TokenEnds.{Skips};
ghost use Rattle.json_span.specs.Text.{IsText};
ghost use Rattle.json_token.specs.Tokens.{is_blank};
ghost use Rattle.json_span.specs.Json.{Json};
ghost use Rattle.json_span.specs.Refusals.{Refuses, max_levels};
ghost use Rattle.json_span.specs.Nodes.{IsTreeOf};

use crate::array::{after_item, begin_array, empty_array, next_item};
use crate::node_list::NodeList;
use crate::object::{after_member, begin_object};
use crate::scalar::{number_value, text_value, word_value};
use crate::state::{Next, Open};
use crate::tree::{Form, Member, Tree};
use json_token::{JsonNo, begins_number, skip_blanks};
use std::alloc::Global;

/// What a byte begins where a value is to come.
fn value_at(
    alloc: Global,
    bytes: &[u8],
    place: usize,
    tree: &mut Tree,
    opens: &mut Vec<Open>,
) -> Result<(Next, usize), JsonNo>
    requires inside { place < length bytes.now }
    requires at { AtAny bytes.now place tree.old.nodes tree.old.source.items opens.old.items }
    requires blank { is_blank (get_or bytes.now place 0) ≡ false }
    requires open { get_or bytes.now place 0 ≡ 93 → ⊥ }
    ensures ok { IfOk result (λ r. At bytes.now r.0 r.1
        tree.new.nodes tree.new.source.items opens.new.items) }
    ensures further { IfOk result (λ r. place < r.1) }
    ensures err { IfErr result (Refuses bytes.now) }
{
    let byte = bytes[place];
    if byte == 34 {
        return after(text_value(alloc, bytes, place, tree));
    }
    if begins_number(byte) {
        return after(number_value(bytes, place, tree));
    }
    if byte == 123 {
        return begin_object(alloc, bytes, place, tree, opens);
    }
    if byte == 91 {
        return match begin_array(alloc, bytes, place, &mut tree.source, opens) {
            Ok(()) => Ok((Next::Value(true), place + 1)),
            Err(e) => Err(e),
        };
    }
    if byte == 116 {
        return after(word_value(bytes, place, b"true", Form::Bool(true), tree));
    }
    if byte == 102 {
        return after(word_value(bytes, place, b"false", Form::Bool(false), tree));
    }
    if byte == 110 {
        return after(word_value(bytes, place, b"null", Form::Null, tree));
    }
    Err(JsonNo::BadByte(place))
}

/// The next step is behind the node.
fn after(read: Result<(u32, usize), JsonNo>) -> Result<(Next, usize), JsonNo>
    ensures { result ≡ then_after read }
{
    match read {
        Ok((node, place)) => Ok((Next::After(node), place)),
        Err(e) => Err(e),
    }
}

/// A value, or the end of an array that has just begun.
fn value(
    alloc: Global,
    bytes: &[u8],
    place: usize,
    first: bool,
    tree: &mut Tree,
    opens: &mut Vec<Open>,
) -> Result<(Next, usize), JsonNo>
    requires { AtValue bytes.now place first tree.old.nodes tree.old.source.items opens.old.items }
    ensures ok { IfOk result (λ r. At bytes.now r.0 r.1
        tree.new.nodes tree.new.source.items opens.new.items) }
    ensures further { IfOk result (λ r. place < r.1) }
    ensures err { IfErr result (Refuses bytes.now) }
{
    let at = skip_blanks(bytes, place);
    if at == bytes.len() {
        return Err(JsonNo::Cut);
    }
    if bytes[at] != 93 {
        return value_at(alloc, bytes, at, tree, opens);
    }
    if !first {
        return Err(JsonNo::BadByte(at));
    }
    empty_array(bytes, at, tree, opens)
}

/// Goes on behind a value in the array or object that was opened last.
fn behind(
    alloc: Global,
    bytes: &[u8],
    place: usize,
    node: u32,
    top: Open,
    tree: &mut Tree,
    opens: &mut Vec<Open>,
) -> Result<(Next, usize), JsonNo>
    requires { BehindOpen bytes.now place node tree.old.nodes tree.old.source.items opens.old.items top }
    ensures ok { IfOk result (λ r. At bytes.now r.0 r.1
        tree.new.nodes tree.new.source.items opens.new.items) }
    ensures further { IfOk result (λ r. place < r.1) }
    ensures err { IfErr result (Refuses bytes.now) }
{
    match top {
        Open::InArray(start, mut items) => match items.push(node) {
            Ok(()) => after_item(bytes, place, start, items, tree, opens),
            Err(_) => Err(JsonNo::Want),
        },
        Open::InObject(start, mut members, name) => match members.push(Member { name, node }) {
            Ok(()) => after_member(alloc, bytes, place, start, members, tree, opens),
            Err(_) => Err(JsonNo::Want),
        },
    }
}

/// What stands behind the whole value: white space alone.
fn end(bytes: &[u8], place: usize) -> Result<(), JsonNo>
    requires { place ≤ length bytes.now }
    ensures ok { OnOk result (Skips bytes.now place (length bytes.now)) }
    ensures err { IfErr result (λ e. (at : ℕ) × (e ≡ JsonNo.BadByte at) × (at < length bytes.now) × Skips bytes.now place at) }
{
    let at = skip_blanks(bytes, place);
    if at < bytes.len() {
        return Err(JsonNo::BadByte(at));
    }
    Ok(())
}

/// Reads the bytes as one JSON text.
fn read_text(alloc: Global, bytes: &[u8]) -> Result<Tree, JsonNo>
    // The tree is that of the text, and the text has no other value.
    ensures ok { IfOk result (IsTreeOf bytes.now) }
    // Each refusal names the first place at which no JSON text goes on, or that the bytes end before.
    ensures refused { IfErr result (Refuses bytes.now) }
{
    let Ok(source) = Vec::with_capacity(alloc, bytes.len()) else {
        return Err(JsonNo::Want);
    };
    let mut tree = Tree {
        nodes: NodeList::new(alloc),
        source,
        root: 0,
    };
    let mut opens = Vec::new(alloc);
    let mut next = Next::Value(false);
    let mut place = 0;
    loop {
        let step = match next {
            Next::Value(first) => value(alloc, bytes, place, first, &mut tree, &mut opens),
            Next::After(node) => match next_item(bytes, place, node, &mut tree.source, &mut opens) {
                Ok(Some(at)) => Ok((Next::Value(false), at)),
                Ok(None) => match opens.pop() {
                    Some(top) => behind(alloc, bytes, place, node, top, &mut tree, &mut opens),
                    None => {
                        tree.root = node;
                        return match end(bytes, place) {
                            Ok(()) => Ok(tree),
                            Err(e) => Err(e),
                        };
                    }
                },
                Err(e) => return Err(e),
            },
        };
        match step {
            Ok((then, at)) => {
                next = then;
                place = at;
            }
            Err(e) => return Err(e),
        }
    }
}

/// Reads the bytes as one JSON text (RFC 8259, section 2), with arrays and objects nested at most 127 levels deep and white space
/// alone behind it.
pub fn read(alloc: Global, bytes: &[u8]) -> Result<Tree, JsonNo>
    // The tree is that of the text, and the text has no other value.
    ensures ok { IfOk result (IsTreeOf bytes.now) }

    // Each refusal names the first place at which no JSON text goes on, or that the bytes end before.
    ensures refused { IfErr result (Refuses bytes.now) }
    // A text is refused for want of memory alone.
    ensures accepts { (j : Json) → IsText max_levels bytes.now j → IfErr result (λ e. e ≡ JsonNo.Want) }
{
    match read_text(alloc, bytes) {
        Ok(tree) => Ok(tree),
        Err(e) => Err(e),
    }
}
