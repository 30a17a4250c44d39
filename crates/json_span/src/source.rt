ghost use Rattle.std.specs.Prelude.{◌≡◌, ◌+◌, ◌++◌, [], ◌∷◌, length};
ghost use Rattle.std.specs.Prelude.{IfOk, IfErr, OnOk, Some};
ghost use Rattle.json_span.specs.Tree.{items_of, members_of};
ghost use Rattle.json_span.specs.Steps.{Adds};

use crate::state::Open;
use crate::tree::{Form, Member, Tree};
use gate_io::Items;
use json_token::JsonNo;

/// Puts a byte behind the source text.
pub(crate) fn push_byte(source: &mut Vec<u8>, byte: u8) -> Result<(), JsonNo>
    ensures ok { OnOk result (source.new.items ≡ source.old.items ++ byte ∷ []) }
    ensures want { IfErr result (λ e. e ≡ JsonNo.Want) }
{
    match source.push(byte) {
        Ok(()) => Ok(()),
        Err(_) => Err(JsonNo::Want),
    }
}

/// Opens an array or an object.
pub(crate) fn push_open(opens: &mut Vec<Open>, opened: Open) -> Result<(), JsonNo>
    ensures ok { OnOk result (opens.new.items ≡ opens.old.items ++ opened ∷ []) }
    ensures want { IfErr result (λ e. e ≡ JsonNo.Want) }
{
    match opens.push(opened) {
        Ok(()) => Ok(()),
        Err(_) => Err(JsonNo::Want),
    }
}

/// Puts bytes behind the source text.
pub(crate) fn push_bytes(source: &mut Vec<u8>, bytes: &[u8]) -> Result<(), JsonNo>
    ensures ok { OnOk result (source.new.items ≡ source.old.items ++ bytes.now) }
    ensures want { IfErr result (λ e. e ≡ JsonNo.Want) }
{
    match source.extend_from_slice(bytes) {
        Ok(()) => Ok(()),
        Err(_) => Err(JsonNo::Want),
    }
}

/// Puts the bytes behind the source text and makes a node of them.
pub(crate) fn add_token(bytes: &[u8], form: Form, tree: &mut Tree) -> Result<u32, JsonNo>
    ensures ok { IfOk result (Adds tree.old.nodes tree.new.nodes
        tree.old.source.items bytes.now form tree.new.source.items) }
    ensures want { IfErr result (λ e. e ≡ JsonNo.Want) }
{
    let start = tree.source.len();
    match tree.source.extend_from_slice(bytes) {
        Ok(()) => tree.add(start, form),
        Err(_) => Err(JsonNo::Want),
    }
}

/// The form of an array of these items, in no more room than they need.
pub(crate) fn array_of(items: Vec<u32>) -> Form
    ensures { items_of result ≡ Some items.items }
{
    let mut items = items;
    items.shrink_to_fit();
    Form::Array(Items::from_vec(items))
}

/// The form of an object of these members, in no more room than they need.
pub(crate) fn object_of(members: Vec<Member>) -> Form
    ensures { members_of result ≡ Some members.items }
{
    let mut members = members;
    members.shrink_to_fit();
    Form::Object(Items::from_vec(members))
}

/// Puts the closing bracket and makes the node.
pub(crate) fn close(bracket: u8, start: usize, form: Form, tree: &mut Tree) -> Result<u32, JsonNo>
    ensures source { OnOk result (tree.new.source.items ≡ tree.old.source.items ++ bracket ∷ []) }
    ensures ok { IfOk result (λ k. (k ≡ length tree.old.nodes) × (tree.new.nodes
        ≡ tree.old.nodes ++ (record { start = start; end = length tree.old.source.items + 1; form = form } ∷ []))) }
    ensures want { IfErr result (λ e. e ≡ JsonNo.Want) }
{
    match push_byte(&mut tree.source, bracket) {
        Ok(()) => tree.add(start, form),
        Err(e) => Err(e),
    }
}
