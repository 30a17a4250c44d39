ghost use Rattle.std.specs.Prelude.{◌≡◌, ◌<◌, ◌≤◌, List, length};
ghost use Rattle.std.specs.Prelude.{get_or, IfOk, IfErr, true, false};
ghost use Rattle.json_span.specs.Steps.{AtAny, AtEnd, Adds, WordStops};
ghost use Rattle.json_token.specs.TokenEnds.{begins_number, WordTo};
ghost use Rattle.json_token.specs.Chars.{IsChars, has_backslash};
ghost use Rattle.json_span.specs.Tree.{HasContent};
ghost use Rattle.json_span.specs.Refusals.{Refuses};
ghost use Rattle.json_span.specs.declared.state.Open.{Open};

use crate::source::add_token;
use crate::tree::{Form, Tree};
use json_token::{JsonNo, numeral_end, string_end, unescape, word_end};
use std::alloc::Global;

/// A literal name as a value.
pub(crate) fn word_value(
    bytes: &[u8],
    place: usize,
    word: &[u8],
    form: Form,
    tree: &mut Tree,
) -> Result<(u32, usize), JsonNo>
    requires { place ≤ length bytes.now }
    ensures ok { IfOk result (λ r. WordTo bytes.now word.now place r.1 × Adds tree.old.nodes
        tree.new.nodes tree.old.source.items word.now form tree.new.source.items r.0) }
    ensures err { IfErr result (WordStops bytes.now word.now place) }
{
    let end = match word_end(bytes, place, word) {
        Ok(end) => end,
        Err(e) => return Err(e),
    };
    match add_token(word, form, tree) {
        Ok(node) => Ok((node, end)),
        Err(_) => Err(JsonNo::Want),
    }
}

/// A number as a value.
pub(crate) fn number_value(
    bytes: &[u8],
    place: usize,
    tree: &mut Tree,
) -> Result<(u32, usize), JsonNo>
    requires inside { place < length bytes.now }
    requires begins { begins_number (get_or bytes.now place 0) ≡ true }
    ensures ok { IfOk result (λ r. (opens : List Open)
        → AtAny bytes.now place tree.old.nodes tree.old.source.items opens
        → AtEnd bytes.now r.1 r.0 tree.new.nodes tree.new.source.items opens) }
    ensures further { IfOk result (λ r. place < r.1) }
    ensures err { IfErr result (λ e. (opens : List Open)
        → AtAny bytes.now place tree.old.nodes tree.old.source.items opens
        → Refuses bytes.now e) }
{
    let end = match numeral_end(bytes, place) {
        Ok(end) => end,
        Err(e) => return Err(e),
    };
    match add_token(&bytes[place..end], Form::Number, tree) {
        Ok(node) => Ok((node, end)),
        Err(_) => Err(JsonNo::Want),
    }
}

/// How a text is kept.
fn form_of(alloc: Global, chars: &[u8], escapes: bool) -> Result<Form, JsonNo>
    requires valid { IsChars chars.now }
    requires plain { escapes ≡ false → has_backslash chars.now ≡ false }
    ensures ok { IfOk result (λ f. HasContent f chars.now) }
    ensures want { IfErr result (λ e. e ≡ JsonNo.Want) }
{
    if escapes {
        match unescape(alloc, chars) {
            Ok(text) => Ok(Form::Escaped(text)),
            Err(_) => Err(JsonNo::Want),
        }
    } else {
        Ok(Form::Plain)
    }
}

/// A string as a value.
pub(crate) fn text_value(
    alloc: Global,
    bytes: &[u8],
    place: usize,
    tree: &mut Tree,
) -> Result<(u32, usize), JsonNo>
    requires inside { place < length bytes.now }
    requires quote { get_or bytes.now place 0 ≡ 34 }
    ensures ok { IfOk result (λ r. (opens : List Open)
        → AtAny bytes.now place tree.old.nodes tree.old.source.items opens
        → AtEnd bytes.now r.1 r.0 tree.new.nodes tree.new.source.items opens) }
    ensures further { IfOk result (λ r. place < r.1) }
    ensures err { IfErr result (λ e. (opens : List Open)
        → AtAny bytes.now place tree.old.nodes tree.old.source.items opens
        → Refuses bytes.now e) }
{
    let (end, escapes) = match string_end(bytes, place) {
        Ok(found) => found,
        Err(e) => return Err(e),
    };
    let form = match form_of(alloc, &bytes[place + 1..end - 1], escapes) {
        Ok(form) => form,
        Err(_) => return Err(JsonNo::Want),
    };
    match add_token(&bytes[place..end], form, tree) {
        Ok(node) => Ok((node, end)),
        Err(_) => Err(JsonNo::Want),
    }
}
