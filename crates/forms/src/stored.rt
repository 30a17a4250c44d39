ghost use Rattle.std.specs.Prelude.{◌≡◌, IfOk, List, ℕ};
ghost use Rattle.json_span.specs.Json.{Json, IsWithin};
ghost use Rattle.json_span.specs.Nodes.{HasNode, Stands};
ghost use Rattle.json_span.specs.Refusals.{max_levels};
ghost use Rattle.model.specs.state.Forms.Showing.{Text};
ghost use Rattle.forms.specs.Shown.{showing};
ghost use Rattle.forms.specs.Stored.{Decodes, StoresSo, StoresText};

use crate::format::{FormNo, Format};
use base64::DecodeAllocError;
use base64::engine::general_purpose::STANDARD;
use gate_io::Items;
use json_span::{Kind, Tree};
use std::alloc::{AllocError, Global};

/// The bytes that a text of base64 stands for.
fn decoded(alloc: Global, text: &str) -> Result<Items<u8>, FormNo>
    ensures { Decodes text.now result }
{
    match STANDARD.decode(alloc, text.as_bytes()) {
        Ok(bytes) => Ok(Items::from_vec(bytes)),
        Err(DecodeAllocError::OutOfMemory) => Err(FormNo::Want),
        Err(DecodeAllocError::DecodeError(_)) => Err(FormNo::Base64),
    }
}

fn binary(alloc: Global, tree: &Tree, node: u32) -> Result<Items<u8>, FormNo>
    requires { HasNode tree.now node }
    ensures { (j : Json) → Stands tree.now node j → StoresText j result }
{
    match tree.as_text(node) {
        Some(text) => decoded(alloc, text),
        None => Err(FormNo::Base64),
    }
}

fn copied(alloc: Global, text: &str) -> Result<Items<u8>, AllocError>
    ensures { IfOk result (λ bytes. bytes ≡ text.now) }
{
    let mut bytes = Vec::with_capacity(alloc, text.len())?;
    bytes.extend_from_slice(text.as_bytes())?;
    Ok(Items::from_vec(bytes))
}

/// What a JSON value is stored as. JSON null is stored null in each format.
pub fn to_stored(
    alloc: Global,
    format: Format,
    tree: &Tree,
    node: u32,
) -> Result<Option<Items<u8>>, FormNo>
    requires { HasNode tree.now node }
    ensures stores { (j : Json) → Stands tree.now node j → StoresSo format j result }
    // What was stored in JSON can be shown in JSON.
    ensures again { (j : Json) → Stands tree.now node j → IsWithin max_levels j
        → IfOk result (λ stored. format ≡ Format.Json → (shown : List ℕ) × (showing Format.Json stored ≡ Text shown)) }
{
    if tree.kind(node) == Kind::Null {
        return Ok(None);
    }
    match format {
        Format::Binary => Ok(Some(binary(alloc, tree, node)?)),
        Format::Json => Ok(Some(copied(alloc, tree.text_of(node))?)),
    }
}
