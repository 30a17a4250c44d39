ghost use Rattle.std.specs.Prelude.{◌≡◌, ◌++◌, OnOk, codes, option_map, string_bytes, Some};
ghost use Rattle.forms.specs.Shown.{ShowsSo, base64_text};

use crate::format::{FormNo, Format};
use base64::engine::general_purpose::STANDARD;
use json_span::{JsonNo, read};
use std::alloc::{AllocError, Global};

#[tactic(auto, unfolding(crate::specs::Shown::base64_text))]
fn put_base64(text: &mut String, bytes: &[u8]) -> Result<(), AllocError>
    ensures { OnOk result (string_bytes text.new ≡ string_bytes text.old ++ base64_text bytes.now) }
{
    text.push_str("\"")?;
    STANDARD.encode_string(bytes, text)?;
    text.push_str("\"")
}

fn put_json(alloc: Global, text: &mut String, bytes: &[u8]) -> Result<(), FormNo>
    ensures { ShowsSo Format.Json (Some bytes.now) (string_bytes text.old) (string_bytes text.new) result }
{
    match read(alloc, bytes) {
        Ok(tree) => Ok(text.push_str(tree.text_of(tree.root()))?),
        Err(JsonNo::Want) => Err(FormNo::Want),
        Err(_) => Err(FormNo::Json),
    }
}

/// Appends what stored bytes are shown as, or the word null where nothing is stored. After an error
/// but want of memory nothing was appended.
pub fn put_shown(
    alloc: Global,
    text: &mut String,
    format: Format,
    bytes: Option<&[u8]>,
) -> Result<(), FormNo>
    ensures { ShowsSo format (option_map (λ bytes. bytes.now) bytes.entry) (string_bytes text.old) (string_bytes text.new) result }
{
    match (format, bytes) {
        (_, None) => Ok(text.push_str("null")?),
        (Format::Binary, Some(bytes)) => Ok(put_base64(text, bytes)?),
        (Format::Json, Some(bytes)) => put_json(alloc, text, bytes),
    }
}
