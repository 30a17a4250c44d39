ghost use Rattle.std.specs.Prelude.{◌≡◌, ◌++◌, ◌/◌, ◌%◌, ◌<◌, IfOk, OnOk, ℕ, List, [], ◌∷◌, string_bytes, true};
ghost use Rattle.std.specs.Fmt.{digit_glyph};
ghost use Rattle.std.specs.List.{flat_map as each_text};
ghost use Rattle.model.specs.texts.Bodies.{is_plain, made_text, path_byte};
ghost use Rattle.model.specs.state.World.{Key};
ghost use Rattle.rest_calls.specs.Views.{key_in};
ghost use Rattle.rest_replies.specs.Creation.{SaysMade, created_text, uri_text};

use gate_io::Text;
use rest_codes::{Media, Reply, quoted_text};
use std::alloc::{AllocError, Global};

/// In a path the byte stands for itself.
fn is_plain(byte: u8) -> bool
    ensures { result ≡ is_plain byte }
{
    matches!(byte, b'0'..=b'9' | b'A'..=b'Z' | b'a'..=b'z' | b'-' | b'.' | b'_' | b'~')
}

fn hex_digit(number: u8) -> char
    requires { number < 16 }
    ensures value { result ≡ digit_glyph true number }
    ensures ascii { result < 128 }
{
    if number < 10 {
        char::from(b'0' + number)
    } else {
        char::from(b'A' + (number - 10))
    }
}

fn push_hex(text: &mut String, byte: u8) -> Result<(), AllocError>
    ensures { OnOk result (string_bytes text.new ≡ string_bytes text.old ++ 37 ∷ digit_glyph true (byte / 16) ∷ digit_glyph true (byte % 16) ∷ []) }
{
    text.push('%')?;
    text.push(hex_digit(byte / 16))?;
    text.push(hex_digit(byte % 16))
}

fn push_encoded(text: &mut String, byte: u8) -> Result<(), AllocError>
    ensures { OnOk result (string_bytes text.new ≡ string_bytes text.old ++ path_byte byte) }
{
    if is_plain(byte) {
        text.push(char::from(byte))
    } else {
        push_hex(text, byte)
    }
}

/// The name as it stands in a path.
fn path_text(alloc: Global, name: &str) -> Result<String, AllocError>
    ensures { IfOk result (λ s. string_bytes s ≡ each_text path_byte name.now) }
{
    let mut text = String::new(alloc);
    for byte in name.as_bytes() {
        push_encoded(&mut text, *byte)?;
    }
    Ok(text)
}

#[tactic(auto, unfolding(crate::specs::Creation::uri_text))]
fn uri_text(alloc: Global, advertise: &str, group: &str, name: &str) -> Result<String, AllocError>
    ensures { IfOk result (λ s. string_bytes s ≡ uri_text advertise.now group.now name.now) }
{
    format!(in alloc; "http://{advertise}/consumers/{group}/instances/{name}")
}

#[tactic(auto, unfolding(crate::specs::Creation::created_text))]
fn created_text(alloc: Global, id: &str, place: &str) -> Result<String, AllocError>
    ensures { IfOk result (λ s. string_bytes s ≡ created_text id.now place.now) }
{
    format!(in alloc; "{{\"instance_id\":{id},\"base_uri\":{place}}}")
}

fn made_text(
    alloc: Global,
    advertise: &str,
    group: &str,
    instance: &str,
) -> Result<String, AllocError>
    ensures { IfOk result (λ s. string_bytes s ≡ made_text advertise.now (key_in group.now instance.now)) }
{
    let id = quoted_text(alloc, instance)?;
    let group = path_text(alloc, group)?;
    let name = path_text(alloc, instance)?;
    let place = uri_text(alloc, advertise, group.as_str(), name.as_str())?;
    let place = quoted_text(alloc, place.as_str())?;
    created_text(alloc, id.as_str(), place.as_str())
}

/// The reply to a Create that made an instance: its id, and where it is found.
pub fn made(alloc: Global, advertise: &str, group: &str, instance: &str) -> Reply
    ensures says { SaysMade advertise.now (key_in group.now instance.now) result }
{
    match made_text(alloc, advertise, group, instance) {
        Ok(text) => Reply::Body {
            media: Media::Plain,
            text: Text::from_string(text),
        },
        Err(AllocError) => Reply::Want,
    }
}
