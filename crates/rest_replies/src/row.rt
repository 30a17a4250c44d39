ghost use Rattle.std.specs.Prelude.{◌≡◌, ◌++◌, List, ℕ, nat_abs, string_bytes, OnOk};
ghost use Rattle.json.specs.Print.{quoted};
ghost use Rattle.forms.specs.Formats.{format_of};
ghost use Rattle.forms.specs.Shown.{ShowsSo};
ghost use Rattle.broker_link.specs.Fetching.{row_of};
ghost use Rattle.rest_replies.specs.Row.{FrontSo, RowSo, opening_text, place_text};

use broker_link::Stored;
use forms::{FormNo, Format, put_shown};
use gate_io::Items;
use itoa::Buffer;
use std::alloc::{AllocError, Global};

#[tactic(auto, unfolding(crate::specs::Row::opening_text))]
fn put_opening(text: &mut String, first: bool) -> Result<(), AllocError>
    ensures { OnOk result (string_bytes text.new ≡ string_bytes text.old ++ opening_text first) }
{
    if first {
        text.push_str("{\"topic\":")
    } else {
        text.push_str(",{\"topic\":")
    }
}

fn put_stored(
    alloc: Global,
    text: &mut String,
    format: Format,
    stored: &Option<Items<u8>>,
) -> Result<(), FormNo>
    ensures { ShowsSo format stored.now (string_bytes text.old) (string_bytes text.new) result }
{
    match stored {
        None => put_shown(alloc, text, format, None),
        Some(bytes) => put_shown(alloc, text, format, Some(bytes.as_slice())),
    }
}

fn put_front(
    alloc: Global,
    text: &mut String,
    topic: &str,
    format: Format,
    stored: &Stored,
) -> Result<(), FormNo>
    ensures { FrontSo format topic.now stored.now.key stored.now.value (string_bytes text.old) (string_bytes text.new) result }
{
    text.push_str(topic)?;
    text.push_str(",\"key\":")?;
    put_stored(alloc, text, format, &stored.key)?;
    text.push_str(",\"value\":")?;
    put_stored(alloc, text, format, &stored.value)
}

#[tactic(auto, unfolding(crate::specs::Row::place_text))]
fn put_place(text: &mut String, partition: u32, offset: u64) -> Result<(), AllocError>
    ensures { OnOk result (string_bytes text.new ≡ string_bytes text.old ++ place_text partition offset) }
{
    let mut digits = Buffer::new();
    text.push_str(",\"partition\":")?;
    text.push_str(digits.format(partition))?;
    text.push_str(",\"offset\":")?;
    text.push_str(digits.format(offset))?;
    text.push_str("}")?;
    Ok(())
}

/// Appends the text of a row in a format, with the name of its topic as a JSON string, and with a comma
/// before it unless it is the first of a reply. Where the key or the value isn't a text of the format
/// nothing is appended.
pub fn put_row(
    alloc: Global,
    text: &mut String,
    first: bool,
    topic: &str,
    partition: i32,
    format: Format,
    stored: &Stored,
) -> Result<(), FormNo>
    ensures { (name : List ℕ) → topic.now ≡ quoted name → RowSo first (format_of format) (record { at = record { topic = name; partition = nat_abs partition }; row = row_of stored.now })
        (string_bytes text.old) (string_bytes text.new) result }
{
    let len = text.as_str().len();
    put_opening(text, first)?;
    match put_front(alloc, text, topic, format, stored) {
        Ok(()) => Ok(put_place(text, partition.unsigned_abs(), stored.offset.unsigned_abs())?),
        Err(FormNo::Json) => {
            text.truncate(len);
            Err(FormNo::Json)
        }
        Err(e) => Err(e),
    }
}
