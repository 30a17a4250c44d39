ghost use Rattle.std.specs.Prelude.{◌≡◌, IfOk};
ghost use Rattle.std.specs.List.{before_first, list_all};
ghost use Rattle.rest_routes.specs.Parameter.{behind, first_parameter, instance_name_of, is_printed, is_slash, is_short, name_of, number_of, numbered, second_parameter};

use crate::digits::{are_digits, number_in};
use crate::number::PartitionNumber;
use gate_io::Text;
use percent_encoding::{DecodeError, percent_decode};
use std::alloc::{AllocError, Global};

/// The part before the first slash, and what follows that slash.
fn parts_of(path: &str) -> (&str, &str)
    ensures front { result.0.now ≡ before_first is_slash path.now }
    ensures behind { result.1.now ≡ behind path.now }
{
    match path.split_once('/') {
        Some((front, behind)) => (front, behind),
        None => (path, ""),
    }
}

fn behind(path: &str) -> &str
    ensures { result.now ≡ behind path.now }
{
    let (_, behind) = parts_of(path);
    behind
}

/// What stands between the second slash and the third.
pub(crate) fn first_parameter(path: &str) -> &str
    ensures { result.now ≡ first_parameter path.now }
{
    let (part, _) = parts_of(behind(behind(path)));
    part
}

/// What stands between the fourth slash and the fifth.
pub(crate) fn second_parameter(path: &str) -> &str
    ensures { result.now ≡ second_parameter path.now }
{
    first_parameter(behind(behind(path)))
}

fn is_short(text: &str) -> bool
    ensures { result ≡ is_short text.now }
{
    !text.is_empty() && text.len() <= 249
}

/// What a parameter stands for, with its escapes decoded. None where that is no text of 1 to 249
/// bytes.
#[tactic(auto, unfolding(crate::specs::Parameter::name_of))]
pub(crate) fn name_of(alloc: Global, part: &str) -> Result<Option<Text>, AllocError>
    ensures { IfOk result (λ name. name ≡ name_of part.now) }
{
    let text = match percent_decode(part.as_bytes()).decode_utf8(alloc) {
        Ok(text) => text.into_owned(alloc)?,
        Err(DecodeError::Utf8(_)) => return Ok(None),
        Err(DecodeError::OutOfMemory) => return Err(AllocError),
    };
    if is_short(text.as_str()) {
        Ok(Some(Text::from_string(text)))
    } else {
        Ok(None)
    }
}

fn is_printed(byte: u8) -> bool
    ensures { result ≡ is_printed byte }
{
    32 <= byte && byte != 127
}

fn are_printed(name: &[u8]) -> bool
    ensures { result ≡ list_all is_printed name.now }
{
    name.iter().all(|b| is_printed(*b))
}

/// The name of a group or an instance, without control characters.
pub(crate) fn instance_name_of(alloc: Global, part: &str) -> Result<Option<Text>, AllocError>
    ensures { IfOk result (λ name. name ≡ instance_name_of part.now) }
{
    match name_of(alloc, part) {
        Ok(Some(name)) if are_printed(name.as_bytes()) => Ok(Some(name)),
        Ok(_) => Ok(None),
        Err(AllocError) => Err(AllocError),
    }
}

/// The number that digits write, up to 2147483647.
fn numbered(name: &str) -> Option<PartitionNumber>
    ensures { result ≡ numbered name.now }
{
    if name.is_empty() || !are_digits(name) {
        return None;
    }
    match number_in(name) {
        Some(number) => PartitionNumber::new(number),
        None => None,
    }
}

/// The number of a partition.
pub(crate) fn number_of(alloc: Global, part: &str) -> Result<Option<PartitionNumber>, AllocError>
    ensures { IfOk result (λ number. number ≡ number_of part.now) }
{
    match name_of(alloc, part) {
        Ok(Some(name)) => Ok(numbered(name.as_str())),
        Ok(None) => Ok(None),
        Err(AllocError) => Err(AllocError),
    }
}
