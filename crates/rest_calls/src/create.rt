ghost use Rattle.std.specs.Prelude.{◌≡◌, ◌&&◌, ◌==◌, not, nat_le, option_map, option_and_then, bytes_eq, take, codes, []};
ghost use Rattle.std.specs.List.{list_all};
ghost use Rattle.serde_json.specs.View.{view};
ghost use Rattle.serde_json.specs.Find.{as_number, as_str};
ghost use Rattle.rest_calls.specs.Views.{name_in, settings_of};
ghost use Rattle.rest_calls.specs.Create.{member_of, is_given_name, name_of, format_in, format_named, edge_in, reset_of, is_boolean, is_truth, within, number_in, number_at, number_of, settings_in, usual_settings, created_by};
ghost use Rattle.rest_calls.specs.Reading.{CreatedAs};
ghost use Rattle.rest_calls.specs.Reads.{Gives, created_view};
ghost use Rattle.broker_link.specs.Fetching.{edge_view};
ghost use Rattle.forms.specs.Formats.{format_of};

use crate::call::Settings;
use crate::unread::Unread;
use crate::value::json_of;
use broker_link::Edge;
use forms::Format;
use gate_io::Text;
use rest_routes::{are_digits, number_in as digit_number};
use serde_json::Value;
use std::alloc::{AllocError, Global};

/// The limits of a number, and the one that counts where none is given.
#[derive(Clone, Copy, Debug)]
pub(crate) struct Bounds {
    pub least: u32,
    pub most: u32,
    pub usual: u32,
}

/// The name that a client gives to a new instance, if it gives one, and the settings.
#[derive(Debug, Drop)]
pub(crate) struct Created {
    pub name: Option<Text>,
    pub settings: Settings,
}

/// A member of an object. None where it is null, too.
fn member_of<'a>(object: &'a Value, name: &str) -> Option<&'a Value>
    ensures { option_map (λ v. view v.now) result ≡ member_of name.now (view object.now) }
{
    let value = object.get(name)?;
    if value.is_null() { None } else { Some(value) }
}

fn is_word_byte(byte: u8) -> bool
    ensures { result ≡ (nat_le 32 byte && not (byte == 127)) }
{
    32 <= byte && byte != 127
}

fn are_word_bytes(name: &[u8]) -> bool
    ensures { result ≡ list_all (λ x. nat_le 32 x && not (x == 127)) name.now }
{
    name.iter().all(|b| is_word_byte(*b))
}

/// The name begins as those that the gateway gives.
fn is_own(name: &str) -> bool
    ensures { result ≡ bytes_eq (take 5 name.now) (codes "auto-") }
{
    name.strip_prefix("auto-").is_some()
}

fn is_given_name(name: &str) -> bool
    ensures { result ≡ is_given_name name.now }
{
    if name.is_empty() || name.len() > 249 {
        return false;
    }
    are_word_bytes(name.as_bytes()) && !is_own(name)
}

fn name_of(alloc: Global, value: Option<&Value>) -> Result<Option<Text>, Unread>
    ensures { Gives name_in result (λ r. r ≡ name_of (option_map (λ v. view v.now) value.entry)) }
{
    let Some(value) = value else {
        return Ok(None);
    };
    let Some(name) = value.as_str() else {
        return Err(Unread::Unreadable);
    };
    if !is_given_name(name) {
        return Err(Unread::Invalid);
    }
    match Text::from_str(alloc, name) {
        Ok(text) => Ok(Some(text)),
        Err(AllocError) => Err(Unread::Want),
    }
}

fn format_named(text: &str) -> Option<Format>
    ensures { option_map format_of result ≡ format_named text.now }
{
    if text == "binary" {
        return Some(Format::Binary);
    }
    if text == "json" {
        return Some(Format::Json);
    }
    None
}

/// The format in which an instance shows keys and values, if it is built.
#[tactic(auto, unfolding(crate::specs::Create::format_in))]
fn format_in(value: Option<&Value>) -> Option<Format>
    ensures { option_map format_of result ≡ format_in (option_map (λ v. view v.now) value.entry) }
{
    let Some(value) = value else {
        return Some(Format::Binary);
    };
    format_named(value.as_str()?)
}

fn edge_in(text: &str) -> Option<Edge>
    ensures { option_map edge_view result ≡ edge_in text.now }
{
    if text == "earliest" {
        return Some(Edge::Start);
    }
    if text == "latest" {
        return Some(Edge::End);
    }
    None
}

#[tactic(auto, unfolding(crate::specs::Create::reset_of))]
fn reset_of(value: Option<&Value>) -> Option<Edge>
    ensures { option_map edge_view result
        ≡ reset_of (option_map (λ v. view v.now) value.entry) }
{
    let Some(value) = value else {
        return Some(Edge::End);
    };
    edge_in(value.as_str()?)
}

fn is_truth(text: Option<&str>) -> bool
    ensures { result ≡ is_truth (option_map (λ t. t.now) text.entry) }
{
    match text {
        Some(text) => text == "true" || text == "false",
        None => false,
    }
}

#[tactic(auto, unfolding(crate::specs::Create::is_boolean))]
fn is_boolean(value: Option<&Value>) -> bool
    ensures { result ≡ is_boolean (option_map (λ v. view v.now) value.entry) }
{
    let Some(value) = value else {
        return true;
    };
    value.is_boolean() || is_truth(value.as_str())
}

fn within(bounds: Bounds, number: u64) -> Option<u32>
    ensures { result ≡ within bounds number }
{
    if u64::from(bounds.least) <= number && number <= u64::from(bounds.most) {
        Some(number as u32)
    } else {
        None
    }
}

#[tactic(auto, unfolding(crate::specs::Create::number_in))]
fn number_in(bounds: Bounds, text: &str) -> Option<u32>
    ensures { result ≡ number_in bounds text.now }
{
    if text == "-1" {
        return Some(bounds.usual);
    }
    if text.is_empty() || !are_digits(text) {
        return None;
    }
    within(bounds, digit_number(text)?)
}

/// The number that a JSON integer is.
fn number_at(bounds: Bounds, value: &Value) -> Option<u32>
    ensures { result ≡ option_and_then (number_at bounds) (as_number (view value.now)) }
{
    if value.as_i64() == Some(-1) {
        return Some(bounds.usual);
    }
    within(bounds, value.as_u64()?)
}

#[tactic(auto, unfolding(crate::specs::Create::number_of))]
fn number_of(bounds: Bounds, value: Option<&Value>) -> Option<u32>
    ensures { result ≡ number_of bounds (option_map (λ v. view v.now) value.entry) }
{
    let Some(value) = value else {
        return Some(bounds.usual);
    };
    match value.as_str() {
        Some(text) => number_in(bounds, text),
        None => number_at(bounds, value),
    }
}

const BYTES: Bounds = Bounds {
    least: 1,
    most: 4_194_304,
    usual: 1,
};

const WAIT_MS: Bounds = Bounds {
    least: 0,
    most: 30_000,
    usual: 1_000,
};

/// The settings of a body. None where one of them isn't allowed.
#[tactic(auto, unfolding(crate::specs::Create::settings_in))]
fn settings_in(object: &Value) -> Option<Settings>
    ensures { option_map settings_of result ≡ settings_in (view object.now) }
{
    let format = format_in(member_of(object, "format"))?;
    if !is_boolean(member_of(object, "auto.commit.enable")) {
        return None;
    }
    let reset = reset_of(member_of(object, "auto.offset.reset"))?;
    let min_bytes = number_of(BYTES, member_of(object, "fetch.min.bytes"))?;
    let timeout_ms = number_of(WAIT_MS, member_of(object, "consumer.request.timeout.ms"))?;
    Some(Settings {
        format,
        reset,
        min_bytes,
        timeout_ms,
    })
}

#[tactic(auto, unfolding(crate::specs::Create::created_by))]
fn created_by(alloc: Global, body: &Value) -> Result<Created, Unread>
    ensures { Gives created_view result (λ r. r ≡ created_by (Some (view body.now))) }
{
    if !body.is_object() {
        return Err(Unread::Unreadable);
    }
    let name = name_of(alloc, member_of(body, "name"))?;
    match settings_in(body) {
        Some(settings) => Ok(Created { name, settings }),
        None => Err(Unread::Invalid),
    }
}

/// What is asked where the body is empty.
fn usual() -> Created
    ensures { created_view result ≡ ([], usual_settings) }
{
    Created {
        name: None,
        settings: Settings {
            format: Format::Binary,
            reset: Edge::End,
            min_bytes: BYTES.usual,
            timeout_ms: WAIT_MS.usual,
        },
    }
}

/// Reads the body of a request for a new instance.
pub(crate) fn read_create(alloc: Global, body: &[u8]) -> Result<Created, Unread>
    ensures { Gives created_view result (CreatedAs body.now) }
{
    if body.is_empty() {
        return Ok(usual());
    }
    let value = match json_of(alloc, body) {
        Ok(value) => value,
        Err(e) => return Err(e),
    };
    created_by(alloc, &value)
}
