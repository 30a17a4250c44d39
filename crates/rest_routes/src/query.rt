ghost use Rattle.std.specs.Prelude.{◌≡◌, IfOk, option_map};
ghost use Rattle.std.specs.Cow.{cow_str_bytes};
ghost use Rattle.std.specs.Str.{bytes_eq};
ghost use Rattle.form_urlencoded.specs.Form as form;
ghost use Rattle.rest_routes.specs.Query.{amount_of, first_value, given_in, limits_of, text_of};

use crate::digits::{are_digits, number_in};
use form_urlencoded::{decode, raw_pairs};
use std::alloc::{AllocError, Global};
use std::borrow::CowStr;

/// The longest wait in milliseconds, and the most bytes, of a read of records: where the query
/// gives them.
#[derive(Clone, Copy, Debug)]
pub struct Limits {
    pub timeout: Option<u64>,
    pub max_bytes: Option<u64>,
}

/// What a name or a value of a query stands for: `+` is a space, escapes are decoded, and bytes that
/// are no UTF-8 are replaced.
fn text_of(alloc: Global, bytes: &[u8]) -> Result<CowStr<'_>, AllocError>
    ensures { IfOk result (λ text. cow_str_bytes text ≡ text_of bytes.now) }
{
    decode(alloc, bytes)
}

/// A name or a value of a query is this text.
fn is_text(alloc: Global, text: &str, bytes: &[u8]) -> Result<bool, AllocError>
    ensures { IfOk result (λ is. is ≡ bytes_eq (text_of bytes.now) text.now) }
{
    let found = text_of(alloc, bytes)?;
    Ok(found.as_str() == text)
}

/// The value of the first field of that name, still encoded.
fn first_value<'a>(
    alloc: Global,
    name: &str,
    query: &'a [u8],
) -> Result<Option<&'a [u8]>, AllocError>
    ensures { IfOk result (λ value. option_map (λ v. v.now) value ≡ first_value name.now (form.raw_pairs query.now)) }
{
    let mut fields = raw_pairs(query);
    while let Some((found, value)) = fields.next() {
        if is_text(alloc, name, found)? {
            return Ok(Some(value));
        }
    }
    Ok(None)
}

/// 1 to 18 decimal digits write a number.
#[tactic(auto, unfolding(crate::specs::Query::amount_of))]
fn amount_of(digits: &str) -> Option<u64>
    ensures { result ≡ amount_of digits.now }
{
    if digits.is_empty() || digits.len() > 18 || !are_digits(digits) {
        return None;
    }
    number_in(digits)
}

/// The number under that name, where the query gives one. None where what it gives is no number.
#[tactic(auto, unfolding(crate::specs::Query::given_in))]
fn given_in(alloc: Global, name: &str, query: &str) -> Result<Option<Option<u64>>, AllocError>
    ensures { IfOk result (λ given. given ≡ given_in name.now query.now) }
{
    let Some(value) = first_value(alloc, name, query.as_bytes())? else {
        return Ok(Some(None));
    };
    let digits = text_of(alloc, value)?;
    match amount_of(digits.as_str()) {
        Some(amount) => Ok(Some(Some(amount))),
        None => Ok(None),
    }
}

/// The limits that a query gives. None where one of them doesn't read.
#[tactic(auto, unfolding(crate::specs::Query::limits_of))]
pub fn limits_of(alloc: Global, query: &str) -> Result<Option<Limits>, AllocError>
    ensures { IfOk result (λ limits. limits ≡ limits_of query.now) }
{
    let timeout = given_in(alloc, "timeout", query)?;
    let max_bytes = given_in(alloc, "max_bytes", query)?;
    match (timeout, max_bytes) {
        (Some(timeout), Some(max_bytes)) => Ok(Some(Limits { timeout, max_bytes })),
        _ => Ok(None),
    }
}
