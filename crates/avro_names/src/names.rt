ghost use Rattle.std.specs.Prelude.{◌≡◌, ◌-◌, ◌≤◌, length, take, drop, IfOk, IfErr, true};
ghost use Rattle.avro_names.specs.Names.{is_letter, is_letter_or_digit, has_dot, is_tail, is_part, are_parts, namespace_of, last_part, in_namespace, is_float, is_primitive, is_definable};

use crate::error::SchemaNo;
use gate_io::Text;
use std::alloc::Global;

fn is_letter(byte: u8) -> bool
    ensures { result ≡ is_letter byte }
{
    (65 <= byte && byte <= 90) || (97 <= byte && byte <= 122) || byte == 95
}

fn is_letter_or_digit(byte: u8) -> bool
    ensures { result ≡ is_letter_or_digit byte }
{
    is_letter(byte) || (48 <= byte && byte <= 57)
}

/// The name has a dot, so it is a fullname.
pub(crate) fn has_dot(name: &[u8]) -> bool
    ensures { result ≡ has_dot name.now }
{
    for byte in name {
        if *byte == 46 {
            return true;
        }
    }
    false
}

/// Letters, `_` and digits from the place on.
fn is_tail(name: &[u8]) -> bool
    ensures { result ≡ is_tail name.now }
{
    for byte in name {
        if !is_letter_or_digit(*byte) {
            return false;
        }
    }
    true
}

/// A letter or `_`, and then letters, `_` and digits.
pub(crate) fn is_part(name: &[u8]) -> bool
    ensures { result ≡ is_part name.now }
{
    match name {
        [] => false,
        [first, rest @ ..] => is_letter(*first) && is_tail(rest),
    }
}

/// One part or more, with a dot between them.
fn are_parts(name: &[u8]) -> bool
    ensures { result ≡ are_parts name.now }
{
    let mut begins = true;
    for byte in name {
        if begins {
            if !is_letter(*byte) {
                return false;
            }
            begins = false;
        } else if *byte == 46 {
            begins = true;
        } else if !is_letter_or_digit(*byte) {
            return false;
        }
    }
    !begins
}

/// Where the part behind the last dot begins: at 0, where there is no dot.
fn last_begin(name: &[u8]) -> usize
    ensures inside { result ≤ length name.now }
    ensures last { last_part name.now ≡ drop result name.now }
    ensures before { namespace_of name.now ≡ take (result - 1) name.now }
{
    let mut place = name.len();
    while 0 < place {
        if name[place - 1] == 46 {
            return place;
        }
        place -= 1;
    }
    0
}

/// What stands before the last dot.
pub fn namespace_of(name: &str) -> &str
    requires { are_parts name.now ≡ true }
    ensures { result.now ≡ namespace_of name.now }
{
    let bytes = name.as_bytes();
    let begin = last_begin(bytes);
    if begin == 0 {
        return "";
    }
    unsafe { std::str::from_utf8_unchecked(&bytes[..begin - 1]) }
}

/// What stands behind the last dot.
fn last_part(name: &str) -> &str
    requires { are_parts name.now ≡ true }
    ensures { result.now ≡ last_part name.now }
{
    let bytes = name.as_bytes();
    let begin = last_begin(bytes);
    unsafe { std::str::from_utf8_unchecked(&bytes[begin..]) }
}

/// `float` or `double`, which aren't read.
pub fn is_float(name: &str) -> bool
    ensures { result ≡ is_float name.now }
{
    name == "float" || name == "double"
}

/// The name of a primitive type.
fn is_primitive(name: &str) -> bool
    ensures { result ≡ is_primitive name.now }
{
    name == "null"
        || name == "boolean"
        || name == "int"
        || name == "long"
        || name == "bytes"
        || name == "string"
        || is_float(name)
}

/// A fullname that a schema may define.
#[tactic(auto, unfolding(crate::specs::Names::is_definable))]
pub(crate) fn is_definable(name: &str) -> bool
    ensures { result ≡ is_definable name.now }
{
    if !are_parts(name.as_bytes()) {
        return false;
    }
    !is_primitive(last_part(name)) && !(name == "array" || name == "map")
}

/// A name in a namespace, where there is one.
pub(crate) fn in_namespace(alloc: Global, namespace: &str, name: &str) -> Result<Text, SchemaNo>
    ensures ok { IfOk result (λ t. t ≡ in_namespace namespace.now name.now) }
    ensures want { IfErr result (λ e. e ≡ SchemaNo.Want) }
{
    let mut text = Text::from_str(alloc, namespace)?;
    if namespace.len() != 0 {
        text.push_str(".")?;
    }
    text.push_str(name)?;
    Ok(text)
}
