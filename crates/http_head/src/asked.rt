ghost use Rattle.std.specs.Prelude.{◌≡◌, ◌≤◌, length, drop, IsUtf8, true, codes};
ghost use Rattle.std.specs.List.{list_all, position_or_len};
ghost use Rattle.http_head.specs.Asked.{is_plain, begins_with, is_served, ends_authority, behind_authority, or_slash, asked_in};

use std::str;

fn are_plain(bytes: &[u8]) -> bool
    ensures { result ≡ list_all is_plain bytes.now }
{
    bytes.iter().all(|b| *b < 128)
}

fn begins_with(front: &[u8], bytes: &[u8]) -> bool
    ensures { result ≡ begins_with front.now bytes.now }
{
    bytes.starts_with(front)
}

/// The target is ASCII, and begins with a slash or with the scheme.
pub(crate) fn is_served(target: &[u8]) -> bool
    ensures { result ≡ is_served target.now }
{
    are_plain(target) && (begins_with(b"/", target) || begins_with(b"http://", target))
}

fn ends_authority(byte: u8) -> bool
    ensures { result ≡ ends_authority byte }
{
    byte == b'/' || byte == b'?' || byte == b'#'
}

/// The place of the end of the authority, or the length.
fn authority_end(bytes: &[u8]) -> usize
    ensures value { result ≡ position_or_len ends_authority bytes.now }
    ensures bound { result ≤ length bytes.now }
{
    let mut place = 0;
    while place < bytes.len() {
        if ends_authority(bytes[place]) {
            return place;
        }
        place += 1;
    }
    place
}

fn behind_authority(bytes: &[u8]) -> &[u8]
    ensures { result.now ≡ behind_authority bytes.now }
{
    &bytes[authority_end(bytes)..]
}

fn or_slash(bytes: &[u8]) -> &[u8]
    ensures { result.now ≡ or_slash bytes.now }
{
    if bytes.is_empty() { b"/" } else { bytes }
}

/// The target without its scheme and authority.
#[tactic(auto, unfolding(crate::specs::Asked::asked_in))]
fn asked_in(target: &[u8]) -> &[u8]
    ensures { result.now ≡ asked_in target.now }
{
    if begins_with(b"http://", target) {
        or_slash(behind_authority(&target[7..]))
    } else {
        target
    }
}

fn text_of(bytes: &[u8]) -> &str
    requires { IsUtf8 bytes.now }
    ensures { result.now ≡ bytes.now }
{
    str::from_utf8(bytes).unwrap()
}

/// The text of what a target that is served asks for.
pub fn asked_text(target: &[u8]) -> &str
    requires { is_served target.now ≡ true }
    ensures { result.now ≡ asked_in target.now }
{
    text_of(asked_in(target))
}
