ghost use Rattle.std.specs.Prelude.{◌≡◌, ◌<◌, ◌^◌, length, IfOk, IsTrue, SomeIff, map};
ghost use Rattle.std.specs.List.{list_all};
ghost use Rattle.std.specs.Char.{is_ascii_digit};
ghost use Rattle.std.specs.Str.Parse.{digits_value};
ghost use Rattle.command_words.specs.Topics.{is_given_name, count_in, topic_of, topics_of, topics_in, has_name, are_apart};

use gate_io::{Items, Text};
use rest_routes::is_topic_name;
use std::alloc::{AllocError, Global};

#[tactic(auto, unfolding(crate::specs::Topics::is_given_name))]
fn is_given_name(name: &str) -> bool
    ensures { result ≡ is_given_name name.now }
{
    is_topic_name(name) && name != "." && name != ".."
}

fn are_digits(text: &str) -> bool
    ensures { result ≡ list_all is_ascii_digit text.now }
{
    text.as_bytes().iter().all(|b| b.is_ascii_digit())
}

/// The number that digits write. None where it is past 32 bits.
fn number_in(digits: &str) -> Option<u32>
    requires filled { 0 < length digits.now }
    requires digits { IsTrue (list_all is_ascii_digit digits.now) }
    ensures { SomeIff result (digits_value 10 digits.now < 2 ^ 32) (digits_value 10 digits.now) }
{
    digits.parse().ok()
}

#[tactic(auto, unfolding(crate::specs::Topics::count_in))]
fn count_in(digits: &str) -> Option<u32>
    ensures { result ≡ count_in digits.now }
{
    if digits.is_empty() || digits.len() > 10 {
        return None;
    }
    if !are_digits(digits) {
        return None;
    }
    let count = number_in(digits)?;
    if 1 <= count && count <= 64 {
        Some(count)
    } else {
        None
    }
}

/// A topic and the number of its partitions. None where the word isn't TOPIC:PARTS.
#[tactic(auto, unfolding(crate::specs::Topics::topic_of))]
fn topic_of(alloc: Global, word: &str) -> Result<Option<(Text, u32)>, AllocError>
    ensures { IfOk result (λ topic. topic ≡ topic_of word.now) }
{
    let Some((name, digits)) = word.split_once(':') else {
        return Ok(None);
    };
    if !is_given_name(name) {
        return Ok(None);
    }
    let Some(count) = count_in(digits) else {
        return Ok(None);
    };
    Ok(Some((Text::from_str(alloc, name)?, count)))
}

fn topics_of(alloc: Global, words: &[&str]) -> Result<Option<Items<(Text, u32)>>, AllocError>
    ensures { IfOk result (λ topics. topics ≡ topics_of (map (λ w. w.now) words.now)) }
{
    let mut topics = Vec::with_capacity(alloc, words.len())?;
    for word in words {
        let Some(topic) = topic_of(alloc, word)? else {
            return Ok(None);
        };
        topics.push(topic)?;
    }
    Ok(Some(Items::from_vec(topics)))
}

fn has_name(topics: &[(Text, u32)], name: &str) -> bool
    ensures { result ≡ has_name name.now topics.now }
{
    topics.iter().any(|topic| topic.0.as_str() == name)
}

fn are_apart(topics: &[(Text, u32)]) -> bool
    ensures { result ≡ are_apart topics.now }
{
    for (place, topic) in topics.iter().enumerate() {
        if has_name(&topics[place + 1..], topic.0.as_str()) {
            return false;
        }
    }
    true
}

/// The topics of 1 to 16 words with different names. None where a word is no topic, or there are
/// more or fewer.
#[tactic(auto, unfolding(crate::specs::Topics::topics_in))]
pub(crate) fn topics_in(
    alloc: Global,
    words: &[&str],
) -> Result<Option<Items<(Text, u32)>>, AllocError>
    ensures { IfOk result (λ topics. topics ≡ topics_in (map (λ w. w.now) words.now)) }
{
    if words.is_empty() || words.len() > 16 {
        return Ok(None);
    }
    let Some(topics) = topics_of(alloc, words)? else {
        return Ok(None);
    };
    if are_apart(topics.as_slice()) {
        Ok(Some(topics))
    } else {
        Ok(None)
    }
}
