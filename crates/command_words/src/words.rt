ghost use Rattle.std.specs.Prelude.{◌≡◌, IfOk, map, string_bytes};
ghost use Rattle.std.specs.List.{list_any};
ghost use Rattle.broker_link.specs.Made.{ArePlans};
ghost use Rattle.clap.specs.Words.{found_of, rows_of};
ghost use Rattle.command_words.specs.Words.{advertised_in, is_dash, plans_of, session_in, session_of, words_of};
ghost use Rattle.command_words.specs.WordsRead.{WordsRead};

use crate::app::{advertise, session_matches, topics};
use crate::topic::topics_in;
use clap::ArgMatches;
use gate_io::{Items, Text};
use std::alloc::{AllocError, Global};

const USAGE: &str = "usage: restgate session [--advertise HOST:PORT] TOPIC:PARTS [TOPIC:PARTS ..]";

/// The name that instances are told where none is given.
const ADVERTISE: &str = "localhost:8082";

/// What the words ask for.
#[derive(Debug, Drop)]
pub enum Command {
    Session(SessionWords),
}

/// A session: the file of its schemas (none: they stay in memory), the host and port that replies
/// name, and its topics with their numbers of partitions.
#[derive(Debug, Drop)]
pub struct SessionWords {
    pub schemas: Option<Text>,
    pub advertise: Text,
    pub topics: Items<(Text, u32)>,
}

/// Why words don't read: they ask for no command, with the text to show, or there was no memory.
#[derive(Debug, Drop)]
pub enum WordNo {
    Bad(Text),
    Want,
}

/// A word is a dash alone.
fn has_dash(words: &[String]) -> bool
    ensures { result ≡ list_any is_dash (map string_bytes words.now) }
{
    for word in words {
        if word.as_str() == "-" {
            return true;
        }
    }
    false
}

fn advertised<'a>(matches: &ArgMatches<'a>) -> &'a str
    ensures { result.now ≡ advertised_in (rows_of (found_of matches.now)) }
{
    match advertise(matches) {
        Some(name) => name,
        None => ADVERTISE,
    }
}

/// The session of what the words give.
#[tactic(auto, unfolding(crate::specs::Words::session_in))]
fn session_in(alloc: Global, matches: &ArgMatches<'_>) -> Result<Option<Command>, AllocError>
    ensures { IfOk result (λ command. command ≡ session_in (rows_of (found_of matches.now))) }
{
    let name = advertised(matches);
    if name.is_empty() {
        return Ok(None);
    }
    let Some(words) = topics(matches) else {
        return Ok(None);
    };
    let Some(topics) = topics_in(alloc, words)? else {
        return Ok(None);
    };
    Ok(Some(Command::Session(SessionWords {
        schemas: None,
        advertise: Text::from_str(alloc, name)?,
        topics,
    })))
}

#[tactic(auto, unfolding(crate::specs::Words::session_of))]
fn session_of(alloc: Global, words: &[String]) -> Result<Option<Command>, AllocError>
    ensures { IfOk result (λ command. command ≡ session_of (map string_bytes words.now)) }
{
    if has_dash(words) {
        return Ok(None);
    }
    match session_matches(alloc, words)? {
        Some(matches) => session_in(alloc, &matches),
        None => Ok(None),
    }
}

#[tactic(auto, unfolding(crate::specs::Words::words_of))]
fn command_of(alloc: Global, words: &[String]) -> Result<Option<Command>, AllocError>
    ensures { IfOk result (λ command. command ≡ words_of (map string_bytes words.now)) }
{
    match words.split_first() {
        Some((command, words)) if command.as_str() == "session" => session_of(alloc, words),
        _ => Ok(None),
    }
}

/// Reads the words behind the program's name.
pub fn read_words(alloc: Global, words: &[String]) -> Result<Command, WordNo>
    ensures words { WordsRead result (words_of (map string_bytes words.now)) }
    ensures plans { IfOk result (λ command. ArePlans (plans_of command)) }
{
    match command_of(alloc, words) {
        Ok(Some(command)) => Ok(command),
        Ok(None) => match Text::from_str(alloc, USAGE) {
            Ok(text) => Err(WordNo::Bad(text)),
            Err(AllocError) => Err(WordNo::Want),
        },
        Err(AllocError) => Err(WordNo::Want),
    }
}
