ghost use Rattle.std.specs.Prelude.{◌≡◌, ◌≢◌, false, None, IfOk, codes, map, option_map, string_bytes};
ghost use Rattle.clap.specs.Words.{all_of, app_of, first_of, found_of, kind_of, new_app, rows_of, rule_of};
ghost use Rattle.command_words.specs.Apps.{bare, rows_in, session_app, topics};

use clap::error::ErrorKind;
use clap::{Arg, ArgAction, ArgMatches, Command, Error};
use std::alloc::{AllocError, Global};

/// A command of this name without options.
fn bare<'a>(alloc: Global, name: &'a str) -> Command<'a>
    ensures { app_of result ≡ bare (new_app name.entry.now) }
{
    Command::new(alloc, name)
        .no_binary_name(true)
        .disable_help_flag(true)
        .disable_version_flag(true)
}

/// The words that aren't options.
fn topics_option<'a>(alloc: Global) -> Arg<'a>
    ensures rule { rule_of result ≡ topics }
    ensures local { result.global ≡ false }
{
    Arg::new(alloc, "topics")
        .action(ArgAction::Append)
        .num_args(1..)
        .required(true)
}

/// The options and topics of `session`.
fn session_app<'a>(alloc: Global) -> Result<Command<'a>, AllocError>
    ensures { IfOk result (λ c. app_of c ≡ session_app) }
{
    let advertise = Arg::new(alloc, "advertise")
        .long("advertise")
        .action(ArgAction::Set);
    let command = bare(alloc, "session").arg(advertise)?;
    command.arg(topics_option(alloc))
}

/// The words that aren't those of a session, or want of memory.
fn refused<'a>(error: Error) -> Result<Option<ArgMatches<'a>>, AllocError>
    ensures { IfOk result (λ matches. (matches ≡ None) × (kind_of error ≢ ErrorKind.OutOfMemory)) }
{
    if error.kind() == ErrorKind::OutOfMemory {
        Err(AllocError)
    } else {
        Ok(None)
    }
}

/// What the words behind `session` give its options and topics. None where they aren't of a session.
pub(crate) fn session_matches<'a>(
    alloc: Global,
    words: &'a [String],
) -> Result<Option<ArgMatches<'a>>, AllocError>
    ensures { IfOk result (λ matches. option_map (λ m. rows_of (found_of m)) matches
        ≡ rows_in session_app (map string_bytes words.entry.now)) }
{
    let app = session_app(alloc)?;
    match app.try_get_matches_from(words) {
        Ok(matches) => Ok(Some(matches)),
        Err(error) => refused(error),
    }
}

/// The value of `--advertise`, where it is given.
pub(crate) fn advertise<'a>(matches: &ArgMatches<'a>) -> Option<&'a str>
    ensures { option_map (λ s. s.now) result ≡ first_of (codes "advertise") (rows_of (found_of matches.now)) }
{
    matches.get_str("advertise")
}

/// The words that aren't options.
pub(crate) fn topics<'m, 'a>(matches: &'m ArgMatches<'a>) -> Option<&'m [&'a str]>
    ensures { option_map (λ s. map (λ v. v.now) s.now) result
        ≡ all_of (codes "topics") (rows_of (found_of matches.now)) }
{
    matches.get_strs("topics")
}
