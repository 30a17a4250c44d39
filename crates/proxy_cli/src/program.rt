ghost use Rattle.std.specs.Prelude.{◌≡◌, ℕ, Err, map, string_bytes};
ghost use Rattle.gate_io.specs.Counts.{Rose};
ghost use Rattle.broker_link.specs.Made.{ArePlans};
ghost use Rattle.http_conn.specs.declared.request.ConnNo.TheVariants.{WriteFault, ReadFault};
ghost use Rattle.proxy_cli.specs.Causes.{SinkFailed};
ghost use Rattle.proxy_cli.specs.Program.{SessionRan};
ghost use Rattle.proxy_cli.specs.Session.{IsRunOf, Serves};
ghost use Rattle.proxy_cli.specs.Status.{served_status};
ghost use Rattle.command_words.specs.Words.{advertise_of, plans_of};

use crate::ended::Ended;
use crate::session::serve_stream;
use broker_link::MemLink;
use command_words::{Command, WordNo, read_words};
use desk::AloneDesk;
use gate_io::{Clock, Sink, Source, Text, Want, write_all};
use http_conn::ConnNo;
use std::alloc::{AllocError, Global};

fn say<E: Sink>(err: &mut E, text: &[u8]) {
    let _ = write_all(err, text);
    let _ = write_all(err, b"\n");
}

fn topics_in(command: &Command) -> &[(Text, u32)]
    ensures { result.now ≡ plans_of command.now }
{
    match command {
        Command::Session(session) => session.topics.as_slice(),
    }
}

/// The host and port at which clients reach the gateway.
fn advertise_in(command: &Command) -> &str
    ensures { result.now ≡ advertise_of command.now }
{
    match command {
        Command::Session(session) => session.advertise.as_str(),
    }
}

fn status_of<E: Sink>(err: &mut E, served: Result<Ended, ConnNo>) -> u8
    ensures { result ≡ served_status served }
{
    match served {
        Ok(_ended) => 0,
        Err(ConnNo::ReadFault) => {
            say(err, b"read fault");
            3
        }
        Err(ConnNo::WriteFault(_)) => {
            say(err, b"write fault");
            4
        }
        Err(ConnNo::Want) => {
            say(err, b"out of memory");
            7
        }
    }
}

/// Serves the requests of a source by a command, over a log in memory of its own.
fn serve_command<S: Source, K: Sink, C: Clock>(
    alloc: Global,
    command: &Command,
    src: &mut S,
    sink: &mut K,
    clock: &mut C,
) -> Result<Ended, ConnNo>
    requires { ArePlans (plans_of command.now) }
    ensures serves { IsRunOf command.now (C.tells clock.old) (C.hand clock.old) (C.hand clock.new) (λ answers. Serves S.left S.asked src.old src.new answers (K.held sink.old) (K.held sink.new) result) }
    ensures read { result ≡ Err ReadFault → Rose (S.faults src.old) (S.faults src.new) }
    ensures write { (n : ℕ) → result ≡ Err (WriteFault n) → SinkFailed K.faults K.stalls sink.old sink.new }
{
    let link = match MemLink::new(alloc, topics_in(command)) {
        Ok(link) => link,
        Err(Want) => return Err(ConnNo::Want),
    };
    let advertise = match Text::from_str(alloc, advertise_in(command)) {
        Ok(advertise) => advertise,
        Err(AllocError) => return Err(ConnNo::Want),
    };
    let mut desk = AloneDesk::new(alloc, link, advertise);
    serve_stream(alloc, src, sink, &mut desk, clock)
}

/// Serves the requests of a source by the words of `session`, and answers the status: 0 where the
/// input was read to its end, its limit or its first bad place, 2 where the words don't read, 3
/// where the source failed, 4 where the sink failed or took nothing, 7 for want of memory. One line
/// goes to `err` with each status but 0.
pub fn run_session<S: Source, K: Sink, E: Sink, C: Clock>(
    alloc: Global,
    words: &[String],
    src: &mut S,
    sink: &mut K,
    err: &mut E,
    clock: &mut C,
) -> u8
    ensures session { SessionRan S.left S.asked S.faults K.held K.faults K.stalls C.tells C.hand (map string_bytes words.now) src.old src.new sink.old sink.new clock.old clock.new result }
{
    match read_words(alloc, words) {
        Ok(command) => {
            let served = serve_command(alloc, &command, src, sink, clock);
            status_of(err, served)
        }
        Err(WordNo::Bad(text)) => {
            say(err, text.as_bytes());
            2
        }
        Err(WordNo::Want) => {
            say(err, b"out of memory");
            7
        }
    }
}

/// Runs the command that the words ask for: `session` alone, as `run_session` does.
pub fn run<S: Source, K: Sink, E: Sink, C: Clock>(
    alloc: Global,
    words: &[String],
    src: &mut S,
    sink: &mut K,
    err: &mut E,
    clock: &mut C,
) -> u8
    ensures session { SessionRan S.left S.asked S.faults K.held K.faults K.stalls C.tells C.hand (map string_bytes words.now) src.old src.new sink.old sink.new clock.old clock.new result }
{
    run_session(alloc, words, src, sink, err, clock)
}
