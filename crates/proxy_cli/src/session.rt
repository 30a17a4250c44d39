ghost use Rattle.std.specs.Prelude.{◌≡◌, ◌≢◌, ◌≤◌, ◌||◌, ℕ, Ok, Err, true, false, IfOk, OnOk, OnErr};
ghost use Rattle.gate_io.specs.Counts.{Rose};
ghost use Rattle.http_conn.specs.declared.request.ConnNo.TheVariants.{WriteFault, ReadFault};
ghost use Rattle.http_conn.specs.Told.{LastRead};
ghost use Rattle.http_conn.specs.Next.{NeedsMore, StandsSo};
ghost use Rattle.proxy_cli.specs.Causes.{SinkFailed, SinkGoes};
ghost use Rattle.proxy_cli.specs.Served.{DeskGoes, Exchanges, ExchangesAll, IsIdle, IsKnown, OrWant};
ghost use Rattle.proxy_cli.specs.Session.{Serves};
ghost use Rattle.proxy_cli.specs.Exchange.{Finds, Sends, Turns};

use crate::answer::answer;
use crate::ended::{EndWhy, Ended};
use broker_link::Link;
use desk::AloneDesk;
use gate_io::{Clock, Sink, Source, Want};
use http_conn::{ConnNo, Connection, Next, Request, interim_response};
use rest_codes::{Reply, response_bytes, want_response};
use rest_routes::Routes;
use std::alloc::Global;

const MAX_REQUESTS: u32 = 100_000;

/// Sends the response to a reply. Where its bytes find no memory, that of want of memory is sent in its place.
fn send<K: Sink>(
    alloc: Global,
    connection: &mut Connection,
    sink: &mut K,
    reply: &Reply,
    close: bool,
) -> Result<(), ConnNo>
    ensures same { connection.new ≡ connection.old }
    ensures sent { Sends (OrWant reply.now) close (K.held sink.old) (K.held sink.new) result }
    ensures only { OnErr result ((n : ℕ) × (result ≡ Err (WriteFault n))) }
    ensures cause { OnErr result (SinkFailed K.faults K.stalls sink.old sink.new) }
    ensures counts { SinkGoes K.faults K.stalls sink.old sink.new }
{
    match response_bytes(alloc, reply, close) {
        Ok(bytes) => connection.send(sink, bytes.as_slice()),
        Err(Want) => connection.send(sink, want_response(close)),
    }
}

/// Answers a request and sends its response.
fn exchange<K: Sink, L: Link + Drop, C: Clock>(
    alloc: Global,
    connection: &mut Connection,
    sink: &mut K,
    desk: &mut AloneDesk<L>,
    clock: &mut C,
    routes: &Routes,
    request: &Request,
    close: bool,
) -> Result<(), ConnNo>
    ensures same { connection.new ≡ connection.old }
    ensures sent { IsKnown L.stand desk.old → Sends (Exchanges L.stand C.tells C.hand desk.old clock.old desk.new clock.new request.now) close (K.held sink.old) (K.held sink.new) result }
    ensures only { OnErr result ((n : ℕ) × (result ≡ Err (WriteFault n))) }
    ensures cause { OnErr result (SinkFailed K.faults K.stalls sink.old sink.new) }
    ensures counts { SinkGoes K.faults K.stalls sink.old sink.new }
    ensures goes { DeskGoes L.stand C.tells desk.old clock.old desk.new clock.new }
{
    let reply = answer(alloc, desk, clock, routes, request);
    send(alloc, connection, sink, &reply, close)
}

/// The response to this request closes.
fn closes(request: &Request, is_last: bool) -> bool
    ensures { result ≡ (request.now.close || is_last) }
{
    request.close || is_last
}

/// Reads the next request, or why there is none. Where the interim response is due, it is written
/// before anything behind the head is read.
fn read_next<S: Source, K: Sink>(
    alloc: Global,
    connection: &mut Connection,
    source: &mut S,
    sink: &mut K,
) -> Result<Next, ConnNo>
    requires over { connection.old.over ≡ false }
    requires fresh { connection.old.continued ≡ false }
    ensures found { Finds (LastRead S.left S.asked connection.old.held source.old source.new (NeedsMore false)) connection.old connection.new (S.left source.old) (S.left source.new) (K.held sink.old) (K.held sink.new) result }
    ensures settled { result ≢ Ok Next.Continue }
    ensures stands { IfOk result (λ next. StandsSo connection.new (Ok next)) }
    ensures patient { LastRead S.left S.asked connection.old.held source.old source.new (NeedsMore true) }
    ensures read { result ≡ Err ReadFault → Rose (S.faults source.old) (S.faults source.new) }
    ensures write { (n : ℕ) → result ≡ Err (WriteFault n) → SinkFailed K.faults K.stalls sink.old sink.new }
    ensures counts { (S.faults source.old ≤ S.faults source.new) × SinkGoes K.faults K.stalls sink.old sink.new }
{
    match connection.next(alloc, source) {
        Ok(Next::Continue) => match connection.send(sink, interim_response()) {
            Ok(()) => connection.next(alloc, source),
            Err(e) => Err(e),
        },
        Ok(Next::Ready(request)) => Ok(Next::Ready(request)),
        Ok(Next::End) => Ok(Next::End),
        Ok(Next::CutShort) => Ok(Next::CutShort),
        Ok(Next::Bad(reply)) => Ok(Next::Bad(reply)),
        Err(e) => Err(e),
    }
}

/// Serves one request. Some where there is no further one, with the reason.
fn serve_one<S: Source, K: Sink, L: Link + Drop, C: Clock>(
    alloc: Global,
    connection: &mut Connection,
    source: &mut S,
    sink: &mut K,
    desk: &mut AloneDesk<L>,
    clock: &mut C,
    routes: &Routes,
    close: bool,
) -> Result<Option<EndWhy>, ConnNo>
    requires over { connection.old.over ≡ false }
    requires fresh { connection.old.continued ≡ false }
    ensures turn { IsKnown L.stand desk.old → Turns (Exchanges L.stand C.tells C.hand desk.old clock.old desk.new clock.new) (IsIdle desk.old clock.old desk.new clock.new) (LastRead S.left S.asked connection.old.held source.old source.new (NeedsMore false)) connection.old connection.new (S.left source.old) (S.left source.new) (K.held sink.old) (K.held sink.new) close result }
    ensures fresh { OnOk result (connection.new.continued ≡ false) }
    ensures patient { LastRead S.left S.asked connection.old.held source.old source.new (NeedsMore true) }
    ensures read { result ≡ Err ReadFault → Rose (S.faults source.old) (S.faults source.new) }
    ensures write { (n : ℕ) → result ≡ Err (WriteFault n) → SinkFailed K.faults K.stalls sink.old sink.new }
    ensures counts { (S.faults source.old ≤ S.faults source.new) × SinkGoes K.faults K.stalls sink.old sink.new }
    ensures goes { DeskGoes L.stand C.tells desk.old clock.old desk.new clock.new }
{
    match read_next(alloc, connection, source, sink) {
        Ok(Next::Ready(request)) => {
            let close = closes(&request, close);
            match exchange(
                alloc, connection, sink, desk, clock, routes, &request, close,
            ) {
                Ok(()) => Ok(None),
                Err(e) => Err(e),
            }
        }
        Ok(Next::Continue) => Ok(Some(EndWhy::End)),
        Ok(Next::End) => Ok(Some(EndWhy::End)),
        Ok(Next::CutShort) => Ok(Some(EndWhy::CutShort)),
        Ok(Next::Bad(reply)) => match send(alloc, connection, sink, &reply, true) {
            Ok(()) => Ok(Some(EndWhy::BadPlace)),
            Err(e) => Err(e),
        },
        Err(e) => Err(e),
    }
}

/// Serves the requests of a source in turn, and writes their responses. A failed read or write and
/// want of memory end it; what was answered until then has had its effect. Where nothing fails, it
/// tells how many requests were answered, and why there is no further one.
pub fn serve_stream<S: Source, K: Sink, L: Link + Drop, C: Clock>(
    alloc: Global,
    source: &mut S,
    sink: &mut K,
    desk: &mut AloneDesk<L>,
    clock: &mut C,
) -> Result<Ended, ConnNo>
    ensures serves { IsKnown L.stand desk.old → Serves S.left S.asked source.old source.new (ExchangesAll L.stand C.tells C.hand desk.old clock.old desk.new clock.new) (K.held sink.old) (K.held sink.new) result }
    ensures read { result ≡ Err ReadFault → Rose (S.faults source.old) (S.faults source.new) }
    ensures write { (n : ℕ) → result ≡ Err (WriteFault n) → SinkFailed K.faults K.stalls sink.old sink.new }
{
    let mut connection = match Connection::new(alloc) {
        Ok(connection) => connection,
        Err(Want) => return Err(ConnNo::Want),
    };
    let routes = match Routes::new(alloc) {
        Ok(routes) => routes,
        Err(Want) => return Err(ConnNo::Want),
    };
    for count in 0..MAX_REQUESTS {
        if connection.is_over() {
            let requests = count;
            let why = EndWhy::Closed;
            return Ok(Ended { requests, why });
        }
        let close = count + 1 == MAX_REQUESTS;
        match serve_one(
            alloc,
            &mut connection,
            source,
            sink,
            desk,
            clock,
            &routes,
            close,
        ) {
            Ok(None) => {}
            Ok(Some(why)) => {
                let requests = count;
                return Ok(Ended { requests, why });
            }
            Err(e) => return Err(e),
        }
    }
    Ok(Ended {
        requests: MAX_REQUESTS,
        why: EndWhy::Limit,
    })
}
