ghost use Rattle.proxy_cli.specs.Served.{DeskGoes, Exchanges, IsKnown};

use broker_link::Link;
use desk::AloneDesk;
use gate_io::Clock;
use http_conn::Request;
use rest_calls::call_of;
use rest_codes::Reply;
use rest_routes::Routes;
use std::alloc::Global;

/// Answers a whole request.
pub(crate) fn answer<L: Link + Drop, C: Clock>(
    alloc: Global,
    desk: &mut AloneDesk<L>,
    clock: &mut C,
    routes: &Routes,
    request: &Request,
) -> Reply
    ensures answered { IsKnown L.stand desk.old → Exchanges L.stand C.tells C.hand desk.old clock.old desk.new clock.new request.now result }
    ensures goes { DeskGoes L.stand C.tells desk.old clock.old desk.new clock.new }
{
    match call_of(alloc, routes, request) {
        Ok(call) => desk.answer(alloc, clock, call),
        Err(reply) => reply,
    }
}
