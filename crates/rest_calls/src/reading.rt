ghost use Rattle.std.specs.Prelude.{◌≡◌, ◌⊎◌, IfOk, IfErr};
ghost use Rattle.rest_calls.specs.Views.{asked_of, HasFewRecords, HasRecords, PartitionsFit};
ghost use Rattle.rest_calls.specs.Reading.{Read, Reading, Calls, Refusal};
ghost use Rattle.rest_codes.specs.Errors.{refusal_of};
ghost use Rattle.rest_codes.specs.declared.response.Reply.TheVariants.{Want as WantReply};
ghost use Rattle.http_conn.specs.declared.request.Request.{Request};

use crate::call::Call;
use crate::sent::read_at;
use crate::unread::Unread;
use gate_io::Want;
use http_conn::Request;
use rest_codes::{Reply, refusal};
use rest_routes::{Missing, Routes, is_acceptable, is_supported, place_of};
use std::alloc::Global;

/// The reply that refuses a request, or that of want of memory.
fn refused(alloc: Global, code: u32) -> Reply
    ensures { (result ≡ refusal_of code) ⊎ (result ≡ WantReply) }
{
    match refusal(alloc, code) {
        Ok(reply) => reply,
        Err(Want) => Reply::Want,
    }
}

/// Reads a whole request as a call. The keys and values of a produce are read in the format that its
/// content type names, binary or JSON, and a read of records accepts the formats that its Accept names.
/// An error is the reply that refuses it, by the first of these that is so: 404 where its path is none
/// of the gateway's or the place isn't built, 405 where the path hasn't the method, 406 where it doesn't
/// accept the type of the reply, 415 where its body is of another type or encoded, 422 where its body or
/// its query doesn't read, 42204 where a new instance can't have the name or the settings that the body
/// gives it.
pub fn call_of(alloc: Global, routes: &Routes, request: &Request) -> Result<Call, Reply>
    ensures reads { IfOk result (λ call. Reading request.now (Calls (asked_of call))) }
    ensures records { IfOk result HasRecords }
    ensures few { IfOk result HasFewRecords }
    ensures fit { IfOk result PartitionsFit }

    ensures refused { IfErr result (Refusal request.now) }
{
    let place = match place_of(alloc, routes, request) {
        Ok(place) => place,
        Err(Missing::NotFound) => return Err(refused(alloc, 404)),
        Err(Missing::NoMethod(allow)) => return Err(Reply::NoMethod { allow }),
        Err(Missing::Want) => return Err(Reply::Want),
    };
    if !is_acceptable(&place, request) {
        return Err(refused(alloc, 406));
    }
    if !is_supported(&place, request) {
        return Err(refused(alloc, 415));
    }
    match read_at(alloc, place, request) {
        Ok(call) => Ok(call),
        Err(Unread::Unreadable) => Err(refused(alloc, 422)),
        Err(Unread::Invalid) => Err(refused(alloc, 42204)),
        Err(Unread::Want) => Err(Reply::Want),
    }
}

/// A request reads as one thing only.
pub fn readings_are_one()
    ensures { (request : Request) (a b : Read) → Reading request a → Reading request b → a ≡ b }
{}
