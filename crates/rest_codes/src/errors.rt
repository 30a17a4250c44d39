ghost use Rattle.std.specs.Prelude.{◌≡◌, IfOk};
ghost use Rattle.rest_codes.specs.Errors.{message_of, refusal_of};

use crate::Reply;
use gate_io::{Text, Want};
use std::alloc::{AllocError, Global};

/// The message of an error code. 50390, want of memory, is the last; no other code is asked for.
#[tactic(auto, unfolding(crate::specs::Errors::message_of))]
pub fn message(code: u32) -> &'static str
    ensures { result.now ≡ message_of code }
{
    match code {
        400 => "Bad request.",
        404 => "Not found.",
        405 => "Method not allowed.",
        406 => "Not acceptable.",
        413 => "Body too large.",
        415 => "Unsupported media type.",
        422 => "Body does not read.",
        431 => "Head too large.",
        40401 => "Topic not found.",
        40402 => "Partition not found.",
        40403 => "Consumer instance not found.",
        40601 => "Consumer format does not match the Accept header.",
        40902 => "Consumer instance with the specified name already exists.",
        40903 => "Subscription to topics, partitions and pattern are mutually exclusive.",
        40990 => "Partition is not assigned to this instance.",
        42201 => "Key schema missing.",
        42202 => "Value schema missing.",
        42204 => "Invalid consumer configuration.",
        42205 => "Invalid Avro schema.",
        50391 => "Schema store failed.",
        50392 => "Schema table is full.",
        _ => "Out of memory.",
    }
}

/// The refusal of a code, with its message.
pub fn refusal(alloc: Global, code: u32) -> Result<Reply, Want>
    ensures { IfOk result (λ reply. reply ≡ refusal_of code) }
{
    match Text::from_str(alloc, message(code)) {
        Ok(text) => Ok(Reply::Error { code, text }),
        Err(AllocError) => Err(Want),
    }
}
