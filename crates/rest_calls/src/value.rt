ghost use Rattle.std.specs.Prelude.{option_map};
ghost use Rattle.serde_json.specs.View.{view};
ghost use Rattle.rest_calls.specs.Json.{IsJson};
ghost use Rattle.rest_calls.specs.Reads.{ReadsAs};

use crate::unread::Unread;
use serde_json::Value;
use std::alloc::Global;

/// The value of a body of JSON.
pub(crate) fn json_of(alloc: Global, body: &[u8]) -> Result<Value, Unread>
    ensures { ReadsAs view result (IsJson body.now) }
{
    match Value::from_slice(alloc, body) {
        Ok(value) => Ok(value),
        Err(e) => {
            if e.is_memory() {
                return Err(Unread::Want);
            }
            Err(Unread::Unreadable)
        }
    }
}
