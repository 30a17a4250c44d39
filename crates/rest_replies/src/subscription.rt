ghost use Rattle.std.specs.Prelude.{[]};
ghost use Rattle.rest_replies.specs.Subscription.{SaysSubscribed};

use gate_io::Text;
use rest_codes::{Media, Reply};
use std::alloc::{AllocError, Global};

/// The reply to a question for the topics of a consumer that is subscribed to none.
pub fn no_subscription(alloc: Global) -> Reply
    ensures says { SaysSubscribed [] result }
{
    match Text::from_str(alloc, "{\"topics\":[]}") {
        Ok(text) => Reply::Body {
            media: Media::Plain,
            text,
        },
        Err(AllocError) => Reply::Want,
    }
}
