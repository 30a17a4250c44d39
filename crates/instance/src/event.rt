ghost use Rattle.std.specs.Prelude.{◌≡◌, [], Some};

use broker_link::Place;
use gate_io::Items;
use rest_codes::Reply;
use std::alloc::Global;

/// What a look told besides its reply: a position that was out of range and was set to an edge of
/// its partition, or that the look of this round came to its end.
#[derive(Debug, Drop)]
pub enum Event {
    Reset(Place),
    Looked(u32),
}

/// What came of a call: its events, and its reply. A look that found too little has none.
#[derive(Debug, Drop)]
pub struct Outcome {
    pub events: Items<Event>,
    pub reply: Option<Reply>,
}

impl Outcome {
    /// A reply without an event.
    pub fn of_reply(alloc: Global, reply: Reply) -> Outcome
        ensures events { result.events ≡ [] }
        ensures reply { result.reply ≡ Some reply }
    {
        Outcome {
            events: Items::new(alloc),
            reply: Some(reply),
        }
    }
}
