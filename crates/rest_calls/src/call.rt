ghost use Rattle.std.specs.Prelude.{◌≡◌};
ghost use Rattle.forms.specs.Formats.{format_of};
ghost use Rattle.model.specs.step.Look.{allows};
ghost use Rattle.rest_calls.specs.Views.{formats_in};

use crate::Question;
use broker_link::{Edge, Place, TopicPart};
use forms::Format;
use gate_io::{Items, Text};
use rest_routes::Accepted;

/// A key or value.
#[derive(Debug, Drop)]
pub enum Payload {
    Null,
    /// The bytes as they are stored.
    Ready(Items<u8>),
}

/// A record to be produced. A partition that is named isn't below 0.
#[derive(Debug, Drop)]
pub struct Row {
    pub key: Payload,
    pub value: Payload,
    pub partition: Option<i32>,
}

/// The records of a produce, in the order of the request.
#[derive(Debug, Drop)]
pub struct Batch {
    pub rows: Items<Row>,
}

/// What a new consumer instance is asked to be: in which format it shows keys and values, where it
/// begins in a partition without a committed offset, from how many key and value bytes on a reply is
/// sent at once, and how long a reply may wait for them, in milliseconds.
#[derive(Clone, Copy, Debug, PartialEq, Eq)]
pub struct Settings {
    pub format: Format,
    pub reset: Edge,
    pub min_bytes: u32,
    pub timeout_ms: u32,
}

/// What a client asks of the gateway. A Create without a name gets one before it is answered. A Seek has
/// the offset that is to be read next in each partition, a SeekEdge the edge that it is to be.
/// `accepts` are the formats that the request accepts. `timeout`, in milliseconds, and `max_bytes` are
/// those of the query, where it gives them.
#[derive(Debug, Drop)]
pub enum Call {
    Produce {
        topic: Text,
        batch: Batch,
    },
    Ask(Question),
    Create {
        group: Text,
        name: Option<Text>,
        settings: Settings,
    },
    Delete {
        group: Text,
        instance: Text,
    },
    Subscription {
        group: Text,
        instance: Text,
    },
    Assign {
        group: Text,
        instance: Text,
        parts: Items<TopicPart>,
    },
    Assignments {
        group: Text,
        instance: Text,
    },
    Seek {
        group: Text,
        instance: Text,
        places: Items<Place>,
    },
    SeekEdge {
        group: Text,
        instance: Text,
        edge: Edge,
        parts: Items<TopicPart>,
    },
    Records {
        group: Text,
        instance: Text,
        accepts: Accepted,
        timeout: Option<u64>,
        max_bytes: Option<u64>,
    },
}

/// A reply in the format is accepted: it is named, or no format is.
pub fn allows(accepts: Accepted, format: Format) -> bool
    ensures { result ≡ allows (formats_in accepts) (format_of format) }
{
    if !accepts.binary && !accepts.json && !accepts.avro {
        return true;
    }
    match format {
        Format::Binary => accepts.binary,
        Format::Json => accepts.json,
    }
}
