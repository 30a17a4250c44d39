ghost use Rattle.std.specs.Prelude.{◌≡◌, ◌<◌, ◌^◌, All, IfOk, IfSome, length, nat_abs, option_map};
ghost use Rattle.broker_link.specs.Fetching.{edge_view};
ghost use Rattle.rest_calls.specs.Reading.{EdgeReading, ReadingAt, records_in};
ghost use Rattle.rest_calls.specs.Reads.{GivesCall, IsWhole, Reads};
ghost use Rattle.rest_calls.specs.Views.{givens_of, key_in, IsNumber, PartitionFits};
ghost use Rattle.rest_routes.specs.Media.{format_in};
ghost use Rattle.rest_routes.specs.declared.place.Place.TheVariants as place;
ghost use Rattle.rest_routes.specs.declared.place.TopicAsk.TheVariants as topic_ask;
ghost use Rattle.rest_routes.specs.declared.place.PartitionAsk.TheVariants as partition_ask;
ghost use Rattle.rest_routes.specs.declared.place.Ask.TheVariants as ask;

use crate::assign::read_parts;
use crate::body::read_body;
use crate::call::{Batch, Call};
use crate::create::{Created, read_create};
use crate::question::Question;
use crate::seek::read_places;
use crate::unread::Unread;
use broker_link::{Edge, TopicPart};
use gate_io::Text;
use http_conn::Request;
use rest_routes::{
    Ask, PartitionAsk, PartitionNumber, Place, TopicAsk, accepted_formats, format_in, limits_of,
};
use std::alloc::{AllocError, Global};

/// The records of a body, in the format that its type names.
fn records_in(alloc: Global, to: Option<i32>, request: &Request) -> Result<Batch, Unread>
    requires { IfSome to IsNumber }
    ensures reads { Reads givens_of result (records_in (format_in request.now.content_type) (option_map nat_abs to) request.now.body) }
    ensures some { IfOk result (λ batch. 0 < length batch.rows) }
    ensures few { IfOk result (λ batch. length batch.rows < 2 ^ 63) }
    ensures fit { IfOk result (λ batch. All PartitionFits batch.rows) }
{
    match format_in(&request.content_type) {
        Some(format) => read_body(alloc, format, to, request.body.as_slice()),
        None => Err(Unread::Unreadable),
    }
}

fn produce(alloc: Global, topic: Text, request: &Request) -> Result<Call, Unread>
    ensures reads { GivesCall result (ReadingAt (place.Topic topic topic_ask.Produce) request.now) }
    ensures whole { IfOk result IsWhole }
{
    match records_in(alloc, None, request) {
        Ok(batch) => Ok(Call::Produce { topic, batch }),
        Err(e) => Err(e),
    }
}

/// A produce to one partition, which all its records are for.
fn produce_to(
    alloc: Global,
    topic: Text,
    number: PartitionNumber,
    request: &Request,
) -> Result<Call, Unread>
    ensures reads { GivesCall result (ReadingAt (place.Partition topic number partition_ask.Produce) request.now) }
    ensures whole { IfOk result IsWhole }
{
    match records_in(alloc, Some(number.value()), request) {
        Ok(batch) => Ok(Call::Produce { topic, batch }),
        Err(e) => Err(e),
    }
}

fn create(alloc: Global, group: Text, request: &Request) -> Result<Call, Unread>
    ensures reads { GivesCall result (ReadingAt (place.Group group) request.now) }
    ensures whole { IfOk result IsWhole }
{
    match read_create(alloc, request.body.as_slice()) {
        Ok(Created { name, settings }) => Ok(Call::Create {
            group,
            name,
            settings,
        }),
        Err(e) => Err(e),
    }
}

fn assign(alloc: Global, group: Text, instance: Text, request: &Request) -> Result<Call, Unread>
    ensures reads { GivesCall result
        (ReadingAt (place.Instance group instance ask.Assign) request.now) }
    ensures whole { IfOk result IsWhole }
{
    match read_parts(alloc, request.body.as_slice()) {
        Ok(parts) => Ok(Call::Assign {
            group,
            instance,
            parts,
        }),
        Err(e) => Err(e),
    }
}

fn seek(alloc: Global, group: Text, instance: Text, request: &Request) -> Result<Call, Unread>
    ensures reads { GivesCall result
        (ReadingAt (place.Instance group instance ask.Seek) request.now) }
    ensures whole { IfOk result IsWhole }
{
    match read_places(alloc, request.body.as_slice()) {
        Ok(places) => Ok(Call::Seek {
            group,
            instance,
            places,
        }),
        Err(e) => Err(e),
    }
}

fn seek_edge(
    alloc: Global,
    group: Text,
    instance: Text,
    edge: Edge,
    request: &Request,
) -> Result<Call, Unread>
    ensures reads { GivesCall result
        (EdgeReading (edge_view edge) (key_in group instance) request.now.body) }
    ensures whole { IfOk result IsWhole }
{
    match read_parts(alloc, request.body.as_slice()) {
        Ok(parts) => Ok(Call::SeekEdge {
            group,
            instance,
            edge,
            parts,
        }),
        Err(e) => Err(e),
    }
}

fn records(alloc: Global, group: Text, instance: Text, request: &Request) -> Result<Call, Unread>
    ensures reads { GivesCall result
        (ReadingAt (place.Instance group instance ask.Records) request.now) }
    ensures whole { IfOk result IsWhole }
{
    match limits_of(alloc, request.query.as_str()) {
        Ok(Some(limits)) => Ok(Call::Records {
            group,
            instance,
            accepts: accepted_formats(&request.accept),
            timeout: limits.timeout,
            max_bytes: limits.max_bytes,
        }),
        Ok(None) => Err(Unread::Unreadable),
        Err(AllocError) => Err(Unread::Want),
    }
}

/// Reads a request that is sent to a place.
pub(crate) fn read_at(alloc: Global, place: Place, request: &Request) -> Result<Call, Unread>
    ensures reads { GivesCall result (ReadingAt place request.now) }
    ensures whole { IfOk result IsWhole }
{
    match place {
        Place::Brokers => Ok(Call::Ask(Question::Brokers)),
        Place::Topics => Ok(Call::Ask(Question::Topics)),
        Place::Topic(topic, TopicAsk::Produce) => produce(alloc, topic, request),
        Place::Topic(topic, TopicAsk::Description) => Ok(Call::Ask(Question::Topic(topic))),
        Place::Topic(topic, TopicAsk::Partitions) => Ok(Call::Ask(Question::Partitions(topic))),
        Place::Partition(topic, number, PartitionAsk::Produce) => {
            produce_to(alloc, topic, number, request)
        }
        Place::Partition(topic, number, PartitionAsk::Description) => {
            let partition = number.value();
            Ok(Call::Ask(Question::Partition(TopicPart { topic, partition })))
        }
        Place::Partition(topic, number, PartitionAsk::EndOffsets) => {
            let partition = number.value();
            Ok(Call::Ask(Question::EndOffsets(TopicPart { topic, partition })))
        }
        Place::Group(group) => create(alloc, group, request),
        Place::Instance(group, instance, Ask::Delete) => Ok(Call::Delete { group, instance }),
        Place::Instance(group, instance, Ask::Subscription) => {
            Ok(Call::Subscription { group, instance })
        }
        Place::Instance(group, instance, Ask::Assign) => assign(alloc, group, instance, request),
        Place::Instance(group, instance, Ask::Assignments) => {
            Ok(Call::Assignments { group, instance })
        }
        Place::Instance(group, instance, Ask::Seek) => seek(alloc, group, instance, request),
        Place::Instance(group, instance, Ask::SeekBeginning) => {
            seek_edge(alloc, group, instance, Edge::Start, request)
        }
        Place::Instance(group, instance, Ask::SeekEnd) => {
            seek_edge(alloc, group, instance, Edge::End, request)
        }
        Place::Instance(group, instance, Ask::Records) => records(alloc, group, instance, request),
    }
}
