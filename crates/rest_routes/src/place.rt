ghost use Rattle.std.specs.Prelude.{◌≡◌, [], None, IfOk, IfErr};
ghost use Rattle.rest_routes.specs.Place.{At, IsMissed, alone, ask_at, both, names_at, numbered, partition_at, place_at, sent_of, sent_with};

use crate::number::PartitionNumber;
use crate::parameter::{first_parameter, instance_name_of, name_of, number_of, second_parameter};
use crate::route::{Route, Verb, verb_of};
use crate::routes::Routes;
use gate_io::Text;
use http_conn::Request;
use std::alloc::{AllocError, Global};

/// What is asked of a topic. The description lists its partitions too.
#[derive(Clone, Copy, Debug, PartialEq, Eq)]
pub enum TopicAsk {
    Produce,
    Description,
    Partitions,
}

/// What is asked of a partition.
#[derive(Clone, Copy, Debug, PartialEq, Eq)]
pub enum PartitionAsk {
    Produce,
    Description,
    EndOffsets,
}

/// What is asked of an instance.
#[derive(Clone, Copy, Debug, PartialEq, Eq)]
pub enum Ask {
    Delete,
    Subscription,
    Assign,
    Assignments,
    Seek,
    SeekBeginning,
    SeekEnd,
    Records,
}

/// To what a request is sent: the brokers, the topics, a topic, a partition of a topic, a group, or an
/// instance of a group.
#[derive(Debug, Drop)]
pub enum Place {
    Brokers,
    Topics,
    Topic(Text, TopicAsk),
    Partition(Text, PartitionNumber, PartitionAsk),
    Group(Text),
    Instance(Text, Text, Ask),
}

/// Why a request has no place. `NotFound`: its path isn't one of the gateway's, a parameter of it
/// doesn't read, or the place isn't built. `NoMethod`: the path hasn't the method; with the number of
/// its first place in the table of the HTTP reference. `Want`: there was no memory.
#[derive(Clone, Copy, Debug, PartialEq, Eq)]
pub enum Missing {
    NotFound,
    NoMethod(u8),
    Want,
}

/// The names that a path gives: one alone leaves the second empty, and none both. A topic's partition
/// has a number.
#[derive(Debug, Drop)]
struct Names {
    first: Text,
    second: Text,
    number: Option<PartitionNumber>,
}

fn alone(alloc: Global, name: Option<Text>) -> Option<Names>
    ensures { result ≡ alone name }
{
    let first = name?;
    let second = Text::from_string(String::new(alloc));
    Some(Names {
        first,
        second,
        number: None,
    })
}

fn numbered(alloc: Global, name: Option<Text>, number: Option<PartitionNumber>) -> Option<Names>
    ensures { result ≡ numbered name number }
{
    match (name, number) {
        (Some(first), Some(number)) => Some(Names {
            first,
            second: Text::from_string(String::new(alloc)),
            number: Some(number),
        }),
        _ => None,
    }
}

fn both(first: Option<Text>, second: Option<Text>) -> Option<Names>
    ensures { result ≡ both first second }
{
    match (first, second) {
        (Some(first), Some(second)) => Some(Names {
            first,
            second,
            number: None,
        }),
        _ => None,
    }
}

fn none(alloc: Global) -> Names
    ensures { result ≡ record { first = []; second = []; number = None } }
{
    let first = Text::from_string(String::new(alloc));
    let second = Text::from_string(String::new(alloc));
    Names {
        first,
        second,
        number: None,
    }
}

/// The names that the path gives as this one of the gateway's. None where a parameter doesn't read.
fn names_at(alloc: Global, route: Route, path: &str) -> Result<Option<Names>, AllocError>
    ensures { IfOk result (λ names. names ≡ names_at route path.now) }
{
    match route {
        Route::Brokers | Route::Topics => Ok(Some(none(alloc))),
        Route::Topic | Route::Partitions => {
            Ok(alone(alloc, name_of(alloc, first_parameter(path))?))
        }
        Route::Partition | Route::EndOffsets => {
            let topic = name_of(alloc, first_parameter(path))?;
            let number = number_of(alloc, second_parameter(path))?;
            Ok(numbered(alloc, topic, number))
        }
        Route::Group => Ok(alone(alloc, instance_name_of(alloc, first_parameter(path))?)),
        _ => {
            let group = instance_name_of(alloc, first_parameter(path))?;
            Ok(both(group, instance_name_of(alloc, second_parameter(path))?))
        }
    }
}

/// What is asked of an instance, where that is built.
fn ask_at(route: Route, verb: Verb) -> Option<Ask>
    ensures { result ≡ ask_at route verb }
{
    match (route, verb) {
        (Route::Instance, Verb::Delete) => Some(Ask::Delete),
        (Route::Subscription, Verb::Get) => Some(Ask::Subscription),
        (Route::Assignments, Verb::Post) => Some(Ask::Assign),
        (Route::Assignments, Verb::Get) => Some(Ask::Assignments),
        (Route::Positions, Verb::Post) => Some(Ask::Seek),
        (Route::Beginning, Verb::Post) => Some(Ask::SeekBeginning),
        (Route::End, Verb::Post) => Some(Ask::SeekEnd),
        (Route::Records, Verb::Get) => Some(Ask::Records),
        _ => None,
    }
}

/// The partition that a path names.
fn partition_at(names: Names, ask: PartitionAsk) -> Option<Place>
    ensures { result ≡ partition_at names.first names.number ask }
{
    let Names { first, number, .. } = names;
    match number {
        Some(number) => Some(Place::Partition(first, number, ask)),
        None => None,
    }
}

/// The place that a path has for a method, where it is built.
fn place_at(route: Route, verb: Verb, names: Names) -> Option<Place>
    ensures { result ≡ place_at route verb names }
{
    match (route, verb) {
        (Route::Brokers, Verb::Get) => Some(Place::Brokers),
        (Route::Topics, Verb::Get) => Some(Place::Topics),
        (Route::Topic, Verb::Post) => Some(Place::Topic(names.first, TopicAsk::Produce)),
        (Route::Topic, Verb::Get) => Some(Place::Topic(names.first, TopicAsk::Description)),
        (Route::Partitions, Verb::Get) => Some(Place::Topic(names.first, TopicAsk::Partitions)),
        (Route::Partition, Verb::Post) => partition_at(names, PartitionAsk::Produce),
        (Route::Partition, Verb::Get) => partition_at(names, PartitionAsk::Description),
        (Route::EndOffsets, Verb::Get) => partition_at(names, PartitionAsk::EndOffsets),
        (Route::Group, Verb::Post) => Some(Place::Group(names.first)),
        _ => {
            let ask = ask_at(route, verb)?;
            Some(Place::Instance(names.first, names.second, ask))
        }
    }
}

/// The place by a method, for a path that the gateway has.
fn sent_with(route: Route, verb: Option<Verb>, names: Names) -> Result<Place, Missing>
    ensures found { IfOk result (λ place. sent_with route names verb ≡ At place) }
    ensures missed { IfErr result (IsMissed (sent_with route names verb)) }
{
    match verb {
        Some(verb) if route.has_method(verb) => match place_at(route, verb, names) {
            Some(place) => Ok(place),
            None => Err(Missing::NotFound),
        },
        _ => Err(Missing::NoMethod(route.first_place())),
    }
}

/// To what a request is sent. A path of the gateway whose parameters read answers another method than
/// its own by `NoMethod`.
pub fn place_of(alloc: Global, routes: &Routes, request: &Request) -> Result<Place, Missing>
    ensures found { IfOk result (λ place. sent_of request.now ≡ At place) }
    ensures missed { IfErr result (IsMissed (sent_of request.now)) }
{
    let Some(route) = routes.find(request.path.as_str()) else {
        return Err(Missing::NotFound);
    };
    let verb = verb_of(request.method.as_str());
    match names_at(alloc, route, request.path.as_str()) {
        Ok(Some(names)) => sent_with(route, verb, names),
        Ok(None) => Err(Missing::NotFound),
        Err(AllocError) => Err(Missing::Want),
    }
}
