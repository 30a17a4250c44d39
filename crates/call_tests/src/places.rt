use crate::sample::request_of;
use rest_routes::{Ask, Missing, PartitionAsk, Place, Routes, TopicAsk, place_of};
use std::alloc::{AllocError, Global};
use std::process::Abort;
use std::test::Fail;

fn name_of(ask: Ask) -> &'static str {
    match ask {
        Ask::Delete => "delete",
        Ask::Subscription => "subscription",
        Ask::Assign => "assign",
        Ask::Assignments => "assignments",
        Ask::Seek => "seek",
        Ask::SeekBeginning => "start",
        Ask::SeekEnd => "end",
        Ask::Records => "records",
    }
}

fn topic_name_of(ask: TopicAsk) -> &'static str {
    match ask {
        TopicAsk::Produce => "topic",
        TopicAsk::Description => "description",
        TopicAsk::Partitions => "partitions",
    }
}

fn partition_name_of(ask: PartitionAsk) -> &'static str {
    match ask {
        PartitionAsk::Produce => "produce to",
        PartitionAsk::Description => "partition",
        PartitionAsk::EndOffsets => "offsets",
    }
}

/// A place as a text, or why there is none.
fn shown(alloc: Global, place: Result<Place, Missing>) -> Result<String, AllocError> {
    match place {
        Err(Missing::NotFound) => String::from_str(alloc, "none"),
        Err(Missing::NoMethod(allow)) => format!(in alloc; "lacks {allow}"),
        Err(Missing::Want) => String::from_str(alloc, "want"),
        Ok(Place::Brokers) => String::from_str(alloc, "brokers"),
        Ok(Place::Topics) => String::from_str(alloc, "topics"),
        Ok(Place::Topic(topic, ask)) => {
            let (topic, ask) = (topic.as_str(), topic_name_of(ask));
            format!(in alloc; "{ask} {topic}")
        }
        Ok(Place::Partition(topic, number, ask)) => {
            let (topic, number, ask) = (topic.as_str(), number.value(), partition_name_of(ask));
            format!(in alloc; "{ask} {topic} {number}")
        }
        Ok(Place::Group(group)) => {
            let group = group.as_str();
            format!(in alloc; "group {group}")
        }
        Ok(Place::Instance(group, name, ask)) => {
            let (group, name, ask) = (group.as_str(), name.as_str(), name_of(ask));
            format!(in alloc; "{ask} {group} {name}")
        }
    }
}

/// The place of such a request, as a text.
fn told(alloc: Global, routes: &Routes, method: &str, path: &str) -> Result<String, Fail> {
    let request = request_of(alloc, method, path, "", "", "")?;
    Ok(shown(alloc, place_of(alloc, routes, &request))?)
}

/// Each method and path has the place beside them.
fn places_are(rt: &impl Abort, alloc: Global, cases: &[(&str, &str, &str)]) -> Result<(), Fail> {
    let routes = Routes::new(alloc)?;
    for (place, (method, path, want)) in cases.iter().enumerate() {
        let text = told(alloc, &routes, method, path)?;
        assert_eq!(rt; text.as_str(), *want, "case {place}");
    }
    Ok(())
}

const PLACES: [(&str, &str, &str); 30] = [
    ("GET", "/brokers", "brokers"),
    ("GET", "/topics", "topics"),
    ("GET", "/topics/t", "description t"),
    ("GET", "/topics/a%2Fb", "description a/b"),
    ("GET", "/topics/t/partitions", "partitions t"),
    ("GET", "/topics/t/partitions/0", "partition t 0"),
    ("GET", "/topics/%74/partitions/007", "partition t 7"),
    (
        "GET",
        "/topics/t/partitions/%32147483647",
        "partition t 2147483647",
    ),
    ("GET", "/topics/t/partitions/1/offsets", "offsets t 1"),
    (
        "POST",
        "/topics/t/partitions/2147483647",
        "produce to t 2147483647",
    ),
    (
        "GET",
        "/topics/partitions/partitions/2/offsets",
        "offsets partitions 2",
    ),
    ("POST", "/topics/a.b_c-9Z", "topic a.b_c-9Z"),
    ("POST", "/topics/.", "topic ."),
    ("POST", "/topics/..", "topic .."),
    ("POST", "/topics/%74", "topic t"),
    ("POST", "/topics/a%2Fb%20%c3%A9", "topic a/b \u{e9}"),
    ("POST", "/topics/%2541", "topic %41"),
    ("POST", "/topics/a%", "topic a%"),
    ("POST", "/topics/a%2", "topic a%2"),
    ("POST", "/topics/%zz+", "topic %zz+"),
    ("POST", "/topics/%00%7f", "topic \u{0}\u{7f}"),
    ("POST", "/consumers/g", "group g"),
    ("DELETE", "/consumers/g/instances/c%2f1", "delete g c/1"),
    (
        "GET",
        "/consumers/g/instances/c1/subscription",
        "subscription g c1",
    ),
    (
        "POST",
        "/consumers/g/instances/c1/assignments",
        "assign g c1",
    ),
    (
        "GET",
        "/consumers/g/instances/c1/assignments",
        "assignments g c1",
    ),
    ("POST", "/consumers/g/instances/c1/positions", "seek g c1"),
    (
        "POST",
        "/consumers/g/instances/c1/positions/beginning",
        "start g c1",
    ),
    (
        "POST",
        "/consumers/g/instances/c1/positions/end",
        "end g c1",
    ),
    (
        "GET",
        "/consumers/a.b_c-9Z/instances/-/records",
        "records a.b_c-9Z -",
    ),
];

#[test]
fn finds_each_place(rt: HostRuntime) -> Result<(), Fail> {
    places_are(&rt, rt.alloc(), &PLACES)
}

// The paths of the REST proxy's reference, each with a method that none of its calls has.
const LACKING: [(&str, &str, &str); 17] = [
    ("POST", "/brokers", "lacks 1"),
    ("DELETE", "/topics", "lacks 2"),
    ("PUT", "/topics/t", "lacks 3"),
    ("post", "/topics/t", "lacks 3"),
    ("POST", "/topics/t/partitions", "lacks 5"),
    ("DELETE", "/topics/t/partitions/0", "lacks 6"),
    ("POST", "/topics/t/partitions/%30/offsets", "lacks 8"),
    ("GET", "/consumers/g", "lacks 9"),
    ("GET", "/consumers/g/instances/c", "lacks 10"),
    ("DELETE", "/consumers/g/instances/c/offsets", "lacks 11"),
    ("PUT", "/consumers/g/instances/c/subscription", "lacks 13"),
    ("DELETE", "/consumers/g/instances/c/assignments", "lacks 16"),
    ("GET", "/consumers/g/instances/c/positions", "lacks 18"),
    (
        "GET",
        "/consumers/g/instances/c/positions/beginning",
        "lacks 19",
    ),
    ("GET", "/consumers/g/instances/c/positions/end", "lacks 20"),
    ("POST", "/consumers/g/instances/c/records", "lacks 21"),
    ("HEAD", "/consumers/g/instances/c/records", "lacks 21"),
];

#[test]
fn a_path_without_the_method_tells_its_first_place(rt: HostRuntime) -> Result<(), Fail> {
    places_are(&rt, rt.alloc(), &LACKING)
}

// Places of the reference that no call stands for yet.
const UNBUILT: [(&str, &str, &str); 4] = [
    ("POST", "/consumers/g/instances/c/offsets", "none"),
    ("GET", "/consumers/g/instances/c/offsets", "none"),
    ("DELETE", "/consumers/g/instances/c/subscription", "none"),
    ("POST", "/consumers/g/instances/c/subscription", "none"),
];

#[test]
fn a_place_that_is_not_built_is_none(rt: HostRuntime) -> Result<(), Fail> {
    places_are(&rt, rt.alloc(), &UNBUILT)
}

const NOWHERE: [(&str, &str, &str); 29] = [
    ("GET", "/brokers/", "none"),
    ("GET", "/topics//partitions", "none"),
    ("GET", "/topics/t/partitions/", "none"),
    ("GET", "/topics/t/partitions/2147483648", "none"),
    ("GET", "/topics/t/partitions/+1/offsets", "none"),
    ("POST", "", "none"),
    ("POST", "/", "none"),
    ("POST", "/topic", "none"),
    ("POST", "/topics/", "none"),
    ("POST", "/topics/t/", "none"),
    ("POST", "/Topics/t", "none"),
    ("POST", "topics/t", "none"),
    ("POST", "/%74opics/t", "none"),
    ("PUT", "/topics//partitions", "none"),
    ("PUT", "/topics/%ff", "none"),
    ("PUT", "/topics/%c3", "none"),
    ("PUT", "/topics/%ed%a0%80", "none"),
    ("PUT", "/topics/t/partitions/x", "none"),
    ("PUT", "/topics/t/partitions/-1", "none"),
    ("PUT", "/topics/t/partitions/2147483648", "none"),
    ("PUT", "/topics/t/partitions/18446744073709551616", "none"),
    ("PUT", "/consumers/", "none"),
    ("PUT", "/consumers/g/", "none"),
    ("PUT", "/consumers/a%1f", "none"),
    ("PUT", "/consumers/a%7F", "none"),
    ("PUT", "/consumers/g/instances/", "none"),
    ("PUT", "/consumers//instances/c1", "none"),
    ("PUT", "/consumers/g/instances/%00/records", "none"),
    ("PUT", "/consumers/g/x/instances/c1/records", "none"),
];

#[test]
fn a_path_that_is_no_path_of_the_gateway_is_none(rt: HostRuntime) -> Result<(), Fail> {
    places_are(&rt, rt.alloc(), &NOWHERE)
}
