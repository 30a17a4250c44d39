ghost use Rattle.std.specs.Prelude.{◌≡◌, ◌++◌, IfOk, OnOk, List, [], cond, codes, map, string_bytes};
ghost use Rattle.model.specs.texts.Bodies.{array, part_text};
ghost use Rattle.model.specs.state.Entry.Reply.{Listed};
ghost use Rattle.rest_replies.specs.Failure.{SaysOrWant};
ghost use Rattle.rest_replies.specs.Listing.{listed_text};
ghost use Rattle.broker_link.specs.Places.{at_in};

use broker_link::Place;
use gate_io::Text;
use rest_codes::{Media, Reply, quoted_text};
use std::alloc::{AllocError, Global};

#[tactic(auto, unfolding(crate::specs::Listing::listed_text))]
fn listed_text(alloc: Global, topic: &str, partition: u32) -> Result<String, AllocError>
    ensures { IfOk result (λ s. string_bytes s ≡ listed_text topic.now partition) }
{
    format!(in alloc; "{{\"topic\":{topic},\"partition\":{partition}}}")
}

fn part_text(alloc: Global, place: &Place) -> Result<String, AllocError>
    ensures { IfOk result (λ s. string_bytes s ≡ part_text (at_in place.now)) }
{
    let topic = quoted_text(alloc, place.topic.as_str())?;
    listed_text(alloc, topic.as_str(), place.partition.unsigned_abs())
}

fn push_one(text: &mut String, alloc: Global, first: bool, place: &Place) -> Result<(), AllocError>
    ensures { OnOk result (string_bytes text.new ≡ string_bytes text.old ++ (cond first [] (codes ",") ++ part_text (at_in place.now))) }
{
    if !first {
        text.push_str(",")?;
    }
    let one = part_text(alloc, place)?;
    text.push_str(one.as_str())
}

fn places_text(alloc: Global, places: &[Place]) -> Result<String, AllocError>
    ensures { IfOk result (λ s. string_bytes s ≡ codes "{\"partitions\":" ++ (array (map part_text (map at_in places.now)) ++ codes "}")) }
{
    let mut text = String::from_str(alloc, "{\"partitions\":[")?;
    for (i, place) in places.iter().enumerate() {
        push_one(&mut text, alloc, i == 0, place)?;
    }
    text.push_str("]}")?;
    Ok(text)
}

/// The reply to a question for the assignment: its partitions, in its order.
pub fn listed(alloc: Global, places: &[Place]) -> Reply
    ensures says { SaysOrWant (Listed (map at_in places.now)) result }
{
    match places_text(alloc, places) {
        Ok(text) => Reply::Body {
            media: Media::Plain,
            text: Text::from_string(text),
        },
        Err(AllocError) => Reply::Want,
    }
}
