ghost use Rattle.std.specs.Prelude.{◌≡◌, map, option_map, option_and_then, codes, length, nat_abs, IfSome};
ghost use Rattle.serde_json.specs.View.{view, items_view};
ghost use Rattle.serde_json.specs.Find.{get, as_array};
ghost use Rattle.broker_link.specs.Places.{place_of};
ghost use Rattle.rest_calls.specs.Json.{all_of};
ghost use Rattle.rest_calls.specs.Views.{IsOffset};
ghost use Rattle.rest_calls.specs.Seek.{offset_in, offset_of, place_in, places_of, sought_by};
ghost use Rattle.rest_calls.specs.Reading.{SoughtAs};
ghost use Rattle.rest_calls.specs.Reads.{Reads, ReadsAs, places_view};

use crate::assign::part_of;
use crate::unread::Unread;
use crate::value::json_of;
use broker_link::{Place, TopicPart};
use gate_io::Items;
use serde_json::Value;
use std::alloc::Global;

/// An offset in a partition.
fn offset_in(value: &Value) -> Option<i64>
    ensures value { option_map nat_abs result ≡ offset_in (view value.now) }
    ensures fits { IfSome result IsOffset }
{
    let offset = value.as_u64()?;
    if offset < 1 << 63 {
        Some(offset as i64)
    } else {
        None
    }
}

fn offset_of(object: &Value) -> Option<i64>
    ensures value { option_map nat_abs result ≡ offset_of (view object.now) }
    ensures fits { IfSome result IsOffset }
{
    offset_in(object.get("offset")?)
}

#[tactic(auto, unfolding(crate::specs::Seek::place_in))]
fn place_in(alloc: Global, object: &Value) -> Result<Place, Unread>
    ensures { Reads place_of result (place_in (view object.now)) }
{
    let Some(position) = offset_of(object) else {
        return Err(Unread::Unreadable);
    };
    match part_of(alloc, object) {
        Ok(TopicPart { topic, partition }) => Ok(Place {
            topic,
            partition,
            position,
        }),
        Err(e) => Err(e),
    }
}

fn places_in(alloc: Global, objects: &[Value]) -> Result<Items<Place>, Unread>
    ensures { Reads places_view result (all_of place_in (items_view objects.now)) }
{
    let Ok(mut read) = Vec::with_capacity(alloc, objects.len()) else {
        return Err(Unread::Want);
    };
    for object in objects {
        let place = place_in(alloc, object)?;
        if read.push(place).is_err() {
            return Err(Unread::Want);
        }
    }
    Ok(Items::from_vec(read))
}

fn listed(body: &Value) -> Option<&[Value]>
    ensures { option_map (λ ps. items_view ps.now) result
        ≡ option_and_then as_array (get (codes "offsets") (view body.now)) }
{
    let objects = body.get("offsets").and_then(Value::as_array)?;
    Some(objects.as_slice())
}

#[tactic(auto, unfolding(crate::specs::Seek::places_of))]
fn places_of(alloc: Global, body: &Value) -> Result<Items<Place>, Unread>
    ensures { Reads places_view result (places_of (view body.now)) }
{
    match listed(body) {
        Some(objects) => places_in(alloc, objects),
        None => Err(Unread::Unreadable),
    }
}

/// Reads the body of a request to set positions.
pub(crate) fn read_places(alloc: Global, body: &[u8]) -> Result<Items<Place>, Unread>
    ensures { ReadsAs places_view result (SoughtAs body.now) }
{
    let value = match json_of(alloc, body) {
        Ok(value) => value,
        Err(e) => return Err(e),
    };
    places_of(alloc, &value)
}
