ghost use Rattle.std.specs.Prelude.{◌≡◌, ◌<◌, ◌≤ℤ◌, pos, nat_abs, length, map};
ghost use Rattle.std.specs.List.{list_all, position};
ghost use Rattle.model.specs.state.Log.{is_at};
ghost use Rattle.model.specs.state.World.{IsInOrder, IsLow, with_position, with_positions};
ghost use Rattle.broker_link.specs.Fetching.{at_of, named_at};
ghost use Rattle.broker_link.specs.Places.{at_in, place_of};
ghost use Rattle.consumer_state.specs.Positions.{is_assigned, set_at};

use crate::known::{is_there, position_of};
use broker_link::{Place, TopicPart};

fn place_among(places: &[Place], topic: &str, partition: i32) -> Option<usize>
    ensures { result ≡ position (λ place. is_at (named_at topic.now partition) (at_in place)) places.now }
{
    places
        .iter()
        .position(|place| is_there(place, topic, partition))
}

/// Sets the position of a place in the list.
pub fn put_position(places: &mut [Place], place: usize, position: i64)
    requires place { place < length places.old }
    requires low { pos 0 ≤ℤ position }
    ensures places { map place_of places.new ≡ set_at (map place_of places.old) place (nat_abs position) }
    ensures low { IsLow (map place_of places.old) → IsLow (map place_of places.new) }
{
    places[place].position = position;
}

/// Sets the position of the partition, where it is assigned.
fn set_one(places: &mut [Place], new: &Place)
    requires { IsInOrder (map place_of places.old) }
    ensures places { map place_of places.new ≡ with_position (place_of new.now) (map place_of places.old) }
    ensures low { IsLow (map place_of places.old) → IsLow (map place_of places.new) }
{
    if let Some(place) = place_among(places, new.topic.as_str(), new.partition) {
        put_position(places, place, new.position);
    }
}

/// Sets the positions in turn, so the last of a partition counts.
pub(crate) fn set_all(places: &mut [Place], news: &[Place])
    requires { IsInOrder (map place_of places.old) }
    ensures places { map place_of places.new ≡ with_positions (map place_of news.now) (map place_of places.old) }
    ensures low { IsLow (map place_of places.old) → IsLow (map place_of places.new) }
{
    for new in news {
        set_one(places, new);
    }
}

fn is_assigned(places: &[Place], topic: &str, partition: i32) -> bool
    ensures { result ≡ is_assigned (map place_of places.now) (named_at topic.now partition) }
{
    position_of(places, topic, partition).is_some()
}

/// Each of these partitions is assigned.
pub(crate) fn are_assigned(places: &[Place], parts: &[TopicPart]) -> bool
    ensures { result ≡ list_all (λ part. is_assigned (map place_of places.now) (at_of part)) parts.now }
{
    parts.iter().all(|part| is_assigned(places, part.topic.as_str(), part.partition))
}

/// The partition of each of these places is.
pub(crate) fn have_places(places: &[Place], news: &[Place]) -> bool
    ensures { result ≡ list_all (λ new. is_assigned (map place_of places.now) (at_in new)) news.now }
{
    news.iter().all(|new| is_assigned(places, new.topic.as_str(), new.partition))
}
