ghost use Rattle.std.specs.Prelude.{◌≡◌, ◌++◌, ◌<◌, ◌≤ℤ◌, [], ◌∷◌, pos, is_some, All, IfOk, IfErr, OnOk, OnErr, length, map};
ghost use Rattle.model.specs.state.Log.{IsLog};
ghost use Rattle.model.specs.state.World.{IsLow};
ghost use Rattle.model.specs.state.Entry.Event.{Reset};
ghost use Rattle.model.specs.step.Fixed.{HasPart};
ghost use Rattle.broker_link.specs.Causes.{ComesOf};
ghost use Rattle.broker_link.specs.Fetching.{IsEdge, edge_view};
ghost use Rattle.broker_link.specs.declared.link.LinkNo.TheVariants.{Want};
ghost use Rattle.instance.specs.Ending.{own_of};
ghost use Rattle.instance.specs.Gathering.{AreSet, AreTold, EdgesTold, HaveAll, IsEdgeIf, IsLowIf, news_of, put_all, put_maybe};
ghost use Rattle.instance.specs.Passing.{Passes};
ghost use Rattle.broker_link.specs.Places.{at_in, place_of};

use crate::Event;
use broker_link::{Edge, Fetched, Link, LinkNo, Place};
use consumer_state::put_position;
use gate_io::{Items, Text};
use std::alloc::{AllocError, Global};

fn edge_at<L: Link>(alloc: Global, link: &mut L, place: &Place, edge: Edge) -> Result<i64, LinkNo>
    ensures passes { Passes (L.stand link.old) (L.stand link.new) }
    ensures low { IfOk result (λ offset. pos 0 ≤ℤ offset) }
    ensures told { (L.stand link.old).tells → IfOk result (IsEdge (L.stand link.new).log (at_in place.now) (edge_view edge)) }
    ensures good { (L.stand link.old).plain → (L.stand link.old).tells → HasPart (L.stand link.old).log (at_in place.now) → IfErr result (λ e. e ≡ Want) }
    ensures cause { IfErr result (ComesOf (L.stand link.old).counts (L.stand link.new).counts) }
{
    link.list_offset(alloc, place.topic.as_str(), place.partition, edge)
}

/// The new position of a place, where its old one is out of range.
fn tell_one<L: Link>(
    alloc: Global,
    link: &mut L,
    place: &Place,
    fetched: &Fetched,
    edge: Edge,
) -> Result<Option<i64>, LinkNo>
    ensures passes { Passes (L.stand link.old) (L.stand link.new) }
    ensures same { IfOk result (λ told. is_some told ≡ fetched.now.out_of_range) }
    ensures low { IfOk result IsLowIf }
    ensures told { (L.stand link.old).tells → IfOk result (IsEdgeIf (L.stand link.new).log (at_in place.now) (edge_view edge)) }
    ensures good { (L.stand link.old).plain → (L.stand link.old).tells → HasPart (L.stand link.old).log (at_in place.now) → IfErr result (λ e. e ≡ Want) }
    ensures cause { IfErr result (ComesOf (L.stand link.old).counts (L.stand link.new).counts) }
{
    if !fetched.out_of_range {
        return Ok(None);
    }
    match edge_at(alloc, link, place, edge) {
        Ok(offset) => Ok(Some(offset)),
        Err(e) => Err(e),
    }
}

/// The new positions of the places that are out of range, asked for one after the other.
fn tell_edges<L: Link>(
    alloc: Global,
    link: &mut L,
    places: &[Place],
    fetched: &[Fetched],
    edge: Edge,
) -> Result<Items<Option<i64>>, LinkNo>
    requires same { length fetched.now ≡ length places.now }
    ensures passes { Passes (L.stand link.old) (L.stand link.new) }
    ensures same { IfOk result (λ told. length told ≡ length places.now) }
    ensures are { IfOk result (λ told. AreTold fetched.now told) }
    ensures low { IfOk result (λ told. All IsLowIf told) }
    ensures told { (L.stand link.old).tells → IsLog (L.stand link.old).log → IfOk result (λ told. EdgesTold (edge_view edge) (L.stand link.old).log (map place_of places.now) told (L.stand link.new).log) }
    ensures good { (L.stand link.old).plain → (L.stand link.old).tells → HaveAll (L.stand link.old).log (map place_of places.now) → IfErr result (λ e. e ≡ Want) }
    ensures cause { IfErr result (ComesOf (L.stand link.old).counts (L.stand link.new).counts) }
{
    let mut told = Items::new(alloc);
    for i in 0..places.len() {
        let one = match tell_one(alloc, link, &places[i], &fetched[i], edge) {
            Ok(one) => one,
            Err(e) => return Err(e),
        };
        told.push(one)?;
    }
    Ok(told)
}

fn put_event(
    alloc: Global,
    events: &mut Items<Event>,
    place: &Place,
    told: Option<i64>,
) -> Result<(), AllocError>
    requires { IsLowIf told }
    ensures { OnOk result (map own_of events.new ≡ map own_of events.old ++ map Reset (news_of (place_of place.now ∷ []) (told ∷ []))) }
{
    if let Some(position) = told {
        let topic = Text::from_str(alloc, place.topic.as_str())?;
        events.push(Event::Reset(Place {
            topic,
            partition: place.partition,
            position,
        }))?;
    }
    Ok(())
}

/// The events of the positions that are set back.
fn reset_events(
    alloc: Global,
    places: &[Place],
    told: &[Option<i64>],
) -> Result<Items<Event>, AllocError>
    requires same { length told.now ≡ length places.now }
    requires low { All IsLowIf told.now }
    ensures { IfOk result (λ events. map own_of events ≡ map Reset (news_of (map place_of places.now) told.now)) }
{
    let mut events = Items::new(alloc);
    for i in 0..places.len() {
        put_event(alloc, &mut events, &places[i], told[i])?;
    }
    Ok(events)
}

fn put_one(places: &mut [Place], place: usize, told: Option<i64>)
    requires place { place < length places.old }
    requires low { IsLowIf told }
    ensures places { map place_of places.new ≡ put_maybe (map place_of places.old) place told }
    ensures kept { IsLow (map place_of places.old) → IsLow (map place_of places.new) }
{
    if let Some(position) = told {
        put_position(places, place, position);
    }
}

fn put_told(places: &mut [Place], told: &[Option<i64>])
    requires same { length told.now ≡ length places.old }
    requires low { All IsLowIf told.now }
    ensures places { map place_of places.new ≡ put_all (map place_of places.old) told.now }
    ensures kept { IsLow (map place_of places.old) → IsLow (map place_of places.new) }
{
    for i in 0..told.len() {
        put_one(places, i, told[i]);
    }
}

/// Sets the positions that are out of range to an edge. Nothing is set before all were told.
pub(crate) fn set_back<L: Link>(
    alloc: Global,
    link: &mut L,
    places: &mut [Place],
    fetched: &[Fetched],
    edge: Edge,
) -> Result<Items<Event>, LinkNo>
    requires same { length fetched.now ≡ length places.old }
    ensures passes { Passes (L.stand link.old) (L.stand link.new) }
    ensures set { IfOk result (λ events. AreSet (L.stand link.old).tells (edge_view edge) (L.stand link.old).log (map place_of places.old) fetched.now events (L.stand link.new).log (map place_of places.new)) }
    ensures stays { OnErr result (places.new ≡ places.old) }
    ensures kept { IsLow (map place_of places.old) → IsLow (map place_of places.new) }
    ensures good { (L.stand link.old).plain → (L.stand link.old).tells → HaveAll (L.stand link.old).log (map place_of places.old) → IfErr result (λ e. e ≡ Want) }
    ensures cause { IfErr result (ComesOf (L.stand link.old).counts (L.stand link.new).counts) }
{
    let told = tell_edges(alloc, link, places, fetched, edge)?;
    let events = reset_events(alloc, places, told.as_slice())?;
    put_told(places, told.as_slice());
    Ok(events)
}
