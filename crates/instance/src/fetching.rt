ghost use Rattle.std.specs.Prelude.{◌≡◌, ◌<◌, ◌≤◌, ◌^◌, ◌-◌, ◌*◌, ◌↔◌, min, false, All, IfOk, IfErr, IsTrue, List, length, map};
ghost use Rattle.model.specs.step.Walk.{turned};
ghost use Rattle.model.specs.state.World.{IsInOrder};
ghost use Rattle.broker_link.specs.Causes.{ComesOf};
ghost use Rattle.broker_link.specs.Fetching.{rows_in};
ghost use Rattle.broker_link.specs.declared.link.LinkNo.TheVariants.{Want};
ghost use Rattle.instance.specs.Gathering.{AreGiven, GotFrom, HaveAll, asked};
ghost use Rattle.instance.specs.Walk.{HasOffsets};
ghost use Rattle.instance.specs.Passing.{Passes};
ghost use Rattle.broker_link.specs.Places.{place_of};

use broker_link::{FetchFrom, Fetched, Link, LinkNo, Place};
use gate_io::{Items, Text};
use std::alloc::{AllocError, Global};

/// As many bytes as one fetch asks for at most.
const MOST_BYTES: u32 = 1_048_576;

fn ask_from(alloc: Global, place: &Place) -> Result<FetchFrom, AllocError>
    ensures { IfOk result (λ ask. asked ask ≡ place_of place.now) }
{
    let topic = Text::from_str(alloc, place.topic.as_str())?;
    Ok(FetchFrom {
        topic,
        partition: place.partition,
        offset: place.position,
    })
}

fn asks_from(alloc: Global, places: &[Place]) -> Result<Vec<FetchFrom>, AllocError>
    ensures { IfOk result (λ asks. map asked asks.items ≡ map place_of places.now) }
{
    let mut asks = Vec::with_capacity(alloc, places.len())?;
    for place in places {
        asks.push(ask_from(alloc, place)?)?;
    }
    Ok(asks)
}

/// As many bytes as a fetch for a reply of so many bytes asks for at most: twice as many, so that
/// a row that doesn't fit into the reply any more comes as well.
pub(crate) fn bytes_for(bound: u64) -> u32
    ensures value { result ≡ min (2 * bound) 1048576 }
    ensures small { result < 2 ^ 31 }
{
    if bound < u64::from(MOST_BYTES / 2) {
        2 * bound as u32
    } else {
        MOST_BYTES
    }
}

/// The list, in the order in which its last `count` come first.
fn turned_back(
    alloc: Global,
    mut fetched: Items<Fetched>,
    count: usize,
) -> Result<Items<Fetched>, AllocError>
    requires { count ≤ length fetched }
    ensures { IfOk result (λ back. back ≡ turned (length fetched - count) fetched) }
{
    let mut last = Vec::with_capacity(alloc, fetched.len())?;
    for _ in 0..count {
        if let Some(f) = fetched.pop() {
            last.push(f)?;
        }
    }
    last.reverse();
    let mut back = Items::from_vec(last);
    back.append(fetched)?;
    Ok(back)
}

/// All positions were in range.
pub(crate) fn all_inside(fetched: &[Fetched]) -> bool
    ensures { IsTrue result ↔ All (λ f. f.out_of_range ≡ false) fetched.now }
{
    fetched.iter().all(|f| !f.out_of_range)
}

/// One fetch of all places from their positions. It asks for that of number `first` before those
/// behind it, and for those before it last, so that few bytes go to each in turn.
pub(crate) fn fetch_from<L: Link>(
    alloc: Global,
    link: &mut L,
    places: &[Place],
    first: usize,
    most: u32,
) -> Result<Items<Fetched>, LinkNo>
    requires some { 0 < length places.now }
    requires first { first ≤ length places.now }
    requires few { most < 2 ^ 31 }
    requires order { IsInOrder (map place_of places.now) }
    ensures passes { Passes (L.stand link.old) (L.stand link.new) }
    ensures same { IfOk result (λ fetched. length fetched ≡ length places.now) }
    ensures offsets { IfOk result (All HasOffsets) }
    ensures got { (L.stand link.old).tells → IfOk result (GotFrom (L.stand link.new).log (map place_of places.now)) }
    ensures given { (L.stand link.old).in_turn → (L.stand link.old).tells → IfOk result (λ fetched. AreGiven most first (L.stand link.new).log (map place_of places.now) (map rows_in fetched)) }
    ensures good { (L.stand link.old).plain → (L.stand link.old).tells → HaveAll (L.stand link.old).log (map place_of places.now) → IfErr result (λ e. e ≡ Want) }
    ensures cause { IfErr result (ComesOf (L.stand link.old).counts (L.stand link.new).counts) }
{
    let mut asks = asks_from(alloc, places)?;
    asks.rotate_left(first);
    let fetched = match link.fetch(alloc, asks.as_slice(), most) {
        Ok(fetched) => fetched,
        Err(e) => return Err(e),
    };
    Ok(turned_back(alloc, fetched, first)?)
}
