ghost use Rattle.std.specs.Prelude.{◌≡◌, ◌<◌, ◌≤◌, ◌^◌, ℕ, List, length, All};
ghost use Rattle.rest_calls.specs.Views.{PartitionFits};
ghost use Rattle.producer.specs.Send.{Sends};

use crate::by_part::group;
use crate::told::tell;
use broker_link::{Link, LinkNo};
use gate_io::Items;
use rest_calls::Row;
use rest_replies::Told;
use std::alloc::Global;

/// Stores the records of a request, for a topic of `count` partitions, by one call of the link, and
/// answers each in request order.
pub(crate) fn send_parts<L: Link>(
    alloc: Global,
    now: u64,
    link: &mut L,
    topic: &str,
    rows: Items<Row>,
    count: u32,
) -> Result<Items<Told>, LinkNo>
    requires some { 0 < length rows }
    requires few { length rows < 2 ^ 63 }
    requires room { 0 < count × count ≤ 2 ^ 31 }
    requires fit { All PartitionFits rows }
    ensures { Sends now topic.now count rows (L.stand link.old) (L.stand link.new) result }
{
    let (parts, numbers) = group(alloc, rows, count)?;
    let placed = link.produce(alloc, now, topic, parts.as_slice())?;
    let told = tell(alloc, numbers.as_slice(), placed.as_slice())?;
    Ok(told)
}
