ghost use Rattle.std.specs.Prelude.{◌≡◌, ⊤, ℕ, List, Option, IfOk, IfErr, option_map};
ghost use Rattle.model.specs.state.Log.{IsLog};
ghost use Rattle.broker_link.specs.declared.link.LinkNo.TheVariants.{Want};
ghost use Rattle.broker_link.specs.Count.{count_in, IsCount};
ghost use Rattle.broker_link.specs.Stands.{Reads};

use crate::{Link, LinkNo, TopicInfo};
use std::alloc::Global;

fn first_count(infos: &[TopicInfo]) -> Option<usize>
    ensures { result ≡ count_in infos.now }
{
    match infos {
        [] => None,
        [info, ..] => Some(info.parts.len()),
    }
}

/// How many partitions the topic has, by metadata got for this call. None if the broker doesn't
/// know it.
pub fn count_parts<L: Link>(
    alloc: Global,
    link: &mut L,
    topic: &str,
) -> Result<Option<usize>, LinkNo>
    ensures goes { Reads (L.stand link.old) (L.stand link.new) result }
    ensures counted { (L.stand link.old).tells → IsLog (L.stand link.old).log → IfOk result (IsCount (L.stand link.new).log topic.now) }
    ensures plainly { (L.stand link.old).plain → IfErr result (λ e. e ≡ Want) }
{
    let infos = link.metadata(alloc, Some(topic))?;
    Ok(first_count(infos.as_slice()))
}
