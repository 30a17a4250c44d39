ghost use Rattle.std.specs.Prelude.{◌≡◌, IfNone, IfSome, OnErr, OnOk, Some, None};
ghost use Rattle.model.specs.state.World.{Key, IsConsumer};
ghost use Rattle.model.specs.state.Entry.{Act};
ghost use Rattle.model.specs.state.Entry.Call.{Of};
ghost use Rattle.rest_calls.specs.Views.{asked_of, key_in};
ghost use Rattle.instance.specs.Passing.{Consults};
ghost use Rattle.desk.specs.Consumers.{AreKeyed, AreSame, AreSound, Puts, live_under};
ghost use Rattle.desk.specs.Action.{DoesAt, Waits};
ghost use Rattle.desk.specs.Keys.{consumer_key};

use crate::groups::{act_under, put_under, take_under};
use broker_link::Link;
use gate_io::Want;
use instance::{Instance, Outcome};
use rest_calls::Call;
use std::alloc::Global;
use std::collections::BTreeMap;

/// The live instances, each under its group and its name. A look-up, an addition and a removal take
/// time by the logarithm of how many there are.
#[derive(Drop)]
pub struct Consumers {
    groups: BTreeMap<String, BTreeMap<String, Instance>>,
    ghost keyed: { AreKeyed groups },
    ghost sound: { AreSound groups },
}

impl Consumers {
    /// Nobody is live.
    pub(crate) fn new(alloc: Global) -> Consumers
        ensures nobody { (key : Key) → live_under result.groups key ≡ None }
    {
        Consumers {
            groups: BTreeMap::new(alloc),
        }
    }

    /// Does a call of the instance under its key, if one is live there.
    pub(crate) fn act<L: Link>(
        &mut self,
        alloc: Global,
        link: &mut L,
        moment: u64,
        round: u32,
        call: &Call,
    ) -> Option<Outcome>
        requires whose { (key : Key) × (act : Act) × (asked_of call.now ≡ Of key act) }
        ensures does { IfSome result (λ outcome. DoesAt (live_under self.old.groups (consumer_key (asked_of call.now))) (λ live. Puts self.old.groups (consumer_key (asked_of call.now)) live self.new.groups) (asked_of call.now) moment round (L.stand link.old) outcome (L.stand link.new)) }
        ensures waits { IfSome result (Waits round) }

        ensures nobody { IfNone result (live_under self.old.groups (consumer_key (asked_of call.now)) ≡ None) }
        ensures stays { IfNone result (AreSame self.old.groups self.new.groups) }
        ensures link { IfNone result (link.new ≡ link.old) }

        ensures consults { Consults (L.stand link.old) (L.stand link.new) }
    {
        act_under(&mut self.groups, alloc, link, moment, round, call)
    }

    /// Adds an instance under its group and its name, where another one would go.
    pub(crate) fn add(
        &mut self,
        alloc: Global,
        group: &str,
        name: &str,
        instance: Instance,
    ) -> Result<(), Want>
        requires key { instance.key ≡ key_in group.now name.now }
        requires sound { IsConsumer instance.consumer }
        ensures added { OnOk result (Puts self.old.groups (key_in group.now name.now) (Some instance) self.new.groups) }
        ensures stays { OnErr result (AreSame self.old.groups self.new.groups) }
    {
        put_under(&mut self.groups, alloc, group, name, instance)
    }

    /// Takes the instance of a group and a name away.
    pub(crate) fn remove(&mut self, group: &str, name: &str)
        ensures removed { Puts self.old.groups (key_in group.now name.now) None self.new.groups }
    {
        take_under(&mut self.groups, group, name)
    }
}
