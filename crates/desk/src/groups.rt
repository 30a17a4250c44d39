//! Instances by the text of their group and then of their name.
ghost use Rattle.std.specs.Prelude.{◌≡◌, ℕ, List, IfNone, IfSome, OnErr, OnOk, Some, None, string_bytes, true};
ghost use Rattle.std.specs.BTreeMap.{get_by_text};
ghost use Rattle.rest_calls.specs.Views.{asked_of, key_in};
ghost use Rattle.instance.specs.Passing.{Consults};
ghost use Rattle.desk.specs.Consumers.{AreSame, Puts, PutsName, live_under, named_in};
ghost use Rattle.desk.specs.Action.{DoesAt, IsAsked, Waits};
ghost use Rattle.desk.specs.Keys.{consumer_key, group_in, name_in_call};

use crate::shelf::{group_of, name_of};
use broker_link::Link;
use gate_io::Want;
use instance::{Instance, Outcome};
use rest_calls::Call;
use std::alloc::Global;
use std::collections::BTreeMap;

/// Does a call of the instance of its name, if the group has one.
fn act_in<L: Link>(
    names: &mut BTreeMap<String, Instance>,
    alloc: Global,
    link: &mut L,
    moment: u64,
    round: u32,
    call: &Call,
) -> Option<Outcome>
    requires whose { IsAsked (get_by_text names.old (name_in_call (asked_of call.now))) (asked_of call.now) }
    ensures does { IfSome result (λ outcome. DoesAt (get_by_text names.old (name_in_call (asked_of call.now))) (λ live. PutsName (Some names.old) (name_in_call (asked_of call.now)) live (Some names.new)) (asked_of call.now) moment round (L.stand link.old) outcome (L.stand link.new)) }
    ensures waits { IfSome result (Waits round) }

    ensures nobody { IfNone result (get_by_text names.old (name_in_call (asked_of call.now)) ≡ None) }
    ensures stays { IfNone result (names.new ≡ names.old) }
    ensures link { IfNone result (link.new ≡ link.old) }

    ensures consults { Consults (L.stand link.old) (L.stand link.new) }
{
    match names.get_mut(name_of(call)) {
        Some(instance) => Some(instance.act(alloc, link, moment, round, call)),
        None => None,
    }
}

/// Does a call of the instance under its key, if one is live there.
pub(crate) fn act_under<L: Link>(
    groups: &mut BTreeMap<String, BTreeMap<String, Instance>>,
    alloc: Global,
    link: &mut L,
    moment: u64,
    round: u32,
    call: &Call,
) -> Option<Outcome>
    requires whose { IsAsked (live_under groups.old (consumer_key (asked_of call.now))) (asked_of call.now) }
    ensures does { IfSome result (λ outcome. DoesAt (live_under groups.old (consumer_key (asked_of call.now))) (λ live. Puts groups.old (consumer_key (asked_of call.now)) live groups.new) (asked_of call.now) moment round (L.stand link.old) outcome (L.stand link.new)) }
    ensures waits { IfSome result (Waits round) }

    ensures nobody { IfNone result (live_under groups.old (consumer_key (asked_of call.now)) ≡ None) }
    ensures stays { IfNone result (AreSame groups.old groups.new) }
    ensures link { IfNone result (link.new ≡ link.old) }

    ensures consults { Consults (L.stand link.old) (L.stand link.new) }
{
    match groups.get_mut(group_of(call)) {
        Some(names) => act_in(names, alloc, link, moment, round, call),
        None => None,
    }
}

/// Puts an instance under a name.
fn put_in(
    names: &mut BTreeMap<String, Instance>,
    name: String,
    instance: Instance,
) -> Result<(), Want>
    ensures puts { OnOk result (PutsName (Some names.old) (string_bytes name) (Some instance) (Some names.new)) }
    ensures stays { OnErr result ((other : List ℕ) → get_by_text names.new other ≡ get_by_text names.old other) }
{
    match names.insert(name, instance) {
        Ok(_) => Ok(()),
        Err(_) => Err(Want),
    }
}

/// Puts the first instance of a group.
fn put_first(
    groups: &mut BTreeMap<String, BTreeMap<String, Instance>>,
    alloc: Global,
    group: &str,
    name: String,
    instance: Instance,
) -> Result<(), Want>
    requires none { get_by_text groups.old group.now ≡ None }
    ensures puts { OnOk result (Puts groups.old (key_in group.now (string_bytes name)) (Some instance) groups.new) }
    ensures stays { OnErr result (AreSame groups.old groups.new) }
{
    let Ok(group) = String::from_str(alloc, group) else {
        return Err(Want);
    };
    let mut names = BTreeMap::new(alloc);
    if let Err(Want) = put_in(&mut names, name, instance) {
        return Err(Want);
    }
    match groups.insert(group, names) {
        Ok(_) => Ok(()),
        Err(_) => Err(Want),
    }
}

/// Puts an instance under a group and a name.
pub(crate) fn put_under(
    groups: &mut BTreeMap<String, BTreeMap<String, Instance>>,
    alloc: Global,
    group: &str,
    name: &str,
    instance: Instance,
) -> Result<(), Want>
    ensures puts { OnOk result (Puts groups.old (key_in group.now name.now) (Some instance) groups.new) }
    ensures stays { OnErr result (AreSame groups.old groups.new) }
{
    let Ok(name) = String::from_str(alloc, name) else {
        return Err(Want);
    };
    if let Some(names) = groups.get_mut(group) {
        return put_in(names, name, instance);
    }
    put_first(groups, alloc, group, name, instance)
}

/// Takes the instance of a name away. The answer is whether the group has none left.
fn take_in(names: &mut BTreeMap<String, Instance>, name: &str) -> bool
    ensures puts { PutsName (Some names.old) name.now None (Some names.new) }
    ensures empty { result ≡ true → (other : List ℕ) → get_by_text names.new other ≡ None }
{
    names.remove(name);
    names.is_empty()
}

/// Takes the instance of a group and a name away. The answer is whether the group has none left.
fn take_name(
    groups: &mut BTreeMap<String, BTreeMap<String, Instance>>,
    group: &str,
    name: &str,
) -> bool
    ensures puts { Puts groups.old (key_in group.now name.now) None groups.new }
    ensures empty { result ≡ true → (other : List ℕ) → named_in (get_by_text groups.new group.now) other ≡ None }
{
    match groups.get_mut(group) {
        Some(names) => take_in(names, name),
        None => false,
    }
}

/// Takes the instance of a group and a name away, and with its last instance the group.
pub(crate) fn take_under(
    groups: &mut BTreeMap<String, BTreeMap<String, Instance>>,
    group: &str,
    name: &str,
)
    ensures puts { Puts groups.old (key_in group.now name.now) None groups.new }
{
    if take_name(groups, group, name) {
        groups.remove(group);
    }
}
