ghost use Rattle.std.specs.Prelude.{◌≡◌, ◌≢◌, ◌<◌, ◌*◌, ◌^◌, ℕ, List, [], IfOk, Option, None, Some, map};
ghost use Rattle.model.specs.state.World.{Format, IsConsumer, fresh, is_key};
ghost use Rattle.model.specs.state.World.Mode.{ByTopics};
ghost use Rattle.model.specs.state.Entry.{Act};
ghost use Rattle.model.specs.state.Entry.Act.{Records};
ghost use Rattle.model.specs.state.Entry.Call.{Of};
ghost use Rattle.model.specs.history.Noted.{EndsInLook};
ghost use Rattle.rest_calls.specs.Views.{asked_of, key_in, settings_of};
ghost use Rattle.consumer_state.specs.Assign.{ActsSo};
ghost use Rattle.instance.specs.Handed.{LooksAtGiven};
ghost use Rattle.rest_calls.specs.Responses.{response_in};
ghost use Rattle.instance.specs.Passing.{Consults};
ghost use Rattle.instance.specs.Telling.{TellsSo};
ghost use Rattle.broker_link.specs.Places.{at_in};
ghost use Rattle.instance.specs.Views.{events_in, said_in};

use crate::Outcome;
use crate::look::look;
use broker_link::Link;
use consumer_state::{Consumer, assign_parts, seek, seek_edge};
use gate_io::{Text, Want};
use rest_calls::{Call, Settings};
use rest_codes::Reply;
use rest_replies::{listed, no_subscription, refused};
use std::alloc::{AllocError, Global};
use std::marker::Model;

/// A live consumer instance of a group.
#[derive(Debug, Drop)]
pub struct Instance {
    group: Text,
    name: Text,
    consumer: Consumer,
}

impl Model for Instance {
    ghost use Rattle.consumer_state.specs.Views.{IsSound, consumer_of};
    ghost use Rattle.instance.specs.Views.{Live};

    ghost Value = { Live };

    ghost view = { λ i. record { key = record { group = i.group; instance = i.name }; consumer = consumer_of i.consumer } };

    ghost invariant = { λ i. IsSound i.consumer };
}

/// The reply to a call that asks the link nothing.
fn told(alloc: Global, consumer: &Consumer, call: &Call) -> Reply
    ensures says { TellsSo (map at_in consumer.now.assignment.items) call.now result }
{
    match call {
        Call::Create { .. } => refused(alloc, 40902),
        Call::Delete { .. } => Reply::Empty,
        Call::Assignments { .. } => listed(alloc, consumer.assignment.as_slice()),
        Call::Subscription { .. } => no_subscription(alloc),
        _ => Reply::Want,
    }
}

impl Instance {
    /// A new instance, with nothing assigned.
    pub fn new(
        alloc: Global,
        group: &str,
        instance: &str,
        settings: &Settings,
        now: u64,
    ) -> Result<Instance, Want>
        ensures key { IfOk result (λ i. i.key ≡ key_in group.now instance.now) }
        ensures consumer { IfOk result (λ i. i.consumer ≡ fresh (settings_of settings.now) now) }
    {
        let Ok(group) = Text::from_str(alloc, group) else {
            return Err(Want);
        };
        let Ok(name) = Text::from_str(alloc, instance) else {
            return Err(Want);
        };
        let consumer = Consumer {
            settings: *settings,
            assignment: Vec::new(alloc),
            rotation: 0,
            unsaved: false,
            last_use: now,
        };
        Ok(Instance {
            group,
            name,
            consumer,
        })
    }

    /// The moment of last use.
    pub fn last_use(&self) -> u64
        ensures value { result ≡ self.now.consumer.last_use }
        ensures sound { IsConsumer self.now.consumer }
    {
        self.consumer.last_use
    }

    /// It is the instance of that name in that group.
    pub fn is_of(&self, group: &str, instance: &str) -> bool
        ensures { result ≡ is_key self.now.key (key_in group.now instance.now) }
    {
        self.group.as_str() == group && self.name.as_str() == instance
    }

    /// Does a call of this instance. `round` counts the looks that the call had before.
    pub fn act<L: Link>(
        &mut self,
        alloc: Global,
        link: &mut L,
        now: u64,
        round: u32,
        call: &Call,
    ) -> Outcome
        requires whose { (act : Act) × (asked_of call.now ≡ Of self.old.key act) }
        ensures acts { (advertise : List ℕ) (act : Act) → asked_of call.now ≡ Of self.old.key act
            → ActsSo advertise self.old.key now round act (L.stand link.old).tells (L.stand link.old).plain (L.stand link.old).counts (L.stand link.new).counts self.old.consumer (L.stand link.old).log (events_in result) (said_in result) (L.stand link.new).log self.new.consumer }
        ensures handed { (formats : List Format) (timeout bound : Option ℕ) → asked_of call.now ≡ Of self.old.key (Records formats timeout bound)
            → (L.stand link.old).in_turn → (L.stand link.old).tells → LooksAtGiven now round formats timeout bound self.old.consumer (events_in result) (said_in result) (L.stand link.new).log self.new.consumer }
        ensures key { self.new.key ≡ self.old.key }
        ensures unsubscribed { self.old.consumer.mode ≢ ByTopics }
        ensures waits { result.reply ≡ None → 10 * round < 2 ^ 32 }
        ensures looks { result.reply ≡ None → EndsInLook (events_in result) round }
        ensures sound { IsConsumer self.new.consumer }

        ensures consults { Consults (L.stand link.old) (L.stand link.new) }
    {
        match call {
            Call::Records {
                accepts,
                timeout,
                max_bytes,
                ..
            } => look(
                &mut self.consumer,
                alloc,
                link,
                now,
                round,
                *accepts,
                *timeout,
                *max_bytes,
            ),
            Call::Assign { parts, .. } => Outcome::of_reply(
                alloc,
                assign_parts(
                    &mut self.consumer,
                    alloc,
                    link,
                    now,
                    self.group.as_str(),
                    parts.as_slice(),
                ),
            ),
            Call::Seek { places, .. } => Outcome::of_reply(
                alloc,
                seek(&mut self.consumer, alloc, now, places.as_slice()),
            ),
            Call::SeekEdge { edge, parts, .. } => Outcome::of_reply(
                alloc,
                seek_edge(
                    &mut self.consumer,
                    alloc,
                    link,
                    now,
                    *edge,
                    parts.as_slice(),
                ),
            ),
            other => {
                self.consumer.last_use = now;
                Outcome::of_reply(alloc, told(alloc, &self.consumer, other))
            }
        }
    }
}
