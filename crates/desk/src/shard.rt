ghost use Rattle.std.specs.Prelude.{◌≡◌, ◌<◌, ◌*◌, ◌^◌, max, ℕ, List, [], IfNone, IfOk, IfSome, All, length, Some, None, true};
ghost use Rattle.broker_link.specs.Stands.{IsOnceAtMost};
ghost use Rattle.model.specs.state.World.{Key, nobody};
ghost use Rattle.model.specs.state.Entry.{Act};
ghost use Rattle.model.specs.state.Entry.Call.{Ask, Of, Produce};
ghost use Rattle.model.specs.history.Noted.{EndsInLook};
ghost use Rattle.rest_calls.specs.Questions.{question_of};
ghost use Rattle.rest_calls.specs.Responses.{response_in};
ghost use Rattle.rest_calls.specs.Views.{asked_of, batch_of, is_unnamed, PartitionFits};
ghost use Rattle.instance.specs.Passing.{Consults};
ghost use Rattle.instance.specs.Views.{events_in, said_in};
ghost use Rattle.desk.specs.Keys.{consumer_key};
ghost use Rattle.desk.specs.Shelf.{consumer_in, is_create_call, world_in};
ghost use Rattle.desk.specs.Call.{CallsAt, CallsFirst, OthersKept, SameSetup};
ghost use Rattle.desk.specs.Action.{Waits};
ghost use Rattle.desk.specs.Runs.{ShardSteps};
ghost use Rattle.desk.specs.Step.{IsEntry, noted};

use crate::Entry;
use crate::consumers::Consumers;
use crate::shelf::{group_of, has_deleted, is_create, name_of, settings_in};
use broker_link::Link;
use gate_io::{Items, Text, Want};
use instance::{Instance, Outcome};
use producer::produce;
use rest_calls::{Batch, Call, Question, Settings};
use rest_codes::Reply;
use rest_replies::{made, refused, reply_to};
use std::alloc::Global;
use std::snapshot::Snapshot;
use topic_reads::ask;

/// The consumers of some keys over a link, and the moment of the last step, in milliseconds.
#[derive(Drop)]
pub struct Shard<L> {
    link: L,
    /// The link as it was at the beginning, as contracts see it.
    first: Snapshot<L>,
    advertise: Text,
    instances: Consumers,
    last: u64,
}

/// The table of schemas by which rows were shown: none, since no form has schemas yet.
fn no_table(alloc: Global) -> Snapshot<Items<Text>>
    ensures { result.value ≡ [] }
{
    let table = Items::new(alloc);
    Snapshot::of(&table)
}

impl<L: Link + Drop> Shard<L> {
    /// Nobody is live, at moment 0. `advertise` is the host and port at which clients reach the gateway.
    pub fn new(alloc: Global, link: L, advertise: Text) -> Shard<L>
        ensures link { result.link ≡ link }
        ensures first { result.first.value ≡ link }
        ensures advertise { result.advertise ≡ advertise }
        ensures instances { world_in result.instances result.last ≡ nobody }
        ensures last { result.last ≡ 0 }
    {
        let first = Snapshot::of(&link);
        Shard {
            link,
            first,
            advertise,
            instances: Consumers::new(alloc),
            last: 0,
        }
    }

    /// The link, with which the consumers are gone.
    pub fn close(self) -> L
        ensures { result ≡ self.link }
    {
        let Shard { link, .. } = self;
        link
    }

    /// Does a call of the instance under its key, if one is live there. It is gone after a Delete that
    /// was done.
    fn call_live(&mut self, alloc: Global, moment: u64, round: u32, call: &Call) -> Option<Outcome>
        requires whose { (key : Key) × (act : Act) × (asked_of call.now ≡ Of key act) }
        ensures calls { IfSome result (λ outcome. (advertise : List ℕ) → CallsAt advertise moment round (asked_of call.now) (L.stand self.old.link) self.old.instances outcome (L.stand self.new.link) self.new.instances) }
        ensures others { OthersKept (asked_of call.now) self.old.instances self.new.instances }
        ensures waits { IfSome result (Waits round) }

        ensures nobody { IfNone result (consumer_in self.new.instances (consumer_key (asked_of call.now)) ≡ None) }
        ensures none { IfNone result ((consumer_in self.old.instances (consumer_key (asked_of call.now)) ≡ None) × (self.new.link ≡ self.old.link)) }

        ensures setup { SameSetup self.old self.new }
        ensures consults { Consults (L.stand self.old.link) (L.stand self.new.link) }
    {
        let Some(outcome) = self
            .instances
            .act(alloc, &mut self.link, moment, round, call)
        else {
            return None;
        };
        if !has_deleted(call, &outcome) {
            return Some(outcome);
        }
        self.instances.remove(group_of(call), name_of(call));
        Some(outcome)
    }

    /// Makes the instance that a Create names.
    fn create(&mut self, alloc: Global, moment: u64, call: &Call) -> Reply
        requires create { is_create_call (asked_of call.now) ≡ true }
        requires none { consumer_in self.old.instances (consumer_key (asked_of call.now)) ≡ None }
        ensures calls { CallsFirst self.old.advertise moment (asked_of call.now) (L.stand self.old.link) [] (Some (response_in result)) self.new.instances }
        ensures others { OthersKept (asked_of call.now) self.old.instances self.new.instances }
        ensures link { self.new.link ≡ self.old.link }
        ensures setup { SameSetup self.old self.new }
    {
        let group = group_of(call);
        let name = name_of(call);
        let reply = made(alloc, self.advertise.as_str(), group, name);
        if let Reply::Want = reply {
            return Reply::Want;
        }
        let settings = settings_in(call);
        let instance = match Instance::new(alloc, group, name, &settings, moment) {
            Ok(instance) => instance,
            Err(Want) => return Reply::Want,
        };
        match self.instances.add(alloc, group, name, instance) {
            Ok(()) => reply,
            Err(Want) => Reply::Want,
        }
    }

    /// Does a call under whose key nobody is live.
    fn call_missing(&mut self, alloc: Global, moment: u64, call: &Call) -> Outcome
        requires none { consumer_in self.old.instances (consumer_key (asked_of call.now)) ≡ None }
        ensures calls { CallsFirst self.old.advertise moment (asked_of call.now) (L.stand self.old.link) (events_in result) (said_in result) self.new.instances }
        ensures others { OthersKept (asked_of call.now) self.old.instances self.new.instances }
        ensures replied { result.reply ≡ None → ⊥ }
        ensures link { self.new.link ≡ self.old.link }
        ensures setup { SameSetup self.old self.new }
    {
        if is_create(call) {
            let reply = self.create(alloc, moment, call);
            return Outcome::of_reply(alloc, reply);
        }
        let reply = refused(alloc, 40403);
        Outcome::of_reply(alloc, reply)
    }

    /// Does a consumer's call, whether an instance is live under its key or not.
    fn dispatch(&mut self, alloc: Global, moment: u64, round: u32, call: &Call) -> Outcome
        requires whose { (key : Key) × (act : Act) × (asked_of call.now ≡ Of key act) }
        ensures calls { CallsAt self.old.advertise moment round (asked_of call.now) (L.stand self.old.link) self.old.instances result (L.stand self.new.link) self.new.instances }
        ensures others { OthersKept (asked_of call.now) self.old.instances self.new.instances }
        ensures waits { Waits round result }
        ensures setup { SameSetup self.old self.new }
        ensures consults { Consults (L.stand self.old.link) (L.stand self.new.link) }
    {
        match self.call_live(alloc, moment, round, call) {
            Some(outcome) => outcome,
            None => self.call_missing(alloc, moment, call),
        }
    }

    /// Does a consumer's call for a caller: one step. Its moment is `now`, or that of the last step
    /// where that is greater; `round` counts the looks that the call had before.
    pub fn step(&mut self, alloc: Global, caller: u32, now: u64, round: u32, call: &Call) -> Entry
        requires whose { (key : Key) × (act : Act) × (asked_of call.now ≡ Of key act) }
        ensures steps { ShardSteps L.stand self.old (noted result) self.new }

        // What is known of the entry, whatever the link tells.
        ensures entry { IsEntry caller (max now self.old.last) (asked_of call.now) round result }
        ensures waits { result.reply ≡ None → 10 * round < 2 ^ 32 }
        ensures looks { result.reply ≡ None → EndsInLook (noted result).events round }
        ensures asked { (L.stand self.new.link).produces ≡ (L.stand self.old.link).produces }

        ensures advertise { self.new.advertise ≡ self.old.advertise }
        ensures first { self.new.first ≡ self.old.first }
    {
        let moment = now.max(self.last);
        self.last = moment;
        let outcome = self.dispatch(alloc, moment, round, call);
        Entry {
            caller,
            moment,
            events: outcome.events,
            call: Some(Snapshot::of(call)),
            round: Some(round),
            table: no_table(alloc),
            reply: outcome.reply,
        }
    }

    /// Answers a question for a caller: one step. `asked` is the call that it is of.
    pub fn ask(
        &mut self,
        alloc: Global,
        caller: u32,
        now: u64,
        asked: Snapshot<Call>,
        question: &Question,
    ) -> Entry
        requires whose { asked_of asked.value ≡ Ask (question_of question.now) }
        ensures steps { ShardSteps L.stand self.old (noted result) self.new }

        // What is known of the entry, whatever the link tells.
        ensures entry { IsEntry caller (max now self.old.last) (Ask (question_of question.now)) 0 result }
        ensures replied { result.reply ≡ None → ⊥ }
        ensures asked { (L.stand self.new.link).produces ≡ (L.stand self.old.link).produces }

        ensures advertise { self.new.advertise ≡ self.old.advertise }
        ensures first { self.new.first ≡ self.old.first }
    {
        let moment = now.max(self.last);
        self.last = moment;
        let reply = ask(alloc, &mut self.link, question);
        Entry {
            caller,
            moment,
            events: Items::new(alloc),
            call: Some(asked),
            round: Some(0),
            table: no_table(alloc),
            reply: Some(reply),
        }
    }

    /// Stores the records of a produce for a caller: one step. There are some, fewer than 2^63, and
    /// a partition that one names is from 0 to 2147483647. `asked` is the call that they are of.
    pub fn produce(
        &mut self,
        alloc: Global,
        caller: u32,
        now: u64,
        asked: Snapshot<Call>,
        topic: &str,
        batch: Batch,
    ) -> Entry
        requires some { 0 < length batch.rows }
        requires few { length batch.rows < 2 ^ 63 }
        requires fit { All PartitionFits batch.rows }
        requires whose { asked_of asked.value ≡ Produce topic.now (batch_of batch) }
        ensures steps { ShardSteps L.stand self.old (noted result) self.new }

        // What is known of the entry, whatever the link tells.
        ensures entry { IsEntry caller (max now self.old.last) (Produce topic.now (batch_of batch)) 0 result }
        ensures replied { result.reply ≡ None → ⊥ }
        ensures asked { IsOnceAtMost result.moment (L.stand self.old.link).produces (L.stand self.new.link).produces }

        ensures advertise { self.new.advertise ≡ self.old.advertise }
        ensures first { self.new.first ≡ self.old.first }
    {
        let moment = now.max(self.last);
        self.last = moment;
        let answer = produce(alloc, moment, &mut self.link, topic, batch);
        let reply = reply_to(alloc, answer);
        Entry {
            caller,
            moment,
            events: Items::new(alloc),
            call: Some(asked),
            round: Some(0),
            table: no_table(alloc),
            reply: Some(reply),
        }
    }
}
