ghost use Rattle.std.specs.Prelude.{◌≡◌, ◌⊎◌, ◌<◌, ◌*◌, ◌^◌, length, option_map, cond, All, Some, None};
ghost use Rattle.gate_io.specs.Clocks.{after_pause};
ghost use Rattle.broker_link.specs.Stands.{Goes};
ghost use Rattle.model.specs.state.Log.{IsLog};
ghost use Rattle.model.specs.state.World.{Key, nobody};
ghost use Rattle.model.specs.state.Entry.{Act};
ghost use Rattle.model.specs.state.Entry.Call.{Ask, Of, Produce};
ghost use Rattle.rest_calls.specs.Questions.{question_of};
ghost use Rattle.rest_calls.specs.Responses.{response_in};
ghost use Rattle.rest_calls.specs.Views.{asked_of, batch_of, entered, HasFewRecords, HasRecords, PartitionFits, PartitionsFit};
ghost use Rattle.desk.specs.Shelf.{world_in};
ghost use Rattle.desk.specs.Step.{no_expiry};
ghost use Rattle.desk.specs.Runs.{IsTurn, ShardAnswered, ShardAnswers, Stays, named_after, state_of};

use crate::naming::name_unnamed;
use crate::{Entry, Shard};
use broker_link::Link;
use gate_io::{Clock, Text, Want};
use rest_calls::{Batch, Call, Question};
use rest_codes::Reply;
use std::alloc::Global;
use std::snapshot::Snapshot;

/// The number of the one caller.
const CALLER: u32 = 0;

/// How long a look that found too little waits for the next, in milliseconds.
const PAUSE_MS: u64 = 10;

/// The gateway for one caller: one shard, and how many instances it has named.
#[derive(Drop)]
pub struct AloneDesk<L> {
    shard: Shard<L>,
    names_given: u64,
}

/// Pauses after a look without reply.
fn pause_if_waiting<C: Clock>(clock: &mut C, is_waiting: bool)
    ensures ticking { C.tells clock.old → C.tells clock.new }
    ensures hand { C.tells clock.old → C.hand clock.new ≡ cond is_waiting (after_pause 10 (C.hand clock.old)) (C.hand clock.old) }
{
    if is_waiting {
        clock.pause(PAUSE_MS);
    }
}

/// A call, and the same as contracts see it.
struct Seen {
    call: Call,
    asked: Snapshot<Call>,
}

fn see(call: Call) -> Seen
    ensures call { result.call ≡ call }
    ensures asked { result.asked.value ≡ result.call }
{
    let asked = Snapshot::of(&call);
    Seen { call, asked }
}

impl<L: Link + Drop> AloneDesk<L> {
    /// Nobody is live, at moment 0. `advertise` is the host and port at which clients reach the gateway.
    pub fn new(alloc: Global, link: L, advertise: Text) -> AloneDesk<L>
        ensures link { result.shard.link ≡ link }
        ensures advertise { result.shard.advertise ≡ advertise }
        ensures instances { world_in result.shard.instances result.shard.last ≡ nobody }
        ensures last { result.shard.last ≡ 0 }
        ensures names_given { result.names_given ≡ 0 }
    {
        AloneDesk {
            shard: Shard::new(alloc, link, advertise),
            names_given: 0,
        }
    }

    /// The link, with which the consumers are gone.
    pub fn close(self) -> L
        ensures { result ≡ self.shard.link }
    {
        let AloneDesk { shard, .. } = self;
        shard.close()
    }

    /// Takes one turn for a consumer's call. One that found too little is followed by a pause.
    fn one_look<C: Clock>(
        &mut self,
        alloc: Global,
        clock: &mut C,
        round: u32,
        call: &Call,
    ) -> Option<Reply>
        requires whose { (key : Key) × (act : Act) × (asked_of call.now ≡ Of key act) }
        ensures turned { (L.stand self.old.shard.link).tells → IsLog (L.stand self.old.shard.link).log
            → IsTurn no_expiry 0 self.old.shard.advertise (L.stand self.old.shard.link).plain (C.tells clock.old) (asked_of call.now) round
            (state_of L.stand self.old.shard (C.hand clock.old)) (option_map response_in result) (state_of L.stand self.new.shard (C.hand clock.new)) }
        ensures waits { result ≡ None → 10 * round < 2 ^ 32 }
        ensures names_given { self.new.names_given ≡ self.old.names_given }
        ensures advertise { self.new.shard.advertise ≡ self.old.shard.advertise }

        ensures goes { Goes (L.stand self.old.shard.link) (L.stand self.new.shard.link) }
        ensures ticking { C.tells clock.old → C.tells clock.new }
    {
        let now = clock.now_ms();
        let entry = self.shard.step(alloc, CALLER, now, round, call);
        pause_if_waiting(clock, entry.reply.is_none());
        entry.reply
    }

    /// Does a consumer's call: looks, until there is a reply.
    #[tactic(auto, using(broker_link::proofs::Going::goes_on))]
    fn look_until_answered<C: Clock>(&mut self, alloc: Global, clock: &mut C, call: &Call) -> Reply
        requires whose { (key : Key) × (act : Act) × (asked_of call.now ≡ Of key act) }
        ensures answered { ShardAnswers L.stand C.tells C.hand self.old.shard clock.old (asked_of call.now) (response_in result) self.new.shard clock.new }
        ensures names_given { self.new.names_given ≡ self.old.names_given }
        ensures advertise { self.new.shard.advertise ≡ self.old.shard.advertise }

        ensures goes { Goes (L.stand self.old.shard.link) (L.stand self.new.shard.link) }
        ensures ticking { C.tells clock.old → C.tells clock.new }
    {
        let mut round = 0;
        loop {
            if let Some(reply) = self.one_look(alloc, clock, round, call) {
                return reply;
            }
            round += 1;
        }
    }

    /// Answers a question, of which `asked` is the call.
    fn ask<C: Clock>(
        &mut self,
        alloc: Global,
        clock: &mut C,
        asked: Snapshot<Call>,
        question: &Question,
    ) -> Reply
        requires whose { asked_of asked.value ≡ Ask (question_of question.now) }
        ensures answered { ShardAnswers L.stand C.tells C.hand self.old.shard clock.old (Ask (question_of question.now)) (response_in result) self.new.shard clock.new }
        ensures names_given { self.new.names_given ≡ self.old.names_given }
        ensures advertise { self.new.shard.advertise ≡ self.old.shard.advertise }

        ensures goes { Goes (L.stand self.old.shard.link) (L.stand self.new.shard.link) }
        ensures ticking { C.tells clock.old → C.tells clock.new }
    {
        let now = clock.now_ms();
        let Entry { reply, .. } = self.shard.ask(alloc, CALLER, now, asked, question);
        match reply {
            Some(reply) => reply,
            None => Reply::Want,
        }
    }

    /// Stores the records of a produce, of which `asked` is the call.
    fn produce<C: Clock>(
        &mut self,
        alloc: Global,
        clock: &mut C,
        asked: Snapshot<Call>,
        topic: &str,
        batch: Batch,
    ) -> Reply
        requires some { 0 < length batch.rows }
        requires few { length batch.rows < 2 ^ 63 }
        requires fit { All PartitionFits batch.rows }
        requires whose { asked_of asked.value ≡ Produce topic.now (batch_of batch) }
        ensures answered { ShardAnswers L.stand C.tells C.hand self.old.shard clock.old (Produce topic.now (batch_of batch)) (response_in result) self.new.shard clock.new }
        ensures names_given { self.new.names_given ≡ self.old.names_given }
        ensures advertise { self.new.shard.advertise ≡ self.old.shard.advertise }

        ensures goes { Goes (L.stand self.old.shard.link) (L.stand self.new.shard.link) }
        ensures ticking { C.tells clock.old → C.tells clock.new }
    {
        let now = clock.now_ms();
        let Entry { reply, .. } = self.shard.produce(alloc, CALLER, now, asked, topic, batch);
        match reply {
            Some(reply) => reply,
            None => Reply::Want,
        }
    }

    /// Answers a call: by the reply of its last entry, or, where memory was wanting before its first
    /// turn, by that. A produce has a record, fewer than 2^63, and a partition that one names is from 0
    /// to 2147483647.
    pub fn answer<C: Clock>(&mut self, alloc: Global, clock: &mut C, call: Call) -> Reply
        requires some { HasRecords call }
        requires few { HasFewRecords call }
        requires fit { PartitionsFit call }
        ensures answered { (L.stand self.old.shard.link).tells → IsLog (L.stand self.old.shard.link).log
            → ShardAnswered L.stand C.tells C.hand self.old.shard clock.old (entered 0 self.old.names_given (asked_of call)) (response_in result) self.new.shard clock.new
            ⊎ Stays result self.old.shard self.new.shard clock.old clock.new }
        ensures names_given { self.new.names_given ≡ named_after (asked_of call) self.old.names_given }
        ensures advertise { self.new.shard.advertise ≡ self.old.shard.advertise }

        ensures goes { Goes (L.stand self.old.shard.link) (L.stand self.new.shard.link) }
        ensures ticking { C.tells clock.old → C.tells clock.new }
    {
        let call = match name_unnamed(alloc, CALLER, &mut self.names_given, call) {
            Ok(call) => call,
            Err(Want) => return Reply::Want,
        };
        let Seen { call, asked } = see(call);
        match call {
            Call::Produce { topic, batch } => {
                self.produce(alloc, clock, asked, topic.as_str(), batch)
            }
            Call::Ask(question) => self.ask(alloc, clock, asked, &question),
            call => self.look_until_answered(alloc, clock, &call),
        }
    }
}
