ghost use Rattle.broker_link.specs.Stands.{Consults};
ghost use Rattle.rest_calls.specs.Questions.{question_of};
ghost use Rattle.topic_reads.specs.Asked.{Asks};

use crate::find::find;
use broker_link::Link;
use rest_calls::Question;
use rest_codes::Reply;
use rest_replies::found_reply;
use std::alloc::Global;

/// Answers a question by what the link tells when it is asked.
pub fn ask<L: Link>(alloc: Global, link: &mut L, question: &Question) -> Reply
    ensures asks { Asks (question_of question.now) (L.stand link.old) result (L.stand link.new) }
    ensures consults { Consults (L.stand link.old) (L.stand link.new) }
{
    let found = find(alloc, link, question);
    found_reply(alloc, question, found)
}
