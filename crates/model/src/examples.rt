//! Example histories of reading.

ghost use Rattle.std.specs.Prelude.{ℕ, ◌≤◌, ◌≡◌, true, false, [], Some, None};
ghost use Rattle.model.specs.history.Legal.{Counts, Legal};
ghost use Rattle.model.specs.history.Served.{Serves};
ghost use Rattle.model.specs.state.World.Edge.{Start, End};
ghost use Rattle.model.specs.examples.Readings.{three, four, log_of, reader_at, only, read_by_one, read_after_seek, read_from_the_start, read_from_the_end};
ghost use Rattle.model.specs.state.World.Format.{Binary};
ghost use Rattle.model.specs.state.Entry.Reply.{Shown};
ghost use Rattle.model.specs.examples.Asking.{questions};
ghost use Rattle.model.specs.examples.Waiting.{four_looks, waited_in_vain, waiting};
ghost use Rattle.model.specs.examples.Expiring.{made_used_gone, only_at, used_at};
ghost use Rattle.model.specs.examples.Subscribing.{both, read_by_subscription, twice_committed};
ghost use Rattle.model.specs.state.World.{nobody};
ghost use Rattle.model.specs.examples.ReadingReplies.{told_of_topics, made_again, by_subscription, replies_of, one_by_one, after_seek, from_the_start, from_the_end};

/// Three records that are read with `max_bytes=1`: each call shows one, and the fourth none. Every
/// entry is a step, with these replies.
pub fn reading_one_by_one_is_legal()
    ensures legal { (counts : Counts)
        → Legal 300000 counts read_by_one (only (reader_at Start 3 false)) (log_of three (Some 3)) }
    ensures replies { replies_of read_by_one ≡ one_by_one }
{}

/// With `max_bytes=10` two are shown; after a seek to 1 the second and third are; a seek of a
/// partition that isn't assigned is refused, and the next read is unchanged by it.
pub fn reading_after_a_seek_is_legal()
    ensures legal { (counts : Counts)
        → Legal 300000 counts read_after_seek (only (reader_at Start 3 false)) (log_of three (Some 3)) }
    ensures replies { replies_of read_after_seek ≡ after_seek }
{}

/// From position 99 of three records a consumer made with `earliest` is set to the start, and shows
/// all three.
pub fn reading_from_the_start_is_legal()
    ensures legal { (counts : Counts)
        → Legal 300000 counts read_from_the_start (only (reader_at Start 3 true)) (log_of three None) }
    ensures replies { replies_of read_from_the_start ≡ from_the_start }
{}

/// One made with `latest` is set to the end and shows none; the record that is produced then is read
/// next; after a seek to the end and one to the beginning all four are.
pub fn reading_from_the_end_is_legal()
    ensures legal { (counts : Counts)
        → Legal 300000 counts read_from_the_end (only (reader_at End 4 true)) (log_of four (Some 0)) }
    ensures replies { replies_of read_from_the_end ≡ from_the_end }
{}

/// A consumer that subscribes is given both partitions and shown their records; its next look commits
/// the positions; a commit, what is asked of it, a refused assignment and its end are steps too. The
/// link's counts pay for the rebalance and for two looks.
pub fn reading_by_subscription_is_legal()
    ensures legal { (counts : Counts)
        → 1 ≤ counts.polls → 1 ≤ counts.beats → Legal 300000 counts read_by_subscription nobody (both twice_committed) }
    ensures replies { replies_of read_by_subscription ≡ by_subscription }
{}

/// A consumer that isn't used for five minutes is gone: one millisecond before it is found, and five
/// minutes after that its call is answered 40403; then it can be made again.
pub fn expiry_by_example_is_legal()
    ensures legal { (counts : Counts)
        → Legal 300000 counts made_used_gone (only_at (used_at 599999) 599999) (log_of [] None) }
    ensures replies { replies_of made_used_gone ≡ made_again }
{}

/// A call of an empty topic with `timeout=25` has four looks, the last of which answers no rows: every
/// entry is a step, and together they serve the call.
pub fn a_wait_has_four_looks()
    ensures legal { (counts : Counts)
        → Legal 300000 counts waited_in_vain (only (reader_at Start 0 false)) (log_of [] None) }
    ensures serves { Serves waiting (Shown Binary []) four_looks }
{}

/// Each question on topics is answered in a step: the nodes, the names, a topic, its partitions, one
/// of them and where it begins and ends; a topic that isn't there by 40401, a partition by 40402.
pub fn questions_are_answered()
    ensures legal { (counts : Counts) → Legal 300000 counts questions nobody (log_of three None) }
    ensures replies { replies_of questions ≡ told_of_topics }
{}
