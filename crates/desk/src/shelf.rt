ghost use Rattle.std.specs.Prelude.{◌≡◌, ◌&&◌};
ghost use Rattle.model.specs.state.World.{Key};
ghost use Rattle.model.specs.state.Entry.Call.{Of};
ghost use Rattle.rest_calls.specs.Views.{asked_of};
ghost use Rattle.model.specs.state.World.{Settings as Asked};
ghost use Rattle.model.specs.state.Entry.Act.{Create};
ghost use Rattle.rest_calls.specs.Views.{settings_of};
ghost use Rattle.desk.specs.Keys.{group_in, name_in_call};
ghost use Rattle.desk.specs.Shelf.{is_create_call, is_delete_call, is_empty_reply};

use broker_link::Edge;
use instance::Outcome;
use rest_calls::{Call, Format, Settings};
use rest_codes::Reply;

/// The group that a consumer's call names.
pub(crate) fn group_of(call: &Call) -> &str
    ensures { result.now ≡ group_in (asked_of call.now) }
{
    match call {
        Call::Produce { .. } | Call::Ask(_) => "",
        Call::Create { group, .. } => group.as_str(),
        Call::Delete { group, .. } => group.as_str(),
        Call::Assign { group, .. } => group.as_str(),
        Call::Assignments { group, .. } => group.as_str(),
        Call::Subscription { group, .. } => group.as_str(),
        Call::Seek { group, .. } => group.as_str(),
        Call::SeekEdge { group, .. } => group.as_str(),
        Call::Records { group, .. } => group.as_str(),
    }
}

/// The instance that a consumer's call names.
pub(crate) fn name_of(call: &Call) -> &str
    ensures { result.now ≡ name_in_call (asked_of call.now) }
{
    match call {
        Call::Create {
            name: Some(name),
            ..
        } => name.as_str(),
        Call::Delete { instance, .. } => instance.as_str(),
        Call::Assign { instance, .. } => instance.as_str(),
        Call::Assignments { instance, .. } => instance.as_str(),
        Call::Subscription { instance, .. } => instance.as_str(),
        Call::Seek { instance, .. } => instance.as_str(),
        Call::SeekEdge { instance, .. } => instance.as_str(),
        Call::Records { instance, .. } => instance.as_str(),
        _ => "",
    }
}

/// The settings that a Create names, and for another call those of a Create that names none.
pub(crate) fn settings_in(call: &Call) -> Settings
    ensures { (key : Key) (settings : Asked) → asked_of call.now ≡ Of key (Create settings) → settings_of result ≡ settings }
{
    match call {
        Call::Create { settings, .. } => *settings,
        _ => Settings {
            format: Format::Binary,
            reset: Edge::End,
            min_bytes: 1,
            timeout_ms: 1000,
        },
    }
}

pub(crate) fn is_create(call: &Call) -> bool
    ensures { result ≡ is_create_call (asked_of call.now) }
{
    matches!(call, Call::Create { .. })
}

fn is_delete(call: &Call) -> bool
    ensures { result ≡ is_delete_call (asked_of call.now) }
{
    matches!(call, Call::Delete { .. })
}

fn is_done(outcome: &Outcome) -> bool
    ensures { result ≡ is_empty_reply outcome.now.reply }
{
    matches!(outcome.reply, Some(Reply::Empty))
}

/// The call was a Delete, and it was done.
pub(crate) fn has_deleted(call: &Call, outcome: &Outcome) -> bool
    ensures { result ≡ (is_delete_call (asked_of call.now) && is_empty_reply outcome.now.reply) }
{
    is_delete(call) && is_done(outcome)
}
