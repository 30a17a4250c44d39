ghost use Rattle.std.specs.Prelude.{◌≡◌, string_bytes, IfOk, false};
ghost use Rattle.rest_calls.specs.Views.{asked_of, entered, is_unnamed};
ghost use Rattle.desk.specs.Runs.{name_text, named_after, named_so};

use gate_io::{Text, Want};
use rest_calls::Call;
use std::alloc::{AllocError, Global};

fn is_unnamed(call: &Call) -> bool
    ensures { result ≡ is_unnamed (asked_of call.now) }
{
    match call {
        Call::Create { name: None, .. } => true,
        Call::Create {
            name: Some(name),
            ..
        } => name.as_str().is_empty(),
        _ => false,
    }
}

/// A Create with that name.
fn with_name(call: Call, name: Text) -> Call
    ensures { asked_of result ≡ named_so name (asked_of call) }
{
    match call {
        Call::Create {
            group,
            name: _unnamed,
            settings,
        } => Call::Create {
            group,
            name: Some(name),
            settings,
        },
        call => call,
    }
}

#[tactic(auto, unfolding(crate::specs::Runs::name_text))]
fn given_name(alloc: Global, caller: u32, count: u64) -> Result<String, AllocError>
    ensures { IfOk result (λ s. string_bytes s ≡ name_text caller count) }
{
    format!(in alloc; "auto-{caller}-{count}")
}

/// Gives a Create that has no name one, `auto-W-N` with the caller's number and the count of those
/// that it was given so far. The count rises where the name then finds no memory, too.
pub(crate) fn name_unnamed(
    alloc: Global,
    caller: u32,
    names_given: &mut u64,
    call: Call,
) -> Result<Call, Want>
    ensures entered { IfOk result (λ c. asked_of c ≡ entered caller names_given.old (asked_of call)) }
    ensures same { IfOk result (λ c. is_unnamed (asked_of call) ≡ false → c ≡ call) }
    ensures names_given { names_given.new ≡ named_after (asked_of call) names_given.old }
{
    if !is_unnamed(&call) {
        return Ok(call);
    }
    *names_given = names_given.saturating_add(1);
    match given_name(alloc, caller, *names_given) {
        Ok(name) => Ok(with_name(call, Text::from_string(name))),
        Err(AllocError) => Err(Want),
    }
}
