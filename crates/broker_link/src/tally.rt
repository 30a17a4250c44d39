//! What a link in memory counts.

ghost use Rattle.std.specs.Prelude.{◌≡◌, Option, None, IfErr, OnOk};
ghost use Rattle.gate_io.specs.Counts.{Rose};
ghost use Rattle.broker_link.specs.Causes.{CodeComes, ComesOf};
ghost use Rattle.broker_link.specs.Made.{no_counts, none_asked};
ghost use Rattle.broker_link.specs.Replies.{CountsKept};
ghost use Rattle.broker_link.specs.Stands.{IsOneMore};
ghost use Rattle.broker_link.specs.declared.link.LinkNo.TheVariants.{Refused};

use crate::LinkNo;
use std::marker::Model;

#[derive(Debug, Drop)]
pub(crate) struct Tally {
    faults: u64,
    refusals: u64,
    sent: u64,
    last_code: i16,
}

impl Model for Tally {
    ghost use Rattle.broker_link.specs.Causes.{Counts};

    ghost Value = { Counts };

    ghost view = { λ t. record { faults = t.faults; refusals = t.refusals; sent = t.sent; polls = 0; beats = 0; last_code = t.last_code } };
}

impl Tally {
    pub(crate) fn new() -> Tally
        ensures { result ≡ no_counts }
    {
        Tally {
            faults: 0,
            refusals: 0,
            sent: 0,
            last_code: 0,
        }
    }

    /// Counts a call that is sent.
    pub(crate) fn send(&mut self)
        ensures rose { Rose self.old.sent self.new.sent }
        ensures kept { CountsKept self.old self.new }
    {
        self.sent = self.sent.saturating_add(1);
    }

    /// Counts a code that was answered for a part of the call.
    pub(crate) fn note(&mut self, code: Option<i16>)
        ensures comes { CodeComes self.old self.new code }
        ensures kept { CountsKept self.old self.new }
    {
        if let Some(code) = code {
            self.refusals = self.refusals.saturating_add(1);
            self.last_code = code;
        }
    }

    /// Counts the failure of a whole call by its code; 0 is a fault.
    pub(crate) fn fail(&mut self, code: i16) -> LinkNo
        ensures cause { ComesOf self.old self.new result }
        ensures kept { CountsKept self.old self.new }
    {
        if code == 0 {
            self.faults = self.faults.saturating_add(1);
            return LinkNo::Fault;
        }
        self.note(Some(code));
        LinkNo::Refused(code)
    }

    /// Fails with the code, where there is one.
    pub(crate) fn fail_by(&mut self, code: Option<i16>) -> Result<(), LinkNo>
        ensures cause { IfErr result (ComesOf self.old self.new) }
        ensures stays { OnOk result (self.new ≡ self.old) }
        ensures kept { CountsKept self.old self.new }
        ensures none { code ≡ None → IfErr result (λ e. ⊥) }
    {
        match code {
            Some(code) => Err(self.fail(code)),
            None => Ok(()),
        }
    }
}

/// The produce calls that were asked, and the moment that the last of them was given.
#[derive(Debug, Drop)]
pub(crate) struct Asked {
    calls: u64,
    moment: u64,
}

impl Model for Asked {
    ghost use Rattle.broker_link.specs.Stands.{Produces};

    ghost Value = { Produces };

    ghost view = { λ a. record { calls = a.calls; moment = a.moment } };
}

impl Asked {
    pub(crate) fn new() -> Asked
        ensures { result ≡ none_asked }
    {
        Asked {
            calls: 0,
            moment: 0,
        }
    }

    /// Counts a produce call with its moment.
    pub(crate) fn ask(&mut self, now: u64)
        ensures { IsOneMore now self.old self.new }
    {
        self.calls = self.calls.saturating_add(1);
        self.moment = now;
    }
}
