//! How a legal history goes on.

ghost use Rattle.std.specs.Prelude.{ℕ, ℤ, true, codes, ◌≡◌, [], ◌∷◌, Some};
ghost use Rattle.model.specs.state.Entry.Placed.{Failed};
ghost use Rattle.model.specs.state.Entry.Reply.{Answers, Broker, LinkFault};
ghost use Rattle.model.specs.history.Legal.{Counts, FaultsArePaid, HistoriesGoOn, Legal, RefusalsArePaid, is_fault, is_refusal};
ghost use Rattle.model.specs.history.Causes.{CausesPay};
ghost use Rattle.model.specs.examples.Example;

/// A legal history goes on by a step whose events the link's counts pay for.
pub fn histories_go_on()
    ensures { HistoriesGoOn }
{}

/// A legal history goes on by a step whose events and reply have their causes in the link's counts.
pub fn causes_pay()
    ensures { CausesPay }
{}

/// In a legal history no more entries are answered by a fault of the link than the link counts
/// faults, and no more by a broker's code, or with an error in a record, than it counts refusals.
pub fn answers_are_paid()
    ensures faults { FaultsArePaid }
    ensures refusals { RefusalsArePaid }

    ensures faulty { is_fault (Some LinkFault) ≡ true }
    ensures refused { (code : ℤ) → is_refusal (Some (Broker code)) ≡ true }
    ensures failed { (partition : ℕ) (code : ℤ)
        → is_refusal (Some (Answers (Failed partition code ∷ []))) ≡ true }
{}

/// A history in which a consumer is made, is assigned a partition and is shown its one row is legal.
pub fn some_history_is_legal()
    ensures { (counts : Counts)
        → Legal 300000 counts Example.history (Example.with_one Example.behind) Example.one_row }
{}
