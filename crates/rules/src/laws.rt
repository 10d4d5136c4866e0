// The theorems of the rules, each the contract of a function.
ghost use Rattle.rules.specs.Begun.{BegunMonthsFixed};
ghost use Rattle.rules.specs.Classes.{ClassLaws};
ghost use Rattle.rules.specs.Closed.{ClosedMonthsStay};
ghost use Rattle.rules.specs.Figures.{FiguresAgree};
ghost use Rattle.rules.specs.Ledger.{Ledger};
ghost use Rattle.rules.specs.Refused.{RefusedChangesNothing};
ghost use Rattle.rules.specs.Replays.{EntriesReplay};
ghost use Rattle.rules.specs.Sums.{ThreeSums};

// What holds after every list of calls.
#[tactic(auto, using(crate::proofs::Main::three_sums))]
pub fn three_sums_stand() -> bool
    ensures { ThreeSums }
{
    true
}

// The worked figures.
#[tactic(auto, using(crate::proofs::Computes::figures_agree_lem))]
pub fn figures_agree() -> bool
    ensures { FiguresAgree }
{
    true
}

// The position, payment and deduction of a month are fixed when it begins; no later call moves them.
pub fn begun_months_fixed() -> bool
    ensures { BegunMonthsFixed }
{
    true
}

// What was answered of a closed month stays, whatever is called later.
pub fn closed_months_stay() -> bool
    ensures { ClosedMonthsStay }
{
    true
}

// A refused call leaves the ledger as it was.
#[tactic(auto, using(crate::proofs::Refused::changes_nothing))]
pub fn refused_changes_nothing() -> bool
    ensures { (l : Ledger) → RefusedChangesNothing l }
{
    true
}

// The standing entries of every book, entered again in set-up, are accepted and make the same entries.
#[tactic(auto, using(crate::proofs::Entered::entries_replay_lem))]
pub fn entries_replay() -> bool
    ensures { EntriesReplay }
{
    true
}

// What the table of classes comes to.
#[tactic(auto, using(crate::proofs::Classes::class_laws))]
pub fn class_table_stands() -> bool
    ensures { ClassLaws }
{
    true
}
