// Every promise by itself. These functions do nothing: they owe the theorems in their contracts.
ghost use Rattle.separation.specs.Agreement.{Noninterference, NotReached};
ghost use Rattle.separation.specs.Each.{Confinement, Execution, LoadsAlike, MessagesArrive, OnTime, OthersRest, Progresses, StaysAccepted, SwitchesFit, TrueTranslation};
ghost use Rattle.separation.specs.Promises.{KeepsPromises};

// Every slot begins at the clock that the plan alone gives.
#[tactic(auto, using(crate::proofs::Each::on_time))]
pub fn slots_on_time()
    ensures { OnTime }
{}

// A slot goes on to its end and at most 90 cycles past it. After its switch the tables are in their first state, and its work ends within the budget.
pub fn switches()
    ensures { SwitchesFit }
{}

// At a switch each receiver's page equals its sender's as it stood, and no other word changes.
#[tactic(auto, using(crate::proofs::Each::messages_arrive))]
pub fn messages()
    ensures { MessagesArrive }
{}

// A partition's words, registers and state change only in its own slots and by messages to it.
pub fn confinement()
    ensures rests { Confinement }
    ensures others { OthersRest }
{}

// A program goes on where it was, each step does what the architecture does, and what it has at the slot's end it keeps.
pub fn execution()
    ensures { Execution }
{}

// At all times of a slot every TLB entry is what a walk would answer, every page leads to a frame that the tables referenced when the
// slot began, and no word changed but in such frames.
#[tactic(auto, using(crate::proofs::Each::true_translation))]
pub fn translation()
    ensures { TrueTranslation }
{}

// A program that stays ready runs at least as many instructions as the worst case fits into its slot.
#[tactic(auto, using(crate::proofs::Each::progresses))]
pub fn progress()
    ensures { Progresses }
{}

// A plan that was accepted stays so.
#[tactic(auto, using(crate::proofs::Each::stays_accepted))]
pub fn acceptance()
    ensures { StaysAccepted }
{}

// All of these, of one slot of any system that runs an accepted plan.
pub fn slots()
    ensures { KeepsPromises }
{}

// What happens outside of a closed set is never seen inside it; nor is what a partition does by one that no path of flows leads to.
pub fn noninterference()
    ensures sets { Noninterference }
    ensures pairs { NotReached }
    ensures loading { LoadsAlike }
{}
