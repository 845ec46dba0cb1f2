// Questions over the numbers below a bound: the first answer, whether one passes, how many pass, and the largest value.
#![tactic(auto)]

ghost use Rattle.ranges.specs.Laws.{Anys, Counts, Firsts, Mosts};

// What the questions come to, owed by this function's contract.
#[tactic(auto, using(crate::proofs::Answered::firsts, crate::proofs::Answered::anys, crate::proofs::Answered::counts, crate::proofs::Answered::mosts))]
pub fn laws()
    ensures firsts { Firsts }
    ensures anys { Anys }
    ensures counts { Counts }
    ensures mosts { Mosts }
{}
