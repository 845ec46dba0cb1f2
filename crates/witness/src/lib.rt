// A plan that runs: two systems that agree on one partition and differ elsewhere, and two programs with their first slots.
#![tactic(auto)]

ghost use Rattle.witness.specs.Lines.{Lines};
ghost use Rattle.witness.specs.Pair.{Pairs};
ghost use Rattle.witness.specs.Programs.{FirstSlots, OtherProgram};

pub fn laws()
    ensures pairs { Pairs }
    ensures slots { FirstSlots }
    ensures other { OtherProgram }
    ensures lines { Lines }
{}
