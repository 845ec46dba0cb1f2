// One plan with its memory: accepted wherever its second partition keeps its frames, and refused, by its rule, where a number or two are wrong.
#![tactic(auto)]

ghost use Rattle.sample.specs.OwnRules.{OwnRules};
ghost use Rattle.sample.specs.Verdicts.{Accepts, Agrees, Differs, Examples, Refuses};

pub fn laws()
    ensures accepts { Accepts }
    ensures examples { Examples }
    ensures agrees { Agrees }
    ensures differs { Differs }
    ensures refuses { Refuses }
    ensures own_rules { OwnRules }
{}
