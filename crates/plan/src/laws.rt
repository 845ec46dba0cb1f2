// What the definitions of this crate come to, owed by this function's contract.
ghost use Rattle.plan.specs.Example.{Example};
ghost use Rattle.plan.specs.Refused.{AllRanked, Named, RankTells};
ghost use Rattle.plan.specs.Rules.{FrontTellsAll};
ghost use Rattle.plan.specs.Switch.{CopiesAreMessages};
ghost use Rattle.plan.specs.Timetable.{Bounded, Rounds};
ghost use Rattle.plan.specs.Written.{ReadsBack};

pub fn laws()
    ensures named { Named }
    ensures ranked { AllRanked }
    ensures rank_tells { RankTells }
    ensures rounds { Rounds }
    ensures bounded { Bounded }
    ensures front_tells_all { FrontTellsAll }
    ensures reads_back { ReadsBack }
    ensures copies { CopiesAreMessages }
    ensures example { Example }
{}
