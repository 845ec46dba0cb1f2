// What the definitions of this crate come to, owed by this function's contract.
ghost use Rattle.tables.specs.Example.{Example};
ghost use Rattle.tables.specs.Laws.{AccessCosts, Charges, ComesIn, CountersStay, Counts, FrameIsTag, FramesConflict, Coherence, LookUps, LoopsLeft, LoopsPredicted, Remembers, RemembersPages, WriteBacks};

pub fn laws()
    ensures costs { AccessCosts }
    ensures tags { FrameIsTag }
    ensures hits { ComesIn }
    ensures rows { Remembers }
    ensures charges { Charges }
    ensures writebacks { WriteBacks }
    ensures conflicts { FramesConflict }
    ensures loops { LoopsPredicted }
    ensures exits { LoopsLeft }
    ensures counts { Counts }
    ensures counters { CountersStay }
    ensures lookups { LookUps }
    ensures pages { RemembersPages }
    ensures coherence { Coherence }
    ensures example { Example }
{}
