// What the definitions of this crate come to, owed by this function's contract.
ghost use Rattle.hart.specs.Bytes.{LoadsBytes, StoresBytes};
ghost use Rattle.hart.specs.Clocked.{Clocked};
ghost use Rattle.hart.specs.Example.{Example};
ghost use Rattle.hart.specs.Laws.{Agreement, ClockHalves, KeepsCoherent, SeesOwn, StaysCoherent, StaysOwn, WritesOwn};
ghost use Rattle.hart.specs.Meant.{Meant};
ghost use Rattle.hart.specs.Steps.{StayWhole, Steps, UsesTables};

pub fn laws()
    ensures agreement { Agreement }
    ensures clocked { Clocked }
    ensures example { Example }
    ensures keeps { KeepsCoherent }
    ensures coherent { StaysCoherent }
    ensures own { SeesOwn }
    ensures writes { WritesOwn }
    ensures stays { StaysOwn }
    ensures steps { Steps }
    ensures whole { StayWhole }
    ensures uses { UsesTables }
    ensures meant { Meant }
    ensures loads { LoadsBytes }
    ensures stores { StoresBytes }
    ensures halves { ClockHalves }
{}
