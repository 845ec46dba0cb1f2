// What the definitions of this crate come to, owed by this function's contract.
ghost use Rattle.costs.specs.Laws.{Bounds, Numbers};

pub fn laws()
    ensures bounds { Bounds }
    ensures numbers { Numbers }
{}
