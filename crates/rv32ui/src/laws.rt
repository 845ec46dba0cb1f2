// What the definitions of this crate come to, owed by this function's contract.
ghost use Rattle.rv32ui.specs.Laws.{BranchWords, ConstantWords, Example, JalWords, RegisterWords, StoreWords, UpperWords};

pub fn laws()
    ensures registers { RegisterWords }
    ensures constants { ConstantWords }
    ensures upper { UpperWords }
    ensures branches { BranchWords }
    ensures stores { StoreWords }
    ensures jumps { JalWords }
    ensures example { Example }
{}
