// Nothing past the front parts of two files changes their verdict, and a plan that is admitted, owed by this function's contract.
ghost use Rattle.admission.specs.Admitted.{TellsAll};
ghost use Rattle.admission.specs.Example.{Example};

pub fn laws()
    ensures tells_all { TellsAll }
    ensures example { Example }
{}
