// What the definitions of this crate come to, owed by these functions' contracts.
ghost use Rattle.isa.specs.Laws.{Adds, Bitwise, Encodes, Exact, GivesWords, Illegal, Injective, Moves, Orders, RoundsDown, ShiftsByFive, Starts, Undoes, Writes, Zero};
ghost use Rattle.isa.specs.Worked.{Worked};

// Decoding and encoding agree on every word.
pub fn decoding()
    ensures exact { Exact }
    ensures encodes { Encodes }
    ensures injective { Injective }
    ensures illegal { Illegal }
    ensures worked { Worked }
{}

// Register 0 and writes.
pub fn registers()
    ensures zero { Zero }
    ensures starts { Starts }
    ensures writes { Writes }
{}

// What each operation computes, and when a branch is taken.
pub fn operations()
    ensures gives_words { GivesWords }
    ensures adds { Adds }
    ensures undoes { Undoes }
    ensures bitwise { Bitwise }
    ensures moves { Moves }
    ensures shifts_by_five { ShiftsByFive }
    ensures orders { Orders }
    ensures floor { RoundsDown }
{}
