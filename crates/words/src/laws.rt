// The laws that the definitions of this crate keep, each owed by this function's contract.
ghost use Rattle.words.specs.Laws.{Copies, FieldsJoin, Lends, LowByteFirst, LowFields, NumbersFit, ReadsBack, Signs};

pub fn laws()
    ensures bytes { LowByteFirst }
    ensures numbers { NumbersFit }
    ensures low_fields { LowFields }
    ensures fields { FieldsJoin }
    ensures signs { Signs }
    ensures lends { Lends }
    ensures writes { ReadsBack }
    ensures copies { Copies }
{}
