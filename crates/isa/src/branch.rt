// The conditions of branches.
ghost use Rattle.std.specs.Prelude.{◌≡◌};
ghost use Rattle.isa.specs.Conditions.{holds};

use crate::instruction::Condition;

impl Condition {
    // Whether a branch on two words is taken.
    pub fn holds(self, left: u32, right: u32) -> bool
        ensures { result ≡ holds self left right }
    {
        match self {
            Condition::Equal => left == right,
            Condition::NotEqual => left != right,
            Condition::Less => left.cast_signed() < right.cast_signed(),
            Condition::GreaterEqual => left.cast_signed() >= right.cast_signed(),
            Condition::LessUnsigned => left < right,
            Condition::GreaterEqualUnsigned => left >= right,
        }
    }
}
