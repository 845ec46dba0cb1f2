// One vector of the suite.
ghost use Rattle.std.specs.Prelude.{◌≡◌};
ghost use Rattle.rv32ui.specs.Roles.{roles_of};

// Which registers a vector names: the two sources and the target apart, or one of them also in another role, or register 0 in one.
#[derive(Clone, Copy)]
pub enum Place {
    Apart,
    FirstIsTarget,
    SecondIsTarget,
    AllOne,
    FirstZero,
    SecondZero,
    BothZero,
    TargetZero,
}

// The numbers of the registers: target, first source, second source.
#[derive(Clone, Copy)]
pub struct Roles {
    pub target: u32,
    pub first: u32,
    pub second: u32,
}

impl Place {
    pub fn roles(self) -> Roles
        ensures { result ≡ roles_of self }
    {
        let (target, first, second) = match self {
            Place::Apart => (14, 1, 2),
            Place::FirstIsTarget => (1, 1, 2),
            Place::SecondIsTarget => (2, 1, 2),
            Place::AllOne => (1, 1, 1),
            Place::FirstZero => (2, 0, 1),
            Place::SecondZero => (2, 1, 0),
            Place::BothZero => (1, 0, 0),
            Place::TargetZero => (0, 1, 2),
        };
        Roles {
            target,
            first,
            second,
        }
    }
}

// Registers, expected result, and the two operands. Of a branch the result is 1 where it is taken.
// Without names of fields, which would each take a line in the tables; and one kind of row for all, so a branch has a number too.
#[derive(Clone, Copy)]
pub struct Row(pub Place, pub u32, pub u32, pub u32);
