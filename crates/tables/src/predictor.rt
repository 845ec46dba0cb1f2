// The branch predictor: counters from 0 to 3 that tell how the branches at a place went of late.
ghost use Rattle.std.specs.Prelude.{◌≡◌};
ghost use Rattle.tables.specs.Predictor.{first_predictor, learned, mispredicts};

const COUNTERS: usize = 64;

const HIGHEST: u8 = 3;
// From here on a counter predicts that the branch is taken.
const TAKEN: u8 = 2;
// A first state that predicts no branch, but does so after one that was taken.
const FIRST: u8 = 1;

#[derive(Clone, Copy)]
pub struct Predictor {
    counters: [u8; COUNTERS],
}

impl Predictor {
    pub fn new() -> Self
        ensures { result ≡ first_predictor }
    {
        Predictor {
            counters: [FIRST; COUNTERS],
        }
    }

    // A branch at an address is taken or not: whether that was predicted wrongly.
    pub fn resolve(&mut self, address: u32, taken: bool) -> bool
        ensures mispredicted { result ≡ mispredicts self.old address taken }
        ensures after { self.new ≡ learned self.old address taken }
    {
        let at = (address / 4) as usize % COUNTERS;
        let counter = self.counters[at];
        self.counters[at] = if taken {
            counter.min(HIGHEST - 1) + 1
        } else {
            counter.saturating_sub(1)
        };
        (counter >= TAKEN) != taken
    }
}
