// The three tables of the core in which programs leave traces: cache, TLB and branch predictor, and what a use of them does.
#![tactic(auto)]

ghost use Rattle.std.specs.Prelude.{◌≡◌};
ghost use Rattle.tables.specs.First.{first_tables, flushed};

use cache::Cache;
use predictor::Predictor;
use tlb::Tlb;

pub mod cache;
pub mod laws;
pub mod predictor;
pub mod tlb;

#[derive(Clone, Copy)]
pub struct Tables {
    pub cache: Cache,
    pub tlb: Tlb,
    pub predictor: Predictor,
}

impl Tables {
    // The first state: an empty cache, an empty TLB, and a predictor that knows nothing.
    pub fn new() -> Self
        ensures { result ≡ first_tables }
    {
        Tables {
            cache: Cache::new(),
            tlb: Tlb::new(),
            predictor: Predictor::new(),
        }
    }

    // Back to the first state, whatever was there. Field by field, since `*self = Tables::new()` copies 1,088 bytes more a slot.
    pub fn reset(&mut self)
        ensures { self.new ≡ flushed self.old }
    {
        self.cache = Cache::new();
        self.tlb = Tlb::new();
        self.predictor = Predictor::new();
    }
}
