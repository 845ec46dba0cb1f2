// A whole run of an accepted plan, of so many slots.
ghost use Rattle.std.specs.Prelude.{◌≡◌};
ghost use Rattle.kernel.specs.Machine.{after_slots};
ghost use Rattle.separation.specs.Calls.{Runs, finished, first};

use crate::session::Session;
use checker::Accepted;
use hart::step::Core;
use hart::stepper::Stepper;
use kernel::report::Report;

// The machine after its last slot, and the report of that slot.
#[derive(Clone, Copy)]
pub struct Finished {
    pub session: Session,
    pub last: Option<Report>,
}

// Runs so many slots of an accepted plan in the words that it was accepted with.
pub fn run(accepted: Accepted, words: &mut [u32], count: u32) -> Finished
    ensures value { result ≡ finished accepted words.old count }
    ensures words { words.new ≡ (after_slots accepted count (first accepted words.old)).words }
    ensures promises { Runs accepted words.old count words.new result }
{
    let mut session = Session::start(accepted);
    let mut stepper = Stepper::new(Core::new(0, 0));
    let mut last = None;
    for _turn in 0..count {
        last = session.run_slot(words, &mut stepper);
    }
    Finished { session, last }
}
