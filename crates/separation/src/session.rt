// An accepted plan, and the machine that runs it.
ghost use Rattle.std.specs.Prelude.{◌≡◌};
ghost use Rattle.kernel.specs.Machine.{after_slot};
ghost use Rattle.kernel.specs.Reports.{slot_report};
ghost use Rattle.separation.specs.Calls.{SlotKeeps, SlotUnseen, Starts, in_words, ready};

use checker::Accepted;
use hart::stepper::Stepper;
use kernel::machine::Machine;
use kernel::report::Report;

#[derive(Clone, Copy)]
pub struct Session {
    pub accepted: Accepted,
    pub machine: Machine,
}

impl Session {
    // Ready to run a plan that was accepted. What the plan's words are to the checker stands in the promises: it is judged once, before.
    pub fn start(accepted: Accepted) -> Session
        ensures value { result ≡ ready accepted }
        ensures promises { Starts accepted result }
    {
        Session {
            accepted,
            machine: Machine::load(&accepted.plan),
        }
    }

    // Runs the slot to come and the switch after it; none, and nothing changes, after 2^32 - 1 slots.
    // The stepper is no part of the machine: with any of them all is the same.
    pub fn run_slot(&mut self, words: &mut [u32], stepper: &mut Stepper) -> Option<Report>
        ensures value { result ≡ slot_report self.old.accepted.plan (in_words self.old words.old) }
        ensures accepted { self.new.accepted ≡ self.old.accepted }
        ensures system { in_words self.new words.new ≡ after_slot self.old.accepted (in_words self.old words.old) }
        ensures promises { SlotKeeps self.old.accepted (in_words self.old words.old) (in_words self.new words.new) }
        ensures unseen { SlotUnseen self.old.accepted (in_words self.old words.old) (in_words self.new words.new) }
    {
        self.machine.run_slot(&self.accepted, words, stepper)
    }
}
