// The slots of a run in their turn.
ghost use Rattle.std.specs.Prelude.{◌≡◌};
ghost use Rattle.plan.specs.Timetable.{slot_of};

use crate::model::{Plan, Slot};

impl Plan {
    // The slot that runs in a turn, of which turns are counted from 0; the plan's slots go round.
    pub fn slot_of(&self, turn: u32) -> Slot
        ensures { result ≡ slot_of self.now turn }
    {
        let slots = u32::from(self.counts.slots);
        let slot = turn.checked_rem(slots).unwrap_or(turn);
        self.slot(slot as usize)
    }
}
