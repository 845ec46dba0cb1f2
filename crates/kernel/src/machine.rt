// The machine: contexts, tables, clock, and the slot to come.
ghost use Rattle.std.specs.Prelude.{◌≡◌, ◌+◌, ◌-◌, ◌^◌, ◌<◌};
ghost use Rattle.kernel.specs.Machine.{after_slot, core_for, loaded, switched, system};
ghost use Rattle.kernel.specs.Reports.{slot_report};

use crate::messages::deliver;
use crate::report::Report;
use checker::Accepted;
use costs::WRITE_BACK;
use hart::context::Context;
use hart::step::Core;
use hart::stepper::Stepper;
use plan::model::{MOST_PARTITIONS, Plan};
use tables::Tables;

// No slot begins once the clock has come to this.
const LATEST: u64 = 1 << 63;

#[derive(Clone, Copy)]
pub struct Machine {
    pub contexts: [Context; MOST_PARTITIONS],
    pub tables: Tables,
    pub clock: u64,
    // how many slots ran
    pub turn: u32,
}

impl Machine {
    // The machine before its first slot. No word is written: a plan runs in the words as they were lent.
    pub fn load(plan: &Plan) -> Machine
        ensures { result ≡ loaded plan.now }
    {
        Machine {
            contexts: plan
                .partitions
                .map(|partition| Context::new(partition.start)),
            tables: Tables::new(),
            clock: 0,
            turn: 0,
        }
    }

    // Runs the slot to come, and the switch after it. None, and nothing changes, where the slot has no partition, or its number or the clock no room to grow.
    // The stepper is no part of the machine: with any of them all is the same.
    #[tactic(auto, unfolding(crate::specs::Machine::after_slot, crate::specs::Reports::slot_report))]
    pub fn run_slot(
        &mut self,
        accepted: &Accepted,
        words: &mut [u32],
        stepper: &mut Stepper,
    ) -> Option<Report>
        ensures value { result ≡ slot_report accepted.now.plan (system self.old words.old) }
        ensures machine { self.new ≡ (after_slot accepted.now (system self.old words.old)).machine }
        ensures words { words.new ≡ (after_slot accepted.now (system self.old words.old)).words }
    {
        let slot = accepted.plan.slot_of(self.turn);
        let who = slot.partition as usize;
        if who >= MOST_PARTITIONS || self.turn == u32::MAX || self.clock >= LATEST {
            return None;
        }
        self.enter(&accepted.plan, slot.partition, stepper);
        let instructions = stepper.run_until(words, self.clock + u64::from(slot.length));
        let core = &stepper.core;
        self.contexts[who] = core.context;
        let report = Report {
            slot: self.turn,
            partition: slot.partition,
            begin: self.clock,
            end: core.clock,
            instructions,
            pc: core.context.pc,
            state: core.context.state,
        };
        self.switch(&accepted.plan, core);
        deliver(accepted, slot.partition, words);
        Some(report)
    }

    // Puts a partition's program on a stepper, as it finds the core.
    fn enter(&self, plan: &Plan, who: u8, stepper: &mut Stepper)
        requires { who < 8 }
        ensures { stepper.new.core ≡ core_for plan.now self.now who }
    {
        let who = usize::from(who);
        let root = u32::from(plan.partition(who).root);
        stepper.load(self.contexts[who], &self.tables, root, self.clock);
    }

    // The switch after a slot that a core has run to its end, but for the words of its messages:
    // write-backs and copies take their time, and the next slot begins on time.
    fn switch(&mut self, plan: &Plan, ended: &Core)
        requires clock { self.old.clock < 2 ^ 63 }
        requires turn { self.old.turn < 2 ^ 32 - 1 }
        requires ended { ended.now.clock < 2 ^ 63 + 2 ^ 33 }
        ensures { self.new ≡ switched plan.now (record self.old { tables = ended.now.tables }) ended.now.clock }
    {
        let slot = plan.slot_of(self.turn);
        let written_back = ended.tables.cache.dirty_lines() * WRITE_BACK;
        let copied = plan.copy_cycles(slot.partition);
        let done = ended.clock + u64::from(written_back) + u64::from(copied);
        let next = self.clock + u64::from(slot.length) + plan.budget as u64;
        self.tables.reset();
        self.clock = done.max(next);
        self.turn += 1;
    }
}
