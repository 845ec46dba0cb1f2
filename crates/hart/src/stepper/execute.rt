// One instruction that was fetched. Each function answers the cycles that it takes but for its fetch. They are told as soon as
// its uses are known: after more code these would be tested again.
ghost use Rattle.std.specs.Prelude.{◌≡◌};
ghost use Rattle.isa.specs.Effects.{loads, stores};
ghost use Rattle.costs.specs.Cycles.{cycles};
ghost use Rattle.hart.specs.Core.{branched, executed, looked_up, was_wrong, word_step};
ghost use Rattle.hart.specs.Scaffold.{execution_of, faulted};

use super::Stepper;
use crate::cause::Cause;
use crate::memory;
use crate::step::Core;
use costs::used::Used;
use isa::alu::{offset_by, word_of};
use isa::instruction::{Instruction, LoadWidth, StoreWidth};
use isa::register::Register;
use paging::access::Access;
use paging::physical::{PAGE_BYTES, PhysicalAddress};
use tables::tlb::Lookup;
use words::frames;

impl Core {
    // Whether the predictor was wrong about the branch.
    fn branch(&mut self, taken: bool, target: u32) -> bool
        ensures wrong { result ≡ was_wrong self.old taken target }
        ensures core { self.new ≡ branched self.old taken target }
    {
        if taken && target % 4 != 0 {
            self.context.stop(Cause::FetchMisaligned);
            return false;
        }
        let wrong = self.tables.predictor.resolve(self.context.pc, taken);
        let pc = if taken { target } else { self.context.next() };
        self.context.go_on(pc);
        wrong
    }
}

impl Stepper {
    // Finds the frame that data lies in. A walk may have put its page into the TLB in place of the window's.
    fn find_data(&mut self, words: &[u32], address: u32, access: Access) -> Lookup
        ensures found { result ≡ looked_up self.old.core words.now address access }
        ensures core { self.new.core ≡ faulted self.old.core words.now address access result.frame }
    {
        let found = self.core.look_up(words, address, access);
        if found.walked {
            self.window = None;
        }
        found
    }

    #[tactic(auto, unfolding(crate::specs::Core::executed, crate::specs::Core::data_access))]
    fn run_load(&mut self, words: &[u32], width: LoadWidth, register: Register, address: u32) -> u32
        ensures cost { result ≡ cycles (executed self.old.core words.now (loads width register address)).used }
        ensures core { self.new.core ≡ (executed self.old.core words.now (loads width register address)).core }
    {
        let mut used = Used::plain();
        if address % memory::load_bytes(width) != 0 {
            self.core.context.stop(Cause::LoadMisaligned);
            return used.cycles();
        }
        let found = self.find_data(words, address, Access::Load);
        used.data_walked = found.walked;
        let Some(frame) = found.frame else {
            return used.cycles();
        };
        let offset = address % PAGE_BYTES;
        let physical = PhysicalAddress { frame, offset };
        used.cache = self.core.tables.cache.access(physical, false);
        let cycles = used.cycles();
        let word = frames::read(words, frame, offset / 4);
        self.core
            .context
            .set(register, memory::load(width, word, address));
        cycles
    }

    #[tactic(auto, unfolding(crate::specs::Core::executed, crate::specs::Core::data_access))]
    fn run_store(&mut self, words: &mut [u32], width: StoreWidth, address: u32, value: u32) -> u32
        ensures cost { result ≡ cycles (executed self.old.core words.old (stores width address value)).used }
        ensures core { self.new.core ≡ (executed self.old.core words.old (stores width address value)).core }
        ensures words { words.new ≡ (executed self.old.core words.old (stores width address value)).words }
    {
        let mut used = Used::plain();
        if address % memory::store_bytes(width) != 0 {
            self.core.context.stop(Cause::StoreMisaligned);
            return used.cycles();
        }
        let found = self.find_data(words, address, Access::Store);
        used.data_walked = found.walked;
        let Some(frame) = found.frame else {
            return used.cycles();
        };
        let offset = address % PAGE_BYTES;
        let physical = PhysicalAddress { frame, offset };
        used.cache = self.core.tables.cache.access(physical, true);
        let cycles = used.cycles();
        let old = frames::read(words, frame, offset / 4);
        frames::write(
            words,
            frame,
            offset / 4,
            memory::store(width, old, address, value),
        );
        let next = self.core.context.next();
        self.core.context.go_on(next);
        cycles
    }

    // The instruction of a word that was fetched.
    #[tactic(auto, unfolding(crate::specs::Core::word_step))]
    pub(super) fn run_word(&mut self, word: u32, words: &mut [u32]) -> u32
        ensures cost { result ≡ cycles (word_step self.old.core words.old word).used }
        ensures core { self.new.core ≡ (word_step self.old.core words.old word).core }
        ensures words { words.new ≡ (word_step self.old.core words.old word).words }
    {
        let instruction = *self
            .decoder
            .recall(self.core.context.pc, self.core.root, word);
        match instruction {
            Some(instruction) => self.execute(instruction, words),
            None => {
                self.core.context.stop(Cause::IllegalInstruction);
                Used::plain().cycles()
            }
        }
    }

    // What the instruction asks for. One match over ten kinds, each arm a call: parts of it would have no name of their own.
    #[tactic(auto, using(crate::proofs::Stepping::load_words), unfolding(crate::specs::Core::executed))]
    fn execute(&mut self, instruction: Instruction, words: &mut [u32]) -> u32
        ensures cost { result ≡ cycles (execution_of self.old.core words.old instruction).used }
        ensures core { self.new.core ≡ (execution_of self.old.core words.old instruction).core }
        ensures words { words.new ≡ (execution_of self.old.core words.old instruction).words }
    {
        let plain = Used::plain();
        match instruction {
            Instruction::Lui { rd, value } => {
                self.core.context.set(rd, word_of(value));
                plain.cycles()
            }
            Instruction::Auipc { rd, value } => {
                let sum = offset_by(self.core.context.pc, value);
                self.core.context.set(rd, sum);
                plain.cycles()
            }
            Instruction::Jal { rd, offset } => {
                let target = offset_by(self.core.context.pc, offset);
                self.core.context.jump(rd, target);
                plain.cycles()
            }
            Instruction::Jalr { rd, base, offset } => {
                let target = offset_by(self.core.context.registers.read(base), offset);
                self.core.context.jump(rd, target - target % 2);
                plain.cycles()
            }
            Instruction::Branch {
                condition,
                left,
                right,
                offset,
            } => {
                let taken = condition.holds(
                    self.core.context.registers.read(left),
                    self.core.context.registers.read(right),
                );
                let target = offset_by(self.core.context.pc, offset);
                let mispredicted = self.core.branch(taken, target);
                let used = Used {
                    mispredicted,
                    ..plain
                };
                used.cycles()
            }
            Instruction::Load {
                width,
                rd,
                base,
                offset,
            } => {
                let address = offset_by(self.core.context.registers.read(base), offset);
                self.run_load(words, width, rd, address)
            }
            Instruction::Store {
                width,
                base,
                source,
                offset,
            } => {
                let address = offset_by(self.core.context.registers.read(base), offset);
                let value = self.core.context.registers.read(source);
                self.run_store(words, width, address, value)
            }
            Instruction::RegisterImmediate {
                operation,
                rd,
                source,
                value,
            } => {
                let result = operation.compute(
                    self.core.context.registers.read(source),
                    word_of(value),
                );
                self.core.context.set(rd, result);
                plain.cycles()
            }
            Instruction::RegisterRegister {
                operation,
                rd,
                left,
                right,
            } => {
                let result = operation.compute(
                    self.core.context.registers.read(left),
                    self.core.context.registers.read(right),
                );
                self.core.context.set(rd, result);
                plain.cycles()
            }
            Instruction::ReadCsr { rd, csr } => {
                self.core.context.set(rd, csr.value(self.core.clock));
                plain.cycles()
            }
        }
    }
}
