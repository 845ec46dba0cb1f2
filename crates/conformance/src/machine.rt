// A hart with five frames of memory.
ghost use Rattle.std.specs.Prelude.{◌≡◌, length};
ghost use Rattle.costs.specs.Cycles.{cycles};
ghost use Rattle.isa.specs.Registers.{held, register};
ghost use Rattle.hart.specs.Core.{stepped};
ghost use Rattle.hart.specs.Moments.{after, next};
ghost use Rattle.conformance.specs.Running.{IsAt, RunsWords, at_counter, at_first, cause_of, moment_of, restarted, value_in, with_code, with_data, with_register};

use hart::context::State;
use hart::step::Core;
use hart::stepper::Stepper;
use isa::register::Register;
use rv32ui::memory::{CODE, CODE_FRAME, DATA_FRAME, MEMORY_WORDS, add_page, lay_out, put};
use rv32ui::runner::Runner;

#[derive(Drop)]
pub struct Machine {
    // stays from one vector to the next, with other words at the same addresses
    stepper: Stepper,
    words: [u32; MEMORY_WORDS],
}

impl Machine {
    pub fn new() -> Machine
        ensures { moment_of result ≡ at_first }
    {
        let mut words = [0; MEMORY_WORDS];
        lay_out(&mut words);
        // page 18 is the data of frame 4, and page 19 is the code once more
        add_page(&mut words, 18, 0x0000_10d7);
        add_page(&mut words, 19, 0x0000_08db);
        Machine {
            stepper: Stepper::new(Core::new(0, CODE)),
            words,
        }
    }

    pub fn go_to(&mut self, pc: u32)
        ensures { moment_of self.new ≡ at_counter pc (moment_of self.old) }
    {
        self.stepper.core.context.pc = pc;
    }

    // The number of the cause, where the program stopped: it is what docs/MACHINE.md gives, and so what the cases test.
    pub fn cause(&self) -> Option<u32>
        ensures { result ≡ cause_of self.now.stepper.core.context.state }
    {
        match self.stepper.core.context.state {
            State::Ready => None,
            State::Stopped { cause, .. } => Some(u32::from(cause.number())),
        }
    }

    // Puts words into the code's page, from its start on.
    pub fn put_code(&mut self, words: &[u32])
        ensures { moment_of self.new ≡ with_code words.now (moment_of self.old) }
    {
        put(&mut self.words, CODE_FRAME, 0, words);
    }

    // Puts words into page 17, from a place on.
    pub fn put_data(&mut self, at: u32, words: &[u32])
        ensures { moment_of self.new ≡ with_data at words.now (moment_of self.old) }
    {
        put(&mut self.words, DATA_FRAME, at, words);
    }

    // One instruction: its cycles.
    pub fn step(&mut self) -> u32
        ensures cost { result ≡ cycles (stepped self.old.stepper.core self.old.words).used }
        ensures moment { IsAt (next (moment_of self.old)) self.new }
    {
        self.stepper.step(&mut self.words)
    }

    // Puts the words at the start and runs so many instructions; none where the program stopped.
    pub fn run_for(&mut self, words: &[u32], instructions: usize) -> Option<()>
        ensures { RunsWords words.now instructions self.old self.new result }
    {
        self.put_code(words);
        for _turn in 0..instructions {
            self.step();
        }
        self.stepper.core.context.state.is_ready().then_some(())
    }

    // Runs the words: what the register holds then, none where the program stopped.
    pub fn result_of(&mut self, words: &[u32], register: u32) -> Option<u32>
        ensures moment { IsAt (after (length words.now) (with_code words.now (moment_of self.old))) self.new }
        ensures value { result ≡ value_in register (moment_of self.new) }
    {
        self.run(words)?;
        Some(self.get(register))
    }
}

impl Runner for Machine {
    ghost restarts = { λ before now. IsAt (restarted (moment_of before)) now };

    ghost gives = { λ before r value now. IsAt (with_register r value (moment_of before)) now };

    ghost held = { λ m r. held m.stepper.core.context.registers (register r) };

    ghost counter = { λ m. m.stepper.core.context.pc };

    // what the stepper remembers after a run is left open
    ghost runs = { λ before code answer now. RunsWords code (length code) before now answer };

    // Registers, counter, tables and clock as at first.
    fn restart(&mut self) {
        let core = Core::new(0, CODE);
        self.stepper
            .load(core.context, &core.tables, core.root, core.clock);
    }

    fn set(&mut self, register: u32, value: u32) {
        self.stepper
            .core
            .context
            .registers
            .write(Register::new(register), value);
    }

    fn get(&self, register: u32) -> u32 {
        self.stepper
            .core
            .context
            .registers
            .read(Register::new(register))
    }

    fn pc(&self) -> u32 {
        self.stepper.core.context.pc
    }

    fn run(&mut self, words: &[u32]) -> Option<()> {
        self.run_for(words, words.len())
    }
}
