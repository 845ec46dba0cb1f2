// What a program has of its own besides its memory.
ghost use Rattle.std.specs.Prelude.{◌≡◌};
ghost use Rattle.hart.specs.Execution.{fresh, goes_on, is_ready, jumped, next_pc, register_set, stopped};

use crate::cause::Cause;
use isa::register::{Register, Registers};

// Whether a program goes on, or why and where it stopped.
#[derive(Clone, Copy)]
pub enum State {
    Ready,
    Stopped { cause: Cause, pc: u32 },
}

impl State {
    pub fn is_ready(self) -> bool
        ensures { result ≡ is_ready self }
    {
        matches!(self, State::Ready)
    }
}

#[derive(Clone, Copy)]
pub struct Context {
    pub registers: Registers,
    pub pc: u32,
    pub state: State,
}

impl Context {
    // A program before its first instruction, which is at an address.
    pub fn new(pc: u32) -> Self
        ensures { result ≡ fresh pc }
    {
        Context {
            registers: Registers::new(),
            pc,
            state: State::Ready,
        }
    }

    // The address after the instruction; addresses wrap.
    pub(crate) fn next(&self) -> u32
        ensures { result ≡ next_pc self.now }
    {
        self.pc.wrapping_add(4)
    }

    // The program stops where it is.
    pub(crate) fn stop(&mut self, cause: Cause)
        ensures { self.new ≡ stopped self.old cause }
    {
        self.state = State::Stopped { cause, pc: self.pc };
    }

    pub(crate) fn go_on(&mut self, pc: u32)
        ensures { self.new ≡ goes_on self.old pc }
    {
        self.pc = pc;
    }

    // Sets a register and goes on to the next instruction.
    pub(crate) fn set(&mut self, register: Register, value: u32)
        ensures { self.new ≡ register_set self.old register value }
    {
        let next = self.next();
        self.registers.write(register, value);
        self.pc = next;
    }

    // Goes on at the target and leaves the address of the next instruction in a register, or stops at a target that is misaligned.
    pub(crate) fn jump(&mut self, link: Register, target: u32)
        ensures { self.new ≡ jumped self.old link target }
    {
        if target % 4 == 0 {
            let next = self.next();
            self.registers.write(link, next);
            self.pc = target;
        } else {
            self.stop(Cause::FetchMisaligned);
        }
    }
}
