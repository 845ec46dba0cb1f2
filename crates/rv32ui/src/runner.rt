// What runs the vectors, and what a vector gives there.
ghost use Rattle.std.specs.Prelude.{◌≡◌, ℕ, List, Option};
ghost use Rattle.rv32ui.specs.Outcome.{Prepared, reading, told, words_of};
ghost use Rattle.rv32ui.specs.Roles.{roles_of};

use crate::operation::{Form, Operation};
use crate::row::{Roles, Row};
use crate::word::*;

// A core that runs words. What a call leaves is for each core to say.
pub trait Runner {
    ghost restarts: { Self → Self → Type 0 };

    ghost gives: { Self → ℕ → ℕ → Self → Type 0 };

    ghost held: { Self → ℕ → ℕ };

    ghost counter: { Self → ℕ };

    ghost runs: { Self → List ℕ → Option Unit → Self → Type 0 };

    // Registers and counter as at first.
    fn restart(&mut self)
        ensures { restarts self.old self.new };

    fn set(&mut self, register: u32, value: u32)
        ensures { gives self.old register value self.new };

    fn get(&self, register: u32) -> u32
        ensures { result ≡ held self.now register };

    fn pc(&self) -> u32
        ensures { result ≡ counter self.now };

    // Runs the words in their order, one instruction each; none where one is not run, of which there is nothing more to tell.
    fn run(&mut self, words: &[u32]) -> Option<()>
        ensures { runs self.old words.now result self.new };
}

// Puts the operands of a row into their registers. A write to register 0 comes last: it must not show.
fn prepare<R: Runner>(core: &mut R, row: Row)
    ensures { Prepared R.restarts R.gives row core.old core.new }
{
    let Row(place, _, left, right) = row;
    let Roles { first, second, .. } = place.roles();
    core.restart();
    core.set(first, left);
    core.set(second, right);
    core.set(0, !0);
}

// What a row of an operation gives; none where its words are not run.
pub fn outcome<R: Runner>(core: &mut R, operation: &Operation, row: Row) -> Option<u32>
    ensures { (first : R)
        × Prepared R.restarts R.gives row core.old first
        × (ran : Option Unit)
        × R.runs first (words_of operation.now row) ran core.new
        × result ≡ told ran (reading operation.now.form (R.counter first) (R.counter core.new) (R.held core.new (roles_of row.0).target)) }
{
    let Row(place, _, left, right) = row;
    let Operation { form, fixed, .. } = *operation;
    let Roles {
        target,
        first,
        second,
    } = place.roles();
    prepare(core, row);
    let start = core.pc();
    let result = match form {
        Form::Registers => {
            core.run(&[operand_word(fixed, target, first, second)])?;
            core.get(target)
        }
        Form::Constant => {
            core.run(&[operand_word(fixed, target, first, right)])?;
            core.get(target)
        }
        Form::Branch => {
            core.run(&[branch_word(fixed, first, second)])?;
            u32::from(core.pc() == start.wrapping_add(16))
        }
        Form::Upper => {
            let shift = operand_word(SRAI, target, target, right);
            core.run(&[upper_word(fixed, target, left), shift])?;
            core.get(target)
        }
        Form::Relative => {
            let sum = operand_word(ADDI, target, target, right);
            core.run(&[upper_word(fixed, target, left), sum])?;
            core.get(target).wrapping_sub(start.wrapping_add(12))
        }
    };
    Some(result)
}
