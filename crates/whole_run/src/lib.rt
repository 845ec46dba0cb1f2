// A whole run, from the bytes of a plan and an image, or from words that were loaded, and a number of slots: judged once, and then run.
#![tactic(auto)]

ghost use Rattle.std.specs.Prelude.{IfOk};
ghost use Rattle.whole_run.specs.Whole.{RunsFiles, RunsWith};

use plan::refusal::Refusal;
use separation::run::{Finished, run as run_slots};
use std::alloc::{AllocError, Global};

// What a run leaves: the machine and the report of its last slot, and the words of the image as they are then.
#[derive(Drop)]
pub struct Whole {
    pub finished: Finished,
    pub words: Vec<u32>,
}

// Runs so many slots in words that were loaded from the image, or answers the refusal. Nothing is allocated, so there is no other answer.
pub fn run_with(plan: &[u8], words: Vec<u32>, image: &[u8], count: u32) -> Result<Whole, Refusal>
    ensures { RunsWith plan.now words.items image.now count result }
{
    match admission::open_with(plan, words, image) {
        Ok(opened) => {
            let mut words = opened.words;
            let finished = run_slots(opened.accepted, &mut words, count);
            Ok(Whole { finished, words })
        }
        Err(refusal) => Err(refusal),
    }
}

// Loads the image's words and runs so many slots in them, or answers the refusal. The outer error: no memory is left for the words.
pub fn run(
    heap: Global,
    plan: &[u8],
    image: &[u8],
    count: u32,
) -> Result<Result<Whole, Refusal>, AllocError>
    ensures { IfOk result (RunsFiles plan.now image.now count) }
{
    let words = image::load(heap, image)?;
    Ok(run_with(plan, words, image, count))
}
