// The verdict on a plan with its image, whose words are lent to it.
#![tactic(auto)]

ghost use Rattle.std.specs.Prelude.{◌≡◌, IfOk, Ok};
ghost use Rattle.checker.specs.Checked.{checked};
ghost use Rattle.admission.specs.Admitted.{Admits, Opens, OpensWith, admitted};

use checker::{Accepted, check as check_plan};
use image::{check as check_image, load};
use plan::refusal::Refusal;
use std::alloc::{AllocError, Global};

// A plan that was accepted with its image, and the words that were lent to it.
#[derive(Drop)]
pub struct Opened {
    pub accepted: Accepted,
    pub words: Vec<u32>,
}

pub mod laws;

// The verdict on a plan, the words lent to it, and the image that they were loaded from, whose own rules come last.
#[tactic(auto, unfolding(crate::specs::Admitted::admitted), using(crate::proofs::Verdict::verdict_as, crate::proofs::Verdict::judged_as))]
pub fn admit(plan: &[u8], words: &[u32], image: &[u8]) -> Result<Accepted, Refusal>
    ensures value { result ≡ admitted plan.now words.now image.now }
    ensures verdict { Admits plan.now words.now image.now result }
    ensures judged { IfOk result (λ accepted. checked plan.now words.now ≡ Ok accepted) }
{
    let accepted = check_plan(plan, words)?;
    check_image(image)?;
    Ok(accepted)
}

// Judges the plan with words that were loaded from its image. Nothing is allocated, so the verdict is the only answer.
pub fn open_with(plan: &[u8], words: Vec<u32>, image: &[u8]) -> Result<Opened, Refusal>
    ensures { OpensWith plan.now words.items image.now result }
{
    admit(plan, &words, image).map(|accepted| Opened { accepted, words })
}

// Loads the image's words and judges the plan with them. The outer error: no memory is left for the words.
pub fn open(heap: Global, plan: &[u8], image: &[u8]) -> Result<Result<Opened, Refusal>, AllocError>
    ensures { IfOk result (Opens plan.now image.now) }
{
    let words = load(heap, image)?;
    Ok(open_with(plan, words, image))
}
