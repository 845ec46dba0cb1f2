// The rule on the lent frames and the roots: at most 256 frames, and each root one of them, no other partition's.
// Words and plan, or words and root, are two parameters, as lib.rt says.
ghost use Rattle.std.specs.Prelude.{◌≡◌};
ghost use Rattle.ranges.specs.Questions.{any, first, unless};
ghost use Rattle.checker.specs.Lawful.{root};
ghost use Rattle.checker.specs.Roots.{root_refusal, same_root};

use paging::walk::MOST_FRAMES;
use plan::model::Plan;
use plan::refusal::Refusal;
use words::frames::FRAME_WORDS;

pub(crate) fn root(plan: &Plan, k: u8) -> u32
    ensures { result ≡ root plan.now k }
{
    u32::from(plan.partition(usize::from(k)).root)
}

fn root_is_taken(plan: &Plan, k: u8) -> bool
    ensures { result ≡ any (same_root plan.now k) k }
{
    (0..k).any(|j| root(plan, j) == root(plan, k))
}

fn check_root(words: &[u32], plan: &Plan, k: u8) -> Result<(), Refusal>
    ensures { result ≡ unless (root_refusal words.now plan.now k) tt }
{
    if words.len() / FRAME_WORDS > MOST_FRAMES as usize
        || root(plan, k) >= MOST_FRAMES
        || root_is_taken(plan, k)
    {
        return Err(Refusal::RootRule(k));
    }
    Ok(())
}

// Whether at most 256 frames are lent, and the partitions have roots of their own among them.
pub(crate) fn check_roots(words: &[u32], plan: &Plan) -> Result<(), Refusal>
    ensures { result ≡ unless (first (root_refusal words.now plan.now) plan.now.counts.partitions) tt }
{
    (0..plan.counts.partitions).try_for_each(|k| check_root(words, plan, k))
}
