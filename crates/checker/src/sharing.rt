// The rules on the frames that partitions reference: none is referenced by two, none is a page-table frame, and all are lent.
// Words and plan, or words and root, are two parameters, as lib.rt says.
ghost use Rattle.std.specs.Prelude.{◌≡◌, not, IfOk};
ghost use Rattle.ranges.specs.Questions.{any, first, unless};
ghost use Rattle.plan.specs.Rules.{broken_unless};
ghost use Rattle.plan.specs.declared.refusal.Refusal.TheVariants.{FrameShared};
ghost use Rattle.checker.specs.Sharing.{lent_refusal, referenced_at};
ghost use Rattle.checker.specs.Tables.{table_refusal};
ghost use Rattle.checker.specs.Scaffold.{Gathers, Joined, clash_claims, cleared, missing_mark};

use crate::claims::Claims;
use crate::marks::Marks;
use crate::tables::check_tables_of;
use paging::walk::MOST_FRAMES;
use plan::model::Plan;
use plan::refusal::Refusal;
use words::frames::is_lent;

// What all partitions reference, and the refusal of the first that shares a frame.
#[derive(Clone, Copy)]
pub(crate) struct Naming {
    referenced: Marks,
    shared: Option<Refusal>,
}

fn shared_at(k: u8, own: &Claims, earlier: &Claims) -> Option<Refusal>
    ensures { result ≡ broken_unless (not (any (clash_claims own.now earlier.now) 256)) (FrameShared k) }
{
    own.clashes(earlier).then_some(Refusal::FrameShared(k))
}

impl Naming {
    // Every root and table is read here, once for each partition that it belongs to. That all are well formed counts before what they share.
    pub(crate) fn check_tables(words: &[u32], plan: &Plan) -> Result<Naming, Refusal>
        ensures value { cleared result ≡ unless (first (table_refusal words.now plan.now) plan.now.counts.partitions) tt }
        ensures gathers { IfOk result (Gathers words.now plan.now) }
    {
        // a loop and no chain, as for the tables
        let mut earlier = Claims::NONE;
        let mut shared = None;
        for k in 0..plan.counts.partitions {
            let own = check_tables_of(words, plan, k)?;
            shared = shared.or(shared_at(k, &own, &earlier));
            earlier.add(&own);
        }
        Ok(Naming {
            referenced: earlier.referenced,
            shared,
        })
    }

    // Whether every frame that a partition references is its own, and none a page-table frame.
    pub(crate) fn check_shared(&self) -> Result<(), Refusal>
        ensures { result ≡ unless self.now.shared tt }
    {
        self.shared.map_or(Ok(()), Err)
    }

    fn has_missing(&self, words: &[u32]) -> bool
        ensures { result ≡ any (missing_mark words.now self.now.referenced) 256 }
    {
        (0..MOST_FRAMES).any(|f| self.referenced.has(f) && !is_lent(words, f))
    }

    // Whether every frame that a partition references is lent.
    pub(crate) fn check_lent(&self, words: &[u32], plan: &Plan) -> Result<(), Refusal>
        requires { Joined (referenced_at words.now plan.now) self.now.referenced plan.now.counts.partitions }
        ensures { result ≡ unless (lent_refusal words.now plan.now) tt }
    {
        if self.has_missing(words) {
            return Err(Refusal::FramesMissing);
        }
        Ok(())
    }
}
