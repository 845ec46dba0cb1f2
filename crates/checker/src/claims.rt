// What partitions claim: the frames that their tables reference, and their page-table frames, which are roots and tables.
ghost use Rattle.std.specs.Prelude.{◌≡◌, ◌||◌};
ghost use Rattle.ranges.specs.Questions.{any};
ghost use Rattle.checker.specs.Sharing.{clash};
ghost use Rattle.checker.specs.Scaffold.{Shows, clash_claims, marked};

use crate::marks::Marks;
use paging::walk::MOST_FRAMES;

// `referenced` and `page_tables` of a partition, `others` and `tables` of those before it.
#[tactic(auto, unfolding(crate::specs::Sharing::clash))]
fn clashes(referenced: bool, page_tables: bool, others: bool, tables: bool) -> bool
    ensures { result ≡ clash referenced page_tables others tables }
{
    referenced && (others || tables || page_tables) || page_tables && others
}

#[derive(Clone, Copy)]
pub(crate) struct Claims {
    pub(crate) referenced: Marks,
    pub(crate) page_tables: Marks,
}

impl Claims {
    pub(crate) const NONE: Claims = Claims {
        referenced: Marks::NONE,
        page_tables: Marks::NONE,
    };

    pub(crate) fn add(&mut self, more: &Claims)
        ensures referenced { Shows self.new.referenced (λ f. marked self.old.referenced f || marked more.now.referenced f) }
        ensures page_tables { Shows self.new.page_tables (λ f. marked self.old.page_tables f || marked more.now.page_tables f) }
    {
        self.referenced.add(&more.referenced);
        self.page_tables.add(&more.page_tables);
    }

    // Whether a frame is claimed here and by partitions before in a way that the rule forbids.
    pub(crate) fn clashes(&self, earlier: &Claims) -> bool
        ensures { result ≡ any (clash_claims self.now earlier.now) 256 }
    {
        (0..MOST_FRAMES).any(|f| {
            clashes(
                self.referenced.has(f),
                self.page_tables.has(f),
                earlier.referenced.has(f),
                earlier.page_tables.has(f),
            )
        })
    }
}
