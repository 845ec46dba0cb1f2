// What the definitions of this crate come to, owed by this function's contract.
ghost use Rattle.paging.specs.Example.{Example};
ghost use Rattle.paging.specs.Laws.{EntriesAddUp, LeavesReferenced, Local, OneLeaf, PagesEnd, TablesDecide, TranslationsReach, WalksFind, WritesApart};

pub fn laws()
    ensures entries { EntriesAddUp }
    ensures walks { WalksFind }
    ensures translations { TranslationsReach }
    ensures unique { OneLeaf }
    ensures pages { PagesEnd }
    ensures reads { Local }
    ensures tables { TablesDecide }
    ensures writes { WritesApart }
    ensures referenced { LeavesReferenced }
    ensures example { Example }
{}
