// The TLB: the leaves of pages that were walked before.
ghost use Rattle.std.specs.Prelude.{◌≡◌, None, Some, option_map};
ghost use Rattle.std.specs.Option.{ForSome};
ghost use Rattle.paging.specs.Walks.{walked};
ghost use Rattle.tables.specs.Coherent.{Coherent, Truthful};
ghost use Rattle.tables.specs.Tlb.{empty_tlb, filled, found, granted, hit, put};

use paging::access::Access;
use paging::leaf::Leaf;
use paging::walk::walk;

const TLB_ENTRIES: usize = 16;

// What is known of a page.
#[derive(Clone, Copy)]
pub struct TlbEntry {
    pub page: u32,
    pub leaf: Leaf,
}

#[derive(Clone, Copy)]
pub struct Tlb {
    entries: [Option<TlbEntry>; TLB_ENTRIES],
}

// What a look-up comes to.
#[derive(Clone, Copy, PartialEq, Eq, Debug)]
pub struct Lookup {
    // the frame of a page that is mapped and permits the access; with none the access faults
    pub frame: Option<u32>,
    // whether the page table was walked
    pub walked: bool,
}

// The frame of a leaf for an access that it permits. Out of line, for the access that it does not: in place, a hit would make both answers and choose.
#[cold]
#[inline(never)]
fn frame_for(leaf: Leaf, access: Access) -> Option<u32>
    ensures { result ≡ option_map (λ l. l.frame) (granted access (Some leaf)) }
{
    leaf.permits(access).then_some(leaf.frame)
}

impl Tlb {
    pub fn new() -> Self
        ensures { result ≡ empty_tlb }
    {
        Tlb {
            entries: [None; TLB_ENTRIES],
        }
    }

    // Finds the frame of a page for an access, and walks the page tables of the root only where no entry has the page.
    // Only a walk that ends in a leaf with the permission fills an entry. Words and root as for `walk`.
    #[tactic(auto, unfolding(crate::specs::Tlb::found, crate::specs::Tlb::filled))]
    pub fn find(&mut self, words: &[u32], root: u32, page: u32, access: Access) -> Lookup
        ensures answer { result ≡ found self.old page access (walked words.now root page) }
        ensures after { self.new ≡ filled self.old page access (walked words.now root page) }
        ensures again { ForSome result.frame (λ frame. found self.new page access None ≡ hit frame) }
        ensures coherent { Coherent self.old words.now root → Truthful self.new words.now root page access result }
    {
        let entry = self.entries[page as usize % TLB_ENTRIES];
        match entry {
            Some(entry) if entry.page == page && entry.leaf.permits(access) => Lookup {
                frame: Some(entry.leaf.frame),
                walked: false,
            },
            Some(entry) if entry.page == page => Lookup {
                frame: frame_for(entry.leaf, access),
                walked: false,
            },
            _ => Lookup {
                frame: self.walk_for(words, root, page, access),
                walked: true,
            },
        }
    }

    // A page that no entry has: its frame after a walk.
    #[cold]
    #[inline(never)]
    fn walk_for(&mut self, words: &[u32], root: u32, page: u32, access: Access) -> Option<u32>
        ensures frame { result ≡ option_map (λ l. l.frame) (granted access (walked words.now root page)) }
        ensures after { self.new ≡ put self.old page (granted access (walked words.now root page)) }
    {
        let leaf = walk(words, root, page).filter(|leaf| leaf.permits(access))?;
        self.entries[page as usize % TLB_ENTRIES] = Some(TlbEntry { page, leaf });
        Some(leaf.frame)
    }
}
