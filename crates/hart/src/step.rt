// A core with the program that it runs.
ghost use Rattle.std.specs.Prelude.{◌≡◌, ◌/◌, None};
ghost use Rattle.std.specs.Option.{ForSome};
ghost use Rattle.tables.specs.Tlb.{found, hit};
ghost use Rattle.hart.specs.Core.{first_core, looked_up};
ghost use Rattle.hart.specs.Scaffold.{faulted};

use crate::cause::Cause;
use crate::context::Context;
use paging::access::Access;
use paging::physical::PAGE_BYTES;
use tables::Tables;
use tables::tlb::Lookup;

// A program on the core: its context, the core's tables, the frame of its root page table, and the clock.
#[derive(Clone, Copy)]
pub struct Core {
    pub context: Context,
    pub tables: Tables,
    pub root: u32,
    pub clock: u64,
}

impl Core {
    // A program before its first instruction, with the tables in their first state and the clock at 0.
    pub fn new(root: u32, pc: u32) -> Self
        ensures { result ≡ first_core root pc }
    {
        Core {
            context: Context::new(pc),
            tables: Tables::new(),
            root,
            clock: 0,
        }
    }

    // Finds the frame that an address lies in. A program that has none there, or not for this access, stops.
    pub(crate) fn look_up(&mut self, words: &[u32], address: u32, access: Access) -> Lookup
        ensures found { result ≡ looked_up self.old words.now address access }
        ensures again { ForSome result.frame (λ frame. found self.new.tables.tlb (address / 4096) access None ≡ hit frame) }
        ensures core { self.new ≡ faulted self.old words.now address access result.frame }
    {
        let page = address / PAGE_BYTES;
        let found = self.tables.tlb.find(words, self.root, page, access);
        if found.frame.is_none() {
            self.context.stop(Cause::from(access));
        }
        found
    }
}
