// A core that is stepped again and again, with what it remembers for that: the page of its last fetch, which needs no look-up while the TLB stays as it is, and decodings.
ghost use Rattle.std.specs.Prelude.{◌≡◌, ◌≤◌, None, option_map};
ghost use Rattle.std.specs.Option.{ForSome};
ghost use Rattle.costs.specs.Costs.{instruction, worst_instruction};
ghost use Rattle.costs.specs.Cycles.{cycles};
ghost use Rattle.paging.specs.declared.access.Access.TheVariants.{Fetch};
ghost use Rattle.tables.specs.Tlb.{found, hit};
ghost use Rattle.hart.specs.Core.{fetch_step, looked_up, on_time, stepped};
ghost use Rattle.hart.specs.Moments.{moment, run_until};
ghost use Rattle.hart.specs.Scaffold.{faulted, opened};

use crate::context::Context;
use crate::step::Core;
use costs::used::walk_cycles;
use costs::{INSTRUCTION, WORST_INSTRUCTION};
use isa::decoder::Decoder;
use paging::access::Access;
use paging::physical::PAGE_BYTES;
use tables::Tables;
use tables::tlb::Lookup;
use words::frames;

mod execute;

// No instruction begins so late that it could take the clock past its 64 bits.
const LATEST: u64 = u64::MAX - WORST_INSTRUCTION as u64 + 1;

// A page that the TLB has and that words may be fetched from, and its frame.
#[derive(Clone, Copy)]
struct Window {
    page: u32,
    frame: u32,
}

// What a fetch finds: the frame of its page, and the cycles of the look-up. A call that answers a `Lookup` has the loop clear its padding every time.
#[derive(Clone, Copy)]
struct Opened {
    frame: Option<u32>,
    cycles: u32,
}

impl Opened {
    fn by(found: Lookup) -> Self
        ensures { result ≡ opened found }
    {
        Opened {
            frame: found.frame,
            cycles: walk_cycles(found.walked),
        }
    }
}

impl Window {
    // The page that was looked up, if a frame was found.
    fn after(page: u32, found: Lookup) -> Option<Window>
        ensures { result ≡ option_map (λ frame. record { page = page; frame = frame }) found.frame }
    {
        found.frame.map(|frame| Window { page, frame })
    }
}

#[derive(Clone, Copy)]
pub struct Stepper {
    pub core: Core,
    window: Option<Window>,
    // no part of the machine: with any of them all is the same
    decoder: Decoder,
    ghost at_hand: { ForSome window (λ w. found core.tables.tlb w.page Fetch None ≡ hit w.frame) },
}

impl Stepper {
    pub fn new(core: Core) -> Self
        ensures { result.core ≡ core }
    {
        Stepper {
            core,
            window: None,
            decoder: Decoder::new(),
        }
    }

    // The next program, in tables as they are: nothing is kept but decodings. Its parts and no `Core`, whose copy would be made twice.
    pub fn load(&mut self, context: Context, tables: &Tables, root: u32, clock: u64)
        ensures { self.new.core ≡ record { context = context; tables = tables.now; root = root; clock = clock } }
    {
        self.core.context = context;
        self.core.tables = *tables;
        self.core.root = root;
        self.core.clock = clock;
        self.window = None;
    }

    // One step, and the cycles that it took, by which the clock moves on. A stopped program uses up one cycle, and nothing else changes.
    #[tactic(auto, using(crate::proofs::Stepping::fetch_most), unfolding(crate::specs::Core::stepped))]
    pub fn step(&mut self, words: &mut [u32]) -> u32
        ensures cost { result ≡ cycles (stepped self.old.core words.old).used }
        ensures least { instruction ≤ result }
        ensures most { result ≤ worst_instruction }
        ensures core { self.new.core ≡ (stepped self.old.core words.old).core }
        ensures words { words.new ≡ (stepped self.old.core words.old).words }
    {
        if self.core.context.state.is_ready() {
            self.instruction(words)
        } else {
            self.core.clock = self.core.clock.wrapping_add(u64::from(INSTRUCTION));
            INSTRUCTION
        }
    }

    // Runs until the clock has come to `stop`, and answers how many instructions began. None begins from then on, and a stopped program waits.
    // A loop by the clock, which no range or iterator counts. Whether the program is ready is read once for each instruction.
    // A call of its own: in place the loop would share registers with the switch.
    #[inline(never)]
    pub fn run_until(&mut self, words: &mut [u32], stop: u64) -> u64
        ensures { moment self.new.core words.new result ≡ run_until stop self.old.core words.old }
    {
        let last = stop.min(LATEST);
        let mut instructions = 0;
        while self.core.clock < last && self.core.context.state.is_ready() {
            self.instruction(words);
            instructions += 1;
        }
        self.core.clock = self.core.clock.max(last);
        instructions
    }

    // An instruction of a ready program, and the cycles that it took.
    #[inline]
    fn instruction(&mut self, words: &mut [u32]) -> u32
        ensures cost { result ≡ cycles (fetch_step self.old.core words.old).used }
        ensures core { self.new.core ≡ (on_time (fetch_step self.old.core words.old)).core }
        ensures words { words.new ≡ (fetch_step self.old.core words.old).words }
    {
        let cycles = self.fetch_and_run(words);
        self.core.clock = self.core.clock.wrapping_add(u64::from(cycles));
        cycles
    }

    #[inline]
    #[tactic(auto, using(crate::proofs::Stepping::took_fetch), unfolding(crate::specs::Core::fetch_step))]
    fn fetch_and_run(&mut self, words: &mut [u32]) -> u32
        ensures cost { result ≡ cycles (fetch_step self.old.core words.old).used }
        ensures core { self.new.core ≡ (fetch_step self.old.core words.old).core }
        ensures words { words.new ≡ (fetch_step self.old.core words.old).words }
    {
        let fetch = self.fetch(words);
        let Some(frame) = fetch.frame else {
            return INSTRUCTION + fetch.cycles;
        };
        let word = frames::read(words, frame, self.core.context.pc % PAGE_BYTES / 4);
        self.run_word(word, words) + fetch.cycles
    }

    // Finds the frame of the page at the counter, as `Core::look_up` does.
    #[inline]
    fn fetch(&mut self, words: &[u32]) -> Opened
        ensures found { result ≡ opened (looked_up self.old.core words.now self.old.core.context.pc Fetch) }
        ensures core { self.new.core ≡ faulted self.old.core words.now self.old.core.context.pc Fetch result.frame }
    {
        let page = self.core.context.pc / PAGE_BYTES;
        match self.window {
            Some(window) if window.page == page => Opened::by(Lookup {
                frame: Some(window.frame),
                walked: false,
            }),
            _ => self.open(words),
        }
    }

    // Looks the page up and remembers it. A call of its own: in place it would take the loop's registers.
    #[cold]
    #[inline(never)]
    fn open(&mut self, words: &[u32]) -> Opened
        ensures found { result ≡ opened (looked_up self.old.core words.now self.old.core.context.pc Fetch) }
        ensures core { self.new.core ≡ faulted self.old.core words.now self.old.core.context.pc Fetch result.frame }
    {
        let pc = self.core.context.pc;
        let found = self.core.look_up(words, pc, Access::Fetch);
        self.window = Window::after(pc / PAGE_BYTES, found);
        Opened::by(found)
    }
}
