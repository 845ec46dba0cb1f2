// Rows of uses of the three tables, with what each has to do or to cost.
use costs::used::{CacheUse, Used};
use paging::access::Access;
use paging::physical::PhysicalAddress;
use rv32ui::memory::{add_page, lay_out};
use tables::Tables;
use tables::cache::Cache;
use tables::predictor::Predictor;
use tables::tlb::{Lookup, Tlb};
use words::frames::write;

// The cycles of an instruction that uses the cache so, and nothing else.
fn cycles(cache: CacheUse) -> u32 {
    Used {
        cache,
        ..Used::plain()
    }
    .cycles()
}

// Frames, bytes in them and stores, each with its cycles and the dirty lines after it. Frames conflict line by line.
#[test]
fn loads_and_stores(rt: HostRuntime) {
    let row = [
        (2, 0x000, false, 21, 0),
        (2, 0x03C, false, 1, 0),
        (2, 0x040, false, 21, 0),
        (2, 0x004, true, 1, 1),
        (2, 0x008, false, 1, 1),
        (3, 0x000, false, 31, 0),
        (2, 0x000, true, 21, 1),
        (2, 0x004, true, 1, 1),
        (3, 0x040, true, 21, 2),
        (2, 0x040, true, 31, 2),
        (2, 0xFC0, true, 21, 3),
        (255, 0xFFF, false, 31, 2),
        (2, 0x1000, false, 1, 2),
        (u32::MAX, 0x000, false, 31, 1),
        (0, 0x000, true, 21, 2),
    ];
    let mut cache = Cache::new();
    for (frame, offset, store, cost, dirty) in row {
        assert_eq!(rt;
            cycles(cache.access(PhysicalAddress { frame, offset }, store)),
            cost
        );
        assert_eq!(rt; cache.dirty_lines(), dirty);
    }
}

// Rounds over the 64 lines of a frame.
#[test]
fn every_line_dirty(rt: HostRuntime) {
    let mut cache = Cache::new();
    for (frame, store, cost, dirty) in [
        (1, true, 21, 64),
        (1, false, 1, 64),
        (2, false, 31, 0),
        (2, false, 1, 0),
        (1, false, 21, 0),
    ] {
        // by its number, of which the place is made
        for line in 0..64 {
            assert_eq!(rt;
                cycles(cache.access(
                    PhysicalAddress {
                        frame,
                        offset: line * 64 + 60,
                    },
                    store,
                )),
                cost
            );
        }
        assert_eq!(rt; cache.dirty_lines(), dirty);
    }
}

// The small memory, but page 17 maps to frame 2 with R and W, and page 33 to frame 3 with R. Both have entry 1 of the TLB.
fn memory() -> [u32; 4096] {
    let mut words = [0; 4096];
    lay_out(&mut words);
    add_page(&mut words, 17, 0x8D7);
    add_page(&mut words, 33, 0xCD3);
    words
}

#[test]
fn look_ups(rt: HostRuntime) {
    let row = [
        (17, Access::Load, Some(2), true),
        (17, Access::Store, Some(2), false),
        (17, Access::Fetch, None, false),
        (33, Access::Store, None, true),
        (17, Access::Load, Some(2), false),
        (33, Access::Load, Some(3), true),
        (33, Access::Store, None, false),
        (17, Access::Load, Some(2), true),
        (18, Access::Load, None, true),
        (18, Access::Load, None, true),
        ((1 << 20) + 17, Access::Load, None, true),
        (17, Access::Load, Some(2), false),
    ];
    let words = memory();
    let mut tlb = Tlb::new();
    for (page, access, frame, walked) in row {
        assert_eq!(rt; tlb.find(&words, 0, page, access), Lookup { frame, walked });
    }
}

// A page that is known is not walked again: the TLB answers what the tables said then.
#[test]
fn no_walk_on_a_hit(rt: HostRuntime) {
    let mut words = memory();
    let mut tlb = Tlb::new();
    assert_eq!(rt; tlb.find(&words, 0, 17, Access::Load).frame, Some(2));
    write(&mut words, 1, 17, 0);
    assert_eq!(rt;
        tlb.find(&words, 0, 17, Access::Load),
        Lookup {
            frame: Some(2),
            walked: false,
        }
    );
    assert_eq!(rt;
        tlb.find(&words, 0, 33 + (1 << 10), Access::Load).frame,
        None
    );
}

// The branches at 0x100 and 0x200 have one counter.
#[test]
fn branches(rt: HostRuntime) {
    let row = [
        (0x100, true, true),
        (0x100, true, false),
        (0x100, true, false),
        (0x100, true, false),
        (0x100, false, true),
        (0x100, false, true),
        (0x100, false, false),
        (0x100, false, false),
        (0x100, true, true),
        (0x200, true, true),
        (0x100, true, false),
        (0x104, false, false),
        (0x1FC, true, true),
        (0x0FC, true, false),
    ];
    let mut predictor = Predictor::new();
    for (address, taken, mispredicted) in row {
        assert_eq!(rt; predictor.resolve(address, taken), mispredicted);
    }
}

// The same row of uses costs the same after a reset.
#[test]
fn reset(rt: HostRuntime) {
    let words = memory();
    let mut tables = Tables::new();
    for _ in 0..3 {
        assert!(rt; tables.tlb.find(&words, 0, 17, Access::Store).walked);
        assert_eq!(rt;
            cycles(
                tables.cache.access(
                    PhysicalAddress {
                        frame: 2,
                        offset: 0,
                    },
                    true,
                )
            ),
            21
        );
        assert_eq!(rt; tables.cache.dirty_lines(), 1);
        assert!(rt; tables.predictor.resolve(0x100, true));
        assert!(rt; !tables.predictor.resolve(0x100, true));
        tables.reset();
        assert_eq!(rt; tables.cache.dirty_lines(), 0);
    }
}
