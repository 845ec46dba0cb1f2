// Walks with every bit of an entry. Frame 0 is the root, frame 1 the table that its first entry points to, and entry 16 there the leaf of page 16.
use paging::access::Access;
use paging::leaf::Leaf;
use paging::physical::PAGE_BYTES;
use paging::walk::walk;
use rv32ui::memory::{TO_FRAME_1, add_page};
use std::test::Fail;
use words::frames::write;

const PAGE: u32 = 16;
// all of V, R, W, X, U, A, D, for frame 2
const LEAF: u32 = 0x8DF;

const WHOLE: Option<Leaf> = Some(Leaf {
    frame: 2,
    readable: true,
    writable: true,
    executable: true,
});

fn leaf(frame: u32, readable: bool, writable: bool, executable: bool) -> Option<Leaf> {
    Some(Leaf {
        frame,
        readable,
        writable,
        executable,
    })
}

fn memory(pointer: u32, leaf: u32) -> [u32; 4096] {
    let mut words = [0; 4096];
    write(&mut words, 0, 0, pointer);
    add_page(&mut words, PAGE, leaf);
    words
}

// What is seen of page 16 with one bit of an entry flipped, for bits 0 to 11. The bits above make a frame that is not lent.
fn flipped(bit: usize, seen: &[Option<Leaf>; 12]) -> Option<Leaf> {
    seen.get(bit).copied().flatten()
}

#[test]
fn each_bit_of_a_leaf(rt: HostRuntime) {
    let no_writes = leaf(2, true, false, true);
    let no_code = leaf(2, true, true, false);
    let next_frame = leaf(3, true, true, true);
    let first_frame = leaf(0, true, true, true);
    let expected = [
        None,
        None,
        no_writes,
        no_code,
        None,
        WHOLE,
        None,
        None,
        WHOLE,
        WHOLE,
        next_frame,
        first_frame,
    ];
    // by its number, of which the entry is made
    for bit in 0..32 {
        assert_eq!(rt;
            walk(&memory(TO_FRAME_1, LEAF ^ (1 << bit)), 0, PAGE),
            flipped(bit, &expected)
        );
    }
    assert_eq!(rt; walk(&memory(TO_FRAME_1, LEAF), 0, PAGE), WHOLE);
}

#[test]
fn each_bit_of_a_pointer(rt: HostRuntime) {
    let other_table = leaf(1, true, false, false);
    let expected = [
        None,
        None,
        None,
        None,
        WHOLE,
        WHOLE,
        WHOLE,
        WHOLE,
        WHOLE,
        WHOLE,
        None,
        other_table,
    ];
    // by its number, of which the entry is made
    for bit in 0..32 {
        let mut words = memory(TO_FRAME_1 ^ (1 << bit), LEAF);
        write(&mut words, 3, PAGE, 0x4D3);
        assert_eq!(rt; walk(&words, 0, PAGE), flipped(bit, &expected));
    }
}

// The eight meanings of X, W and R, from 000 to 111: a pointer, of which there is none below the table, and two that are reserved.
#[test]
fn each_permission(rt: HostRuntime) {
    let allowed = [
        (0x8D1, false, false, false),
        (0x8D3, false, true, false),
        (0x8D5, false, false, false),
        (0x8D7, false, true, true),
        (0x8D9, true, false, false),
        (0x8DB, true, true, false),
        (0x8DD, false, false, false),
        (0x8DF, true, true, true),
    ];
    for (entry, fetch, load, store) in allowed {
        let words = memory(TO_FRAME_1, entry);
        for (access, granted) in [
            (Access::Fetch, fetch),
            (Access::Load, load),
            (Access::Store, store),
        ] {
            let found = walk(&words, 0, 0x10ABC / PAGE_BYTES);
            assert_eq!(rt; found.is_some_and(|leaf| leaf.permits(access)), granted);
        }
    }
}

#[test]
fn addresses(rt: HostRuntime) {
    let words = memory(TO_FRAME_1, LEAF);
    for access in [Access::Fetch, Access::Load, Access::Store] {
        for (address, granted) in [(0x10ABC, true), (0x11ABC, false)] {
            let found = walk(&words, 0, address / PAGE_BYTES);
            assert_eq!(rt; found.is_some_and(|leaf| leaf.permits(access)), granted);
        }
    }
}

#[test]
fn pages(rt: HostRuntime) {
    let words = memory(TO_FRAME_1, LEAF);
    for page in [
        0,
        15,
        17,
        16 << 10,
        (1 << 10) + 16,
        (1 << 20) + 16,
        u32::MAX,
    ] {
        assert_eq!(rt; walk(&words, 0, page), None);
    }
}

// All of frames 0, 1 and 2 have to be lent.
#[test]
fn lent_words(rt: HostRuntime) {
    let words = memory(TO_FRAME_1, LEAF);
    for lent in [3072, 3073, 4095, 4096] {
        assert_eq!(rt; walk(&words[0..lent], 0, PAGE), WHOLE);
    }
    for lent in [0, 1, 1023, 1024, 2047, 2048, 3071] {
        assert_eq!(rt; walk(&words[0..lent], 0, PAGE), None);
    }
}

// Frame 255 serves as root, table and leaf, frame 256 as none of them, lent or not.
#[test]
fn frames_end(rt: HostRuntime) -> Result<(), Fail> {
    for (frame, found) in [(255, true), (256, false)] {
        let mut words = vec![in rt.alloc(); 0u32; 257 * 1024]?;
        write(&mut words, 0, 0, frame << 10 | 1);
        write(&mut words, frame, PAGE, frame << 10 | 0xDF);
        write(&mut words, frame, 1, TO_FRAME_1);
        write(&mut words, 1, PAGE, LEAF);
        write(&mut words, 1, 17, frame << 10 | 0xDF);
        write(&mut words, 0, 2, TO_FRAME_1);
        assert_eq!(rt; walk(&words, 0, PAGE).is_some(), found);
        assert_eq!(rt; walk(&words, frame, 1024 + PAGE).is_some(), found);
        assert_eq!(rt; walk(&words, 0, 2048 + 17).is_some(), found);
        assert_eq!(rt; walk(&words, 0, 2048 + PAGE), WHOLE);
    }
    Ok(())
}
