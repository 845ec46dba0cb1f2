// The checker run on the plans and memories of the crate `sample`: what its theorems say, and more verdicts.
use crate::drafts::Draft;
use checker::check;
use std::alloc::{AllocError, Global};
use std::test::Fail;
use words::frames::write;

// The plan, but for the root of the second partition, and the channel's sender, receiver and the receiver's page.
fn planned(
    heap: Global,
    root: u16,
    sender: u8,
    receiver: u8,
    page: u32,
) -> Result<Vec<u8>, AllocError> {
    let mut draft = Draft::new(root, [200, 128], page);
    draft.channel.sender.partition = sender;
    draft.channel.receiver.partition = receiver;
    draft.bytes(heap)
}

const POINTER: u32 = 0x01;

const RUNS: u32 = 0xDB;

const WRITES: u32 = 0xD7;

const READS: u32 = 0xD3;

// Where the second partition keeps its table, its code and the page on which it receives, and the flags of that page.
#[derive(Clone, Copy)]
struct Layout {
    table: u32,
    code: u32,
    mailbox: u32,
    flags: u32,
}

fn put(words: &mut [u32], frame: u32, k: u32, named: u32, flags: u32) {
    write(
        words,
        frame,
        k,
        named.wrapping_mul(1024).wrapping_add(flags),
    );
}

fn memory(heap: Global, layout: Layout, frames: usize) -> Result<Vec<u32>, AllocError> {
    let mut words = vec![in heap; 0u32; frames.saturating_mul(1024)]?;
    put(&mut words, 0, 0, 1, POINTER);
    put(&mut words, 1, 16, 2, RUNS);
    put(&mut words, 1, 17, 6, WRITES);
    put(&mut words, 3, 0, layout.table, POINTER);
    put(&mut words, layout.table, 16, layout.code, RUNS);
    put(&mut words, layout.table, 17, layout.mailbox, layout.flags);
    Ok(words)
}

// The frame that the channel's receiver has, or number and place of the refusal.
fn verdict(plan: &[u8], words: &[u32]) -> Result<u32, (u8, usize)> {
    match check(plan, words) {
        Ok(accepted) => {
            let [frames, ..] = accepted.frames;
            Ok(frames.receiver)
        }
        Err(refusal) => Err((refusal.number(), refusal.place())),
    }
}

#[test]
fn layouts(rt: HostRuntime) -> Result<(), Fail> {
    // table, code, mailbox, its flags, frames; the verdict
    for (table, code, mailbox, flags, frames, expected) in [
        (4, 5, 7, READS, 8, Ok(7)),
        (5, 4, 8, READS, 9, Ok(8)),
        (4, 2, 7, READS, 8, Err((8, 1))),
        (4, 5, 7, WRITES, 8, Err((5, 0))),
        (4, 5, 7, READS, 7, Err((11, 0))),
        (8, 5, 7, READS, 8, Err((11, 0))),
        (4, 5, 256, READS, 8, Err((5, 0))),
        (4, 256, 7, READS, 8, Err((7, 1))),
        (4, 5, 7, READS, 257, Err((6, 0))),
        (4, 4, 7, READS, 8, Err((8, 1))),
    ] {
        let layout = Layout {
            table,
            code,
            mailbox,
            flags,
        };
        let words = memory(rt.alloc(), layout, frames)?;
        assert_eq!(rt;
            verdict(&planned(rt.alloc(), 3, 0, 1, 17)?, &words),
            expected
        );
    }
    Ok(())
}

#[test]
fn plans(rt: HostRuntime) -> Result<(), Fail> {
    let layout = Layout {
        table: 4,
        code: 5,
        mailbox: 7,
        flags: READS,
    };
    let words = memory(rt.alloc(), layout, 8)?;
    // the second partition's root, sender, receiver, its page; the verdict
    for (root, sender, receiver, page, expected) in [
        (3, 0, 1, 17, Ok(7)),
        (3, 0, 1, 16, Ok(5)),
        (3, 1, 0, 17, Err((5, 0))),
        (0, 0, 1, 16, Err((6, 1))),
    ] {
        assert_eq!(rt;
            verdict(&planned(rt.alloc(), root, sender, receiver, page)?, &words),
            expected
        );
    }
    Ok(())
}
