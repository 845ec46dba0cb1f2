// A plan that is opened with its image, and whole runs from the bytes of both, by example.
use crate::drafts::Draft;
use std::alloc::{AllocError, Global};
use std::test::Fail;

// Two partitions whose roots are the frames 0 and 1, with slots of 200 and 128 cycles and without a channel.
fn planned(heap: Global) -> Result<Vec<u8>, AllocError> {
    let mut draft = Draft::new(1, [200, 128], 17);
    draft.counts = [2, 2, 0];
    let mut bytes = draft.bytes(heap)?;
    bytes.truncate(29);
    Ok(bytes)
}

// An image of zeros that counts so many frames.
fn zeros(heap: Global, frames: u8, size: usize) -> Result<Vec<u8>, AllocError> {
    let mut image = vec![in heap; 0u8; size]?;
    if let Some(first) = image.get_mut(0) {
        *first = frames;
    }
    Ok(image)
}

#[test]
fn opened(rt: HostRuntime) -> Result<(), Fail> {
    let plan = planned(rt.alloc())?;
    // frames counted, bytes; the words that are lent, or number and place of the refusal
    for (frames, size, expected) in [
        (2u8, 8194usize, Ok(2048usize)),
        (3, 8194, Err((11u8, 0usize))),
        (2, 8195, Err((12, 8194))),
    ] {
        let image = zeros(rt.alloc(), frames, size)?;
        let told = match admission::open(rt.alloc(), &plan, &image)? {
            Ok(opened) => Ok(opened.words.len()),
            Err(refusal) => Err((refusal.number(), refusal.place())),
        };
        assert_eq!(rt; told, expected);
    }
    Ok(())
}

// No page is mapped, so each program stops at its first fetch and waits for its slot's end: 200; 200 + 1,754 + 128; and 1,754 + 200 more.
#[test]
fn run_to_the_last(rt: HostRuntime) -> Result<(), Fail> {
    let plan = planned(rt.alloc())?;
    let image = zeros(rt.alloc(), 2, 8194)?;
    for (count, partition, end) in [(1u32, 0u8, 200u64), (2, 1, 2082), (3, 0, 4036)] {
        let whole = whole_run::run(rt.alloc(), &plan, &image, count)?;
        let whole = whole.map_err(|_| "refused")?;
        let report = whole.finished.last.ok_or("no slot")?;
        assert_eq!(rt; (report.partition, report.end), (partition, end));
        assert_eq!(rt; whole.words.len(), 2048);
    }
    let longer = zeros(rt.alloc(), 2, 8195)?;
    let refused = whole_run::run(rt.alloc(), &plan, &longer, 1)?;
    assert!(rt; refused.is_err());
    Ok(())
}
