// The checker at the edges of each rule that a plan keeps by itself, and turns, by example.
use crate::drafts::{Draft, Edit};
use crate::layout::refused;
use checker::check;
use plan::model::Plan;
use std::alloc::{AllocError, Global};
use std::test::Fail;
use words::frames::write;

// Two partitions, slots of 128 and 1,000,000 cycles, a channel from 0 to 1, and the budget that this requires, 1,754.
fn draft() -> Draft {
    let mut draft = Draft::new(3, [128, 1_000_000], 18);
    draft.partitions[1].start = 0x1_0004;
    draft
}

// How many bytes that has, with the channel and without.
const SIZE: usize = 39;

const WITHOUT: usize = 29;

// A memory with which it keeps the rules on frames: both partitions may write their page 17, and read their page 18.
fn memory(heap: Global) -> Result<Vec<u32>, AllocError> {
    let mut words = vec![in heap; 0u32; 8 * 1024]?;
    for (frame, k, entry) in [
        (0, 0, 0x0401),
        (1, 17, 0x18d7),
        (1, 18, 0x08d3),
        (3, 0, 0x1001),
        (4, 17, 0x14d7),
        (4, 18, 0x1cd3),
    ] {
        write(&mut words, frame, k, entry);
    }
    Ok(words)
}

// Number and place of the refusal, none where the plan is accepted.
fn verdict(bytes: &[u8], words: &[u32]) -> Option<(u8, usize)> {
    refused(check(bytes, words))
}

#[derive(Clone, Copy)]
struct Case(Edit, Edit, Option<(u8, usize)>);

// each rule on both sides of its edges, then two broken rules at once
const CASES: [Case; 33] = [
    Case(Edit::Nothing, Edit::Nothing, None),
    Case(Edit::Slots(0), Edit::Nothing, Some((2, 1))),
    Case(Edit::Runs(1), Edit::Nothing, None),
    Case(Edit::Runs(2), Edit::Nothing, Some((3, 0))),
    Case(Edit::OtherRuns(255), Edit::Nothing, Some((3, 1))),
    Case(Edit::Length(127), Edit::Nothing, Some((3, 0))),
    Case(Edit::Length(129), Edit::Nothing, None),
    Case(Edit::OtherLength(1_000_001), Edit::Nothing, Some((3, 1))),
    Case(Edit::OtherLength(999_999), Edit::Nothing, None),
    Case(Edit::OtherLength(17_777_216), Edit::Nothing, Some((3, 1))),
    Case(Edit::Sender(2), Edit::Nothing, Some((4, 0))),
    Case(Edit::Sender(1), Edit::Nothing, Some((4, 0))),
    Case(Edit::Receiver(2), Edit::Nothing, Some((4, 0))),
    Case(Edit::Receiver(0), Edit::Nothing, Some((4, 0))),
    Case(Edit::Sender(1), Edit::Receiver(0), None),
    Case(Edit::Start(0x1_0002), Edit::Nothing, Some((9, 0))),
    Case(Edit::Start(0x1_0004), Edit::Nothing, None),
    Case(Edit::OtherStart(0x1_0005), Edit::Nothing, Some((9, 1))),
    Case(Edit::OtherStart(0x1_0008), Edit::Nothing, None),
    Case(Edit::Budget(1753), Edit::Nothing, Some((10, 3))),
    Case(Edit::Budget(1755), Edit::Nothing, None),
    Case(Edit::Budget(0x100_06da), Edit::Nothing, Some((10, 3))),
    Case(Edit::Budget(218), Edit::Nothing, Some((10, 3))),
    Case(Edit::Partitions(3), Edit::Nothing, Some((1, SIZE))),
    Case(Edit::Slots(3), Edit::Nothing, Some((1, SIZE))),
    Case(Edit::Channels(2), Edit::Nothing, Some((1, SIZE))),
    Case(Edit::Channels(0), Edit::Nothing, Some((12, WITHOUT))),
    Case(Edit::Length(127), Edit::OtherRuns(9), Some((3, 0))),
    Case(Edit::OtherRuns(9), Edit::Sender(1), Some((3, 1))),
    Case(Edit::Receiver(0), Edit::Start(0x1_0001), Some((4, 0))),
    Case(Edit::OtherStart(0x1_0001), Edit::Budget(1536), Some((9, 1))),
    Case(Edit::Channels(0), Edit::Budget(218), Some((10, 3))),
    Case(Edit::Partitions(0), Edit::Slots(0), Some((2, 0))),
];

#[test]
fn each_rule_at_its_edges(rt: HostRuntime) -> Result<(), Fail> {
    let words = memory(rt.alloc())?;
    for Case(edit, also, expected) in CASES {
        let mut draft = draft();
        edit.apply(&mut draft);
        also.apply(&mut draft);
        assert_eq!(rt; verdict(&draft.bytes(rt.alloc())?, &words), expected);
    }
    Ok(())
}

#[test]
fn bytes_too_few_and_too_many(rt: HostRuntime) -> Result<(), Fail> {
    let words = memory(rt.alloc())?;
    let mut plan = draft().bytes(rt.alloc())?;
    assert!(rt; plan.len() == SIZE);
    // every front of the plan, by its length
    for length in 0..SIZE {
        assert_eq!(rt; verdict(&plan[0..length], &words), Some((1, length)));
    }
    plan.push(0)?;
    assert_eq!(rt; verdict(&plan, &words), Some((12, SIZE)));
    Ok(())
}

#[test]
fn counts_past_their_range(rt: HostRuntime) -> Result<(), Fail> {
    let words = memory(rt.alloc())?;
    for (counts, number, place) in [
        ([9, 64, 16], 2, 0),
        ([8, 65, 16], 2, 1),
        ([8, 64, 17], 2, 2),
        ([8, 64, 16], 3, 0),
    ] {
        let mut bytes = [0; 700];
        bytes[0..3].copy_from_slice(&counts);
        assert_eq!(rt; verdict(&bytes, &words), Some((number, place)));
    }
    Ok(())
}

// one partition, one slot and no channel pass the counts' rule: a slot of 0 cycles is refused then
#[test]
fn counts_below_their_range(rt: HostRuntime) -> Result<(), Fail> {
    let words = memory(rt.alloc())?;
    for (counts, number, place) in [([0, 1, 0], 2, 0), ([1, 0, 0], 2, 1), ([1, 1, 0], 3, 0)] {
        let mut bytes = [0; 18];
        bytes[0..3].copy_from_slice(&counts);
        assert_eq!(rt; verdict(&bytes, &words), Some((number, place)));
    }
    Ok(())
}

// budgets, and whether each is in range and covers what is required with the channel and without it
const BUDGETS: [(u32, bool, bool); 7] = [
    (63, false, false),
    (729, false, false),
    (730, false, true),
    (1753, false, true),
    (1754, true, true),
    (100_000, true, true),
    (100_001, false, false),
];

fn refused_unless(covers: bool) -> Option<(u8, usize)> {
    if covers { None } else { Some((10, 3)) }
}

#[test]
fn budgets(rt: HostRuntime) -> Result<(), Fail> {
    let words = memory(rt.alloc())?;
    for (budget, covers_with, covers_without) in BUDGETS {
        let mut draft = draft();
        draft.budget = budget;
        let plan = draft.bytes(rt.alloc())?;
        assert_eq!(rt; verdict(&plan, &words), refused_unless(covers_with));
        draft.counts[2] = 0;
        let plan = draft.bytes(rt.alloc())?;
        assert!(rt; WITHOUT < plan.len());
        assert_eq!(rt;
            verdict(&plan[0..WITHOUT], &words),
            refused_unless(covers_without)
        );
    }
    Ok(())
}

#[test]
fn slots_go_round(rt: HostRuntime) -> Result<(), Fail> {
    let plan = Plan::read(&draft().bytes(rt.alloc())?);
    assert_eq!(rt; plan.slot_of(1).partition, 1);
    assert_eq!(rt; plan.slot_of(2).partition, plan.slot_of(0).partition);
    assert_eq!(rt; plan.slot_of(u32::MAX).partition, 1);
    Ok(())
}

// along the channel, and nowhere where the plan counts none
#[test]
fn flows(rt: HostRuntime) -> Result<(), Fail> {
    let mut draft = draft();
    for channels in [1, 0] {
        draft.counts[2] = channels;
        let plan = Plan::read(&draft.bytes(rt.alloc())?);
        for (from, to, flows) in [
            (0, 1, channels == 1),
            (1, 0, false),
            (0, 0, false),
            (1, 1, false),
        ] {
            assert_eq!(rt; plan.flows(from, to), flows);
        }
    }
    Ok(())
}
