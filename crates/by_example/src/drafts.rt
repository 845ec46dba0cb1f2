// Plans put together from their rows: the bytes that docs/MACHINE.md gives, by none of the code that reads them.
use plan::model::{Channel, Endpoint, Partition, Slot};
use std::alloc::{AllocError, Global};

// A plan of two partitions, two slots and a channel, whose counts may say something else.
#[derive(Clone, Copy)]
pub(crate) struct Draft {
    pub(crate) counts: [u8; 3],
    pub(crate) budget: u32,
    pub(crate) partitions: [Partition; 2],
    pub(crate) slots: [Slot; 2],
    pub(crate) channel: Channel,
}

fn put(bytes: &mut Vec<u8>, more: &[u8]) -> Result<(), AllocError> {
    for byte in more {
        bytes.push(*byte)?;
    }
    Ok(())
}

impl Draft {
    // Both partitions start at the beginning of page 16, the first with root 0; a channel from the first's page 17; and the budget
    // that this requires, 1,754.
    pub(crate) fn new(root: u16, lengths: [u32; 2], page: u32) -> Draft {
        let [first, second] = lengths;
        Draft {
            counts: [2, 2, 1],
            budget: 1754,
            partitions: [partition(0), partition(root)],
            slots: [slot(0, first), slot(1, second)],
            channel: Channel {
                sender: end(0, 17),
                receiver: end(1, page),
            },
        }
    }

    pub(crate) fn bytes(&self, heap: Global) -> Result<Vec<u8>, AllocError> {
        let mut bytes = Vec::new(heap);
        put(&mut bytes, &self.counts)?;
        put(&mut bytes, &self.budget.to_le_bytes())?;
        for partition in &self.partitions {
            put(&mut bytes, &partition.root.to_le_bytes())?;
            put(&mut bytes, &partition.start.to_le_bytes())?;
        }
        for slot in &self.slots {
            bytes.push(slot.partition)?;
            put(&mut bytes, &slot.length.to_le_bytes())?;
        }
        let Channel { sender, receiver } = self.channel;
        put(&mut bytes, &[sender.partition, receiver.partition])?;
        put(&mut bytes, &sender.page.to_le_bytes())?;
        put(&mut bytes, &receiver.page.to_le_bytes())?;
        Ok(bytes)
    }
}

fn partition(root: u16) -> Partition {
    Partition {
        root,
        start: 0x1_0000,
    }
}

fn slot(partition: u8, length: u32) -> Slot {
    Slot { partition, length }
}

fn end(partition: u8, page: u32) -> Endpoint {
    Endpoint { partition, page }
}

// One thing that is changed in a draft.
#[derive(Clone, Copy)]
pub(crate) enum Edit {
    Nothing,
    Partitions(u8),
    Slots(u8),
    Channels(u8),
    Budget(u32),
    // the start address of the first, and of the second partition
    Start(u32),
    OtherStart(u32),
    // the partition and the length of the first slot, and of the second
    Runs(u8),
    OtherRuns(u8),
    Length(u32),
    OtherLength(u32),
    Sender(u8),
    Receiver(u8),
}

impl Edit {
    pub(crate) fn apply(self, draft: &mut Draft) {
        match self {
            Edit::Nothing => {}
            Edit::Partitions(count) => draft.counts[0] = count,
            Edit::Slots(count) => draft.counts[1] = count,
            Edit::Channels(count) => draft.counts[2] = count,
            Edit::Budget(budget) => draft.budget = budget,
            Edit::Start(start) => draft.partitions[0].start = start,
            Edit::OtherStart(start) => draft.partitions[1].start = start,
            Edit::Runs(who) => draft.slots[0].partition = who,
            Edit::OtherRuns(who) => draft.slots[1].partition = who,
            Edit::Length(length) => draft.slots[0].length = length,
            Edit::OtherLength(length) => draft.slots[1].length = length,
            Edit::Sender(who) => draft.channel.sender.partition = who,
            Edit::Receiver(who) => draft.channel.receiver.partition = who,
        }
    }
}
