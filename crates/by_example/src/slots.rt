// Examples: a slot with its switch, the edges of what can be run, and messages. tests/cases runs whole plans.
use crate::layout::lay_out_code;
use checker::Accepted;
use checker::pages::ChannelFrames;
use hart::cause::Cause;
use hart::context::State;
use hart::step::Core;
use hart::stepper::Stepper;
use kernel::machine::Machine;
use kernel::report::Report;
use plan::model::{Channel, Counts, Endpoint, MOST_CHANNELS, Partition, Plan, Slot};
use std::test::Fail;
use words::frames::{read, write};

const SPIN: u32 = 0x0000_006f;

const START: u32 = 0x1_0000;

// One slot of 128 cycles for a partition, a budget of 730, and a channel from 0 to 1 between the frames 3 and 4.
fn accepted(partition: u8) -> Accepted {
    let mut plan = Plan::read(&[]);
    plan.counts = Counts {
        partitions: 1,
        slots: 1,
        channels: 0,
    };
    plan.budget = 730;
    plan.partitions[0] = Partition {
        root: 0,
        start: START,
    };
    plan.slots[0] = Slot {
        partition,
        length: 128,
    };
    plan.channels[0] = Channel {
        sender: Endpoint {
            partition: 0,
            page: 17,
        },
        receiver: Endpoint {
            partition: 1,
            page: 17,
        },
    };
    Accepted {
        plan,
        frames: [ChannelFrames {
            sender: 3,
            receiver: 4,
        }; MOST_CHANNELS],
    }
}

// A jump to itself costs 31 and then 1 each: 1 + 97 up to 128. An illegal word costs 31, and its program waits for the same end.
#[test]
fn a_slot(rt: HostRuntime) -> Result<(), Fail> {
    for (code, ready, instructions) in [(SPIN, true, 98), (0, false, 1)] {
        let accepted = accepted(0);
        let mut words = [0; 3072];
        lay_out_code(&mut words, code);
        let mut machine = Machine::load(&accepted.plan);
        let report = machine.run_slot(&accepted, &mut words, &mut Stepper::new(Core::new(0, 0)));
        let report = report.ok_or("no slot")?;
        assert_eq!(rt; (report.begin, report.end), (0, 128));
        assert_eq!(rt; (report.instructions, report.pc), (instructions, START));
        assert_eq!(rt; report.state.is_ready(), ready);
        assert_eq!(rt; (machine.turn, machine.clock), (1, 128 + 730));
    }
    Ok(())
}

// The slot's number and the clock before, whether it runs, and both after.
#[test]
fn the_last_number_and_the_last_clock(rt: HostRuntime) {
    let last = 1 << 63;
    for (turn, clock, runs, next_turn, next_clock) in [
        (u32::MAX - 1, 0u64, true, u32::MAX, 858u64),
        (u32::MAX, 0, false, u32::MAX, 0),
        (0, last - 1, true, 1, last - 1 + 858),
        (0, last, false, 0, last),
    ] {
        let accepted = accepted(0);
        let mut words = [0; 3072];
        lay_out_code(&mut words, SPIN);
        let mut machine = Machine::load(&accepted.plan);
        (machine.turn, machine.clock) = (turn, clock);
        let report = machine.run_slot(&accepted, &mut words, &mut Stepper::new(Core::new(0, 0)));
        assert_eq!(rt; report.is_some(), runs);
        assert_eq!(rt; (machine.turn, machine.clock), (next_turn, next_clock));
    }
}

#[test]
fn a_slot_of_no_partition(rt: HostRuntime) {
    for (partition, runs) in [(7, true), (8, false), (255, false)] {
        let accepted = accepted(partition);
        let mut machine = Machine::load(&accepted.plan);
        let report = machine.run_slot(
            &accepted,
            &mut [0; 1024],
            &mut Stepper::new(Core::new(0, 0)),
        );
        assert_eq!(rt; report.is_some(), runs);
        assert_eq!(rt; machine.turn, u32::from(runs));
    }
}

// A message goes after a slot of its sender, and after no other.
#[test]
fn messages(rt: HostRuntime) {
    for (channels, who, arrives) in [(1, 0, true), (1, 1, false), (0, 0, false)] {
        let mut accepted = accepted(who);
        accepted.plan.counts.channels = channels;
        let mut words = [0; 5120];
        write(&mut words, 3, 1023, 9);
        write(&mut words, 4, 0, 5);
        let mut machine = Machine::load(&accepted.plan);
        let report = machine.run_slot(&accepted, &mut words, &mut Stepper::new(Core::new(0, 0)));
        assert_eq!(rt; report.is_some(), true);
        assert_eq!(rt; read(&words, 4, 1023), if arrives { 9 } else { 0 });
        assert_eq!(rt; read(&words, 4, 0), if arrives { 0 } else { 5 });
        assert_eq!(rt; read(&words, 3, 1023), 9);
    }
}

// A line at its longest, and one with every digit of an address.
#[test]
fn the_longest_lines(rt: HostRuntime) -> Result<(), Fail> {
    let mut report = Report {
        slot: u32::MAX,
        partition: u8::MAX,
        begin: u64::MAX,
        end: u64::MAX,
        instructions: u64::MAX,
        pc: 0x0123_4567,
        state: State::Ready,
    };
    let ready = format!(in rt.alloc(); "{report}")?;
    assert_eq!(rt;
        ready.as_str(),
        "slot 4294967295 partition 255 from 18446744073709551615 ended 18446744073709551615 instructions 18446744073709551615 pc 01234567"
    );
    report.state = State::Stopped {
        cause: Cause::IllegalInstruction,
        pc: 0x89ab_cdef,
    };
    let stopped = format!(in rt.alloc(); "{report}")?;
    assert_eq!(rt;
        stopped.as_str(),
        "slot 4294967295 partition 255 stopped 1 at 89abcdef"
    );
    Ok(())
}
