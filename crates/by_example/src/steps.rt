// Single steps of the core: causes, the halves of the clock, a store. The program `conformance` has the many.
use crate::layout::lay_out_code;
use hart::cause::Cause;
use hart::step::Core;
use hart::stepper::Stepper;
use isa::register::Register;
use words::frames::{read, write};

fn ready() -> Core {
    Core::new(0, 0x1_0000)
}

#[test]
fn numbers_of_the_causes(rt: HostRuntime) {
    for (cause, number) in [
        (Cause::IllegalInstruction, 1),
        (Cause::FetchMisaligned, 2),
        (Cause::FetchFault, 3),
        (Cause::LoadMisaligned, 4),
        (Cause::LoadFault, 5),
        (Cause::StoreMisaligned, 6),
        (Cause::StoreFault, 7),
    ] {
        assert_eq!(rt; cause.number(), number);
    }
}

// rdcycle, rdtime and rdcycleh into x5.
#[test]
fn halves_of_the_clock(rt: HostRuntime) {
    let mut stepper = Stepper::new(ready());
    for (code, value) in [(0xc000_22f3, 7), (0xc010_22f3, 7), (0xc800_22f3, 5)] {
        let mut words = [0; 4096];
        lay_out_code(&mut words, code);
        let mut core = ready();
        core.clock = 0x5_0000_0007;
        stepper.load(core.context, &core.tables, core.root, core.clock);
        assert_eq!(rt; stepper.step(&mut words), 31);
        assert_eq!(rt;
            stepper.core.context.registers.read(Register::new(5)),
            value
        );
    }
}

// sb x2, 1(x1), in page 17 and in page 16, which has no W.
#[test]
fn a_byte_stored(rt: HostRuntime) {
    let mut stepper = Stepper::new(ready());
    for (address, cost, word) in [(0x1_1000, 81, 0xaabb_ffdd), (0x1_0000, 31, 0xaabb_ccdd)] {
        let mut words = [0; 4096];
        lay_out_code(&mut words, 0x0020_80a3);
        write(&mut words, 3, 0, 0xaabb_ccdd);
        let mut core = ready();
        core.context.registers.write(Register::new(1), address);
        core.context.registers.write(Register::new(2), 0x1234_56ff);
        stepper.load(core.context, &core.tables, core.root, core.clock);
        assert_eq!(rt; stepper.step(&mut words), cost);
        assert_eq!(rt; read(&words, 3, 0), word);
    }
}
