// The machine that vectors are run on, and their counts.
use crate::machine::Machine;
use rv32ui::tally::Tally;
use std::io;

#[derive(Drop)]
pub struct Suite<'a> {
    rt: &'a HostRuntime,
    pub machine: Machine,
    tally: Tally,
}

impl<'a> Suite<'a> {
    pub fn new(rt: &'a HostRuntime) -> Suite<'a> {
        Suite {
            rt,
            machine: Machine::new(),
            tally: Tally::default(),
        }
    }

    // Counts and prints a result that is not the expected one; none where the program stopped.
    pub fn check(
        &mut self,
        name: &str,
        row: usize,
        given: Option<u32>,
        expected: u32,
    ) -> io::Result<()> {
        if self.tally.check(given, expected) {
            return Ok(());
        }
        match given {
            Some(value) => println!(self.rt;
                "FAILED {name}, row {row}: {value:08x}, expected {expected:08x}"
            ),
            None => println!(self.rt; "FAILED {name}, row {row}: stopped, expected {expected:08x}"),
        }
    }

    // Prints and counts the rows of a name.
    pub fn count(&mut self, name: &str, rows: usize) -> io::Result<()> {
        self.tally.count(self.rt, name, rows)
    }

    // Prints the counts, and says whether no vector failed.
    pub fn close(&self) -> io::Result<bool> {
        self.tally.close(self.rt)
    }
}
