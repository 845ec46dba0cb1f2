// How many vectors were run, and how many of them failed.
ghost use Rattle.std.specs.Prelude.{◌≡◌, ◌==◌, IfOk};
ghost use Rattle.rv32ui.specs.Tally.{checked, counted, is_expected};

use std::io;

#[derive(Default, Drop)]
pub struct Tally {
    pub run: usize,
    pub failed: usize,
}

impl Tally {
    // Prints how many vectors of a name were run, and counts them.
    pub fn count(&mut self, rt: &HostRuntime, name: &str, vectors: usize) -> io::Result<()>
        ensures { self.new ≡ counted self.old vectors }
    {
        self.run = self.run.saturating_add(vectors);
        println!(rt; "{name} {vectors}")
    }

    // Whether a vector gave what is expected, none where it was not run; it is counted where not.
    pub fn check(&mut self, given: Option<u32>, expected: u32) -> bool
        ensures answer { result ≡ is_expected given expected }
        ensures counts { self.new ≡ checked self.old given expected }
    {
        let expected = given == Some(expected);
        if !expected {
            self.failed = self.failed.saturating_add(1);
        }
        expected
    }

    // Prints the counts, and says whether no vector failed.
    pub fn close(&self, rt: &HostRuntime) -> io::Result<bool>
        ensures { IfOk result (λ passed. passed ≡ (self.now.failed == 0)) }
    {
        println!(rt; "vectors {}, failed {}", self.run, self.failed)?;
        Ok(self.failed == 0)
    }
}
