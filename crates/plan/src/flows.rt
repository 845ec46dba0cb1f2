// Who can reach whom, as a test.
ghost use Rattle.std.specs.Prelude.{◌≡◌, ◌↔◌, true};
ghost use Rattle.plan.specs.Flows.{Flows, leads};

use crate::model::{Channel, Plan};

impl Plan {
    // Whether what one partition does can be seen by another, by any of the ways.
    pub fn flows(&self, from: u8, to: u8) -> bool
        ensures { (result ≡ true) ↔ Flows self.now from to }
    {
        (0..self.counts.channels).any(|k| self.leads(from, to, k))
    }

    fn leads(&self, from: u8, to: u8, k: u8) -> bool
        ensures { result ≡ leads self.now from to k }
    {
        let Channel { sender, receiver } = self.channel(usize::from(k));
        sender.partition == from && receiver.partition == to
    }
}
