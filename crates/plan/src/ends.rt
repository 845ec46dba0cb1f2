// Whether a plan ends where its bytes end.
ghost use Rattle.std.specs.Prelude.{◌≡◌};
ghost use Rattle.ranges.specs.Questions.{unless};
ghost use Rattle.plan.specs.Rules.{surplus, truncated};

use crate::model::Plan;
use crate::refusal::Refusal;

impl Plan {
    // Whether the bytes hold the whole plan.
    pub fn check_whole(&self, bytes: &[u8]) -> Result<(), Refusal>
        ensures { result ≡ unless (truncated bytes.now self.now) tt }
    {
        if bytes.len() < self.counts.plan_size() {
            return Err(Refusal::Truncated(bytes.len()));
        }
        Ok(())
    }

    // Whether the bytes end with the plan.
    pub fn check_end(&self, bytes: &[u8]) -> Result<(), Refusal>
        ensures { result ≡ unless (surplus bytes.now self.now) tt }
    {
        let size = self.counts.plan_size();
        if bytes.len() > size {
            return Err(Refusal::Surplus(size));
        }
        Ok(())
    }
}
