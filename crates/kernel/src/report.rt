// What is told of a slot.
ghost use Rattle.std.specs.Prelude.{◌≡◌, ◌≤◌, Some};
ghost use Rattle.kernel.specs.LineText.{line_text};
ghost use Rattle.kernel.specs.ReportText.{EightDigits, outcome_text, report_text};

use crate::line::Line;
use hart::context::State;
use std::fmt;

#[derive(Clone, Copy)]
pub struct Report {
    // how many slots ran before
    pub slot: u32,
    pub partition: u8,
    // the clock at which the slot began, and at which its last step ended
    pub begin: u64,
    pub end: u64,
    // those that the program began in this slot
    pub instructions: u64,
    pub pc: u32,
    pub state: State,
}

// One line: clocks and counts in decimal, addresses in eight hexadecimal digits. By hand, since a contract says the text, and it has two forms.
impl fmt::Display for Report {
    ghost output = { λ r. Some (report_text r) };

    fn fmt<W: fmt::Write>(&self, f: &mut fmt::Formatter<W>) -> fmt::Result {
        let mut line = self.outcome();
        line.put(" ");
        line.put_number(u64::from(self.partition));
        line.put(" partition ");
        line.put_number(u64::from(self.slot));
        line.put("slot ");
        line.write(f)
    }
}

impl Report {
    fn outcome(&self) -> Line
        ensures text { line_text result ≡ outcome_text self.now self.now.state }
        ensures room { 57 ≤ result.start }
    {
        match self.state {
            State::Ready => {
                let mut line = Line::ending_in(self.pc);
                line.put(" pc ");
                line.put_number(self.instructions);
                line.put(" instructions ");
                line.put_number(self.end);
                line.put(" ended ");
                line.put_number(self.begin);
                line.put("from ");
                line
            }
            State::Stopped { cause, pc } => {
                let mut line = Line::ending_in(pc);
                line.put(" at ");
                line.put_number(u64::from(cause.number()));
                line.put("stopped ");
                line
            }
        }
    }
}

// Every address is told in eight digits. This function does nothing: it owes the theorem in its contract.
#[tactic(auto, using(crate::proofs::Printed::eight_digits))]
pub fn laws()
    ensures { EightDigits }
{}
