// What a comparison with a file writes, and how the program fares by it.
ghost use Rattle.std.specs.Prelude.{◌≡◌, true, false, cond};
ghost use Rattle.outcome.specs.Outcomes.{after_failure, is_taken};

use outcome::{Outcome, begin_message, failed};
use std::fmt::Display;

// Whether there is more to compare; how the program has fared, and what it writes by. The outcome stands
// either way, so the flag is no option.
#[derive(Clone, Copy)]
pub struct Report {
    pub more: bool,
    pub outcome: Outcome,
    pub rt: HostRuntime,
}

impl Report {
    // Before anything is compared.
    pub fn new(rt: &HostRuntime, outcome: &Outcome) -> Report
        ensures more { result.more ≡ true }
        ensures outcome { result.outcome ≡ outcome.now }
    {
        Report {
            more: true,
            outcome: *outcome,
            rt: *rt,
        }
    }

    // Writes to standard output. Once that takes no more there is no more to compare.
    pub fn print<D: Display + Drop>(&mut self, text: D)
        ensures more { self.new.more ≡ cond (is_taken self.new.outcome.output) self.old.more false }
        ensures taken { is_taken self.new.outcome.output ≡ true → self.new.outcome ≡ self.old.outcome }
    {
        self.more &= outcome::print(&self.rt, &mut self.outcome, text);
    }

    // At the end of a file there is no more to compare.
    pub fn end(&mut self)
        ensures more { self.new.more ≡ false }
        ensures outcome { self.new.outcome ≡ self.old.outcome }
    {
        self.more = false;
    }

    // Tells standard error after what, and why, the rest of a file is not compared: a failure.
    pub fn stop<D: Display, E: Display>(&mut self, last: &D, why: &E)
        ensures more { self.new.more ≡ false }
        ensures outcome { self.new.outcome ≡ after_failure self.old.outcome }
    {
        begin_message(&self.rt);
        let _ = eprintln!(self.rt; "after {last}: {why}");
        failed(&mut self.outcome);
        self.end();
    }

    // How the program has fared then. What differs is a failure.
    pub fn outcome(&self, differs: bool) -> Outcome
        ensures { result ≡ cond differs (after_failure self.now.outcome) self.now.outcome }
    {
        let mut outcome = self.outcome;
        if differs {
            failed(&mut outcome);
        }
        outcome
    }
}
